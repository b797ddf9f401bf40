ghost use Rattle.std.specs.Prelude.{◌≡◌};
ghost use Rattle.pipe_model.specs.Keys as Spec;

/// Whether the first key is less, byte by byte: a proper prefix is less.
pub fn is_less(key: &[u8], other: &[u8]) -> bool
    ensures { result ≡ Spec.is_less key.now other.now }
{
    key < other
}

/// Whether the keys have the same bytes.
pub fn is_same(key: &[u8], other: &[u8]) -> bool
    ensures { result ≡ Spec.is_same key.now other.now }
{
    key == other
}
