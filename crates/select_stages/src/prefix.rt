ghost use Rattle.std.specs.Prelude.{◌≡◌};
ghost use Rattle.pipe_model.specs.Search.{begins};

// Whether a record begins with a string. It is a call of its own, so that the loop that runs all stages stays short.
#[inline(never)]
pub(crate) fn begins(string: &[u8], rec: &[u8]) -> bool
    ensures { result ≡ begins string.now rec.now }
{
    rec.starts_with(string)
}
