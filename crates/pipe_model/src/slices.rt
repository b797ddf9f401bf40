ghost use Rattle.std.specs.Prelude.{◌≡◌, drop, take};

/// A record without its first `count` bytes: nothing where it has no more.
#[inline(always)]
pub fn behind(rec: &[u8], count: usize) -> &[u8]
    ensures { result.now ≡ drop count rec.now }
{
    if count < rec.len() {
        &rec[count..]
    } else {
        &[]
    }
}

/// The first `count` bytes of a record: all where it has no more.
#[inline(always)]
pub fn front(rec: &[u8], count: usize) -> &[u8]
    ensures { result.now ≡ take count rec.now }
{
    if count < rec.len() {
        &rec[..count]
    } else {
        rec
    }
}
