/// What lists give for a record.
#[derive(Clone, Copy)]
pub enum Sifted {
    /// Nothing, and they go on behind it.
    Drops,
    /// The record, once, on this output, and they go on behind it: they have given it.
    Passes(u16),
    /// What `next` gives from now on.
    Gives,
}
