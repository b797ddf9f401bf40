/// Whether the answer of a net doesn't rest on the order of its steps: the ways to every FANINANY and every JUXTAPOSE part
/// at one strand, and there is no GATE.
#[derive(Clone, Copy, Debug, PartialEq, Eq)]
pub enum Settled {
    /// It doesn't.
    Yes,
    /// It may, by this strand, the least that doesn't meet what it owes in a settled net.
    Loose(u32),
}
