/// A step over an edge from one group to another.
#[derive(Clone, Copy)]
pub(crate) struct Hop {
    /// The strand from which it goes.
    pub(crate) exit: u32,
    /// The edge, by its number among the links.
    pub(crate) link: u32,
    /// The strand to which it comes.
    pub(crate) entry: u32,
}
