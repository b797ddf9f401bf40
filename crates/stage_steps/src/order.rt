/// Whether the pairs of a record are written before it is taken or after that.
#[derive(Clone, Copy)]
pub enum Order {
    WritesFirst,
    TakesFirst,
}
