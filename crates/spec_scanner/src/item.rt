/// How a byte of a specification's body is read.
#[derive(Clone, Copy)]
pub(crate) enum Reading {
    /// As itself.
    Plain,
    /// As itself, since it came by the escape character or by doubling.
    Literal,
    /// As the end of a stage.
    Separator,
    /// As the end of a pipeline.
    End,
}

/// A byte of a specification's body, with the place where its spelling begins and the place just after that.
#[derive(Clone, Copy)]
pub(crate) struct Item {
    pub byte: u8,
    pub reading: Reading,
    pub place: u32,
    pub after: u32,
}
