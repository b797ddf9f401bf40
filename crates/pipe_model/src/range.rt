/// What the numbers of a range count.
#[derive(Clone, Copy, Debug, PartialEq, Eq)]
pub enum Span {
    /// Bytes.
    Columns,
    /// Runs of bytes other than a blank.
    Words,
    /// Parts between tabs.
    Fields,
}

/// A part of a record: from `first` to `last`, both counted from 1 and included, or to the end.
#[derive(Clone, Copy, Debug, PartialEq, Eq)]
pub struct Range {
    pub span: Span,
    pub first: u32,
    pub last: Option<u32>,
}

impl Default for Range {
    /// All columns.
    fn default() -> Range {
        Range {
            span: Span::Columns,
            first: 1,
            last: None,
        }
    }
}
