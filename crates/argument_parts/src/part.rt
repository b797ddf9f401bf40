use crate::fault::FaultKind;
use pipe_model::{Range, Rec, Span, Spot, Times};

/// A keyword, read in any case.
#[derive(Clone, Copy, Debug, PartialEq, Eq)]
pub enum Word {
    First,
    Last,
    Both,
    Leading,
    Trailing,
    Left,
    Right,
    Upper,
    Lower,
    Count,
    Singles,
    Multiple,
    /// `a`
    Ascending,
    /// `d`
    Descending,
    Lines,
    Words,
    Bytes,
    Fixed,
    Linend,
    String,
    Sf,
    Number,
    Print,
    Read,
    Write,
    Pad,
    Set,
    Eof,
    Strip,
    C2x,
    X2c,
    Center,
    /// `=`
    Put,
    /// `+=`
    Add,
    /// `-=`
    Subtract,
    Num,
}

/// What may come next among the arguments of a stage.
#[derive(Clone, Copy, Debug, PartialEq, Eq)]
pub enum Part {
    /// A range, before whose numbers a word may say what they count.
    Range,
    /// A range of columns.
    Columns,
    /// A string that isn't empty.
    String,
    /// A string, which may be empty.
    AnyString,
    /// Two strings, either of which may be empty: between three of one delimiter, or a hexadecimal one and another after it.
    Strings,
    /// A string of length 1.
    Byte,
    /// A number that isn't less than `least` nor greater than `most`.
    Number { least: u32, most: u32 },
    /// A number that isn't greater than 2,147,483,647, or `*`.
    Times,
    Word(Word),
    /// A word of at most 255 bytes.
    Name,
    /// A counter of SPECS, `#0` to `#9`.
    Counter,
    /// A whole number of 64 bits, with a minus sign or without one.
    Whole,
    /// Where SPECS puts a field.
    Spot,
}

/// An argument that was read.
#[derive(Drop)]
pub enum Value {
    Range(Range),
    String(Rec),
    Strings(Rec, Rec),
    Byte(u8),
    Number(u32),
    Times(Times),
    Word(Word),
    /// 0 to 9
    Counter(u8),
    Whole(i64),
    Spot(Spot),
}

/// A fault in a text, where so many bytes are left of it.
#[derive(Clone, Copy, Debug, PartialEq, Eq)]
pub struct TextFault {
    pub left: usize,
    pub kind: FaultKind,
}
