ghost use Rattle.std.specs.Prelude.{◌≡◌};
ghost use Rattle.argument_parts.specs.Fault.{number_of};

/// What is wrong with an argument.
#[derive(Clone, Copy, Debug, PartialEq, Eq)]
pub enum FaultKind {
    /// An argument that is required isn't there.
    Missing,
    /// No argument may stand there any more.
    Extra,
    NotANumber,
    /// A number outside its range, or a string of a wrong length.
    OutOfRange,
    /// A string without its second delimiter.
    Unclosed,
    EmptyString,
    UnknownWord,
    /// A word that begins with `x`, where a string may stand, and isn't pairs of hexadecimal digits after it.
    BadHex,
    /// A range whose last number is less than its first.
    Reversed,
}

impl FaultKind {
    /// The number under which the fault is reported.
    pub fn number(self) -> u8
        ensures { result ≡ number_of self }
    {
        match self {
            FaultKind::Missing => 1,
            FaultKind::Extra => 2,
            FaultKind::NotANumber => 3,
            FaultKind::OutOfRange => 4,
            FaultKind::Unclosed => 5,
            FaultKind::EmptyString => 6,
            FaultKind::UnknownWord => 7,
            FaultKind::BadHex => 8,
            FaultKind::Reversed => 9,
        }
    }
}

/// A fault of an argument, at its place in the specification.
#[derive(Clone, Copy, Debug, PartialEq, Eq)]
pub struct ArgFault {
    pub place: u32,
    pub kind: FaultKind,
}
