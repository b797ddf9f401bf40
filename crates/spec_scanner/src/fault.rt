ghost use Rattle.std.specs.Prelude.{◌≡◌};
ghost use Rattle.spec_scanner.specs.Faults as Faults;

use pipe_model::NoMemory;

/// What is wrong with a specification: from `NoPiece` to `TooLong` with its text, and from `UnknownStage` on with the net of its pieces.
#[derive(Clone, Copy, Debug, PartialEq, Eq)]
pub enum SpecFaultKind {
    /// No stage, reference or connector at all, at the text's length.
    NoPiece,
    /// An empty stage, at the separator, end character or text end that closes it.
    EmptyStage,
    /// An option that is unknown, or given twice, at the option's word.
    BadOption,
    /// Options that are not closed, at `(`.
    OpenOptions,
    /// An option's value that is missing, or is no character that may be chosen, or was chosen before, at the value, or at `)` where
    /// it is missing.
    BadValue,
    /// A label that is defined already, at the label.
    LabelTwice,
    /// A label that isn't defined further left, at the label.
    UnknownLabel,
    /// A label that isn't 1 to 8 letters or digits, at the label.
    BadLabel,
    /// An escape character at the end, at its place.
    LoneEscape,
    /// More than 65,536 bytes, at 65,536.
    TooLong,
    /// No stage has the name, at the name.
    UnknownStage,
    /// The arguments aren't those of the stage, at the argument's fault.
    BadArguments,
    /// A later use of a label that is of a stream past 63, or connects one past those that the stage may have, at the label.
    NoSuchStream,
    /// A `<` that isn't first in its pipeline, at the name.
    NotFirst,
    /// A second CONSOLE that reads, or a second one that writes, at the name.
    SecondConsole,
    /// A 1,025th stage, at the stage.
    TooManyStages,
    /// A connector in the main specification, at the connector.
    MisplacedConnector,
    /// A second `>` of one file, at the name of the stage.
    SecondFile,
}

impl SpecFaultKind {
    /// The number under which the fault is reported.
    pub fn number(self) -> u8
        ensures { result ≡ Faults.number_of self }
    {
        match self {
            SpecFaultKind::NoPiece => 1,
            SpecFaultKind::EmptyStage => 2,
            SpecFaultKind::BadOption => 3,
            SpecFaultKind::OpenOptions => 4,
            SpecFaultKind::BadValue => 5,
            SpecFaultKind::LabelTwice => 6,
            SpecFaultKind::UnknownLabel => 7,
            SpecFaultKind::BadLabel => 8,
            SpecFaultKind::LoneEscape => 9,
            SpecFaultKind::TooLong => 10,
            SpecFaultKind::UnknownStage => 11,
            SpecFaultKind::BadArguments => 12,
            SpecFaultKind::NoSuchStream => 13,
            SpecFaultKind::NotFirst => 14,
            SpecFaultKind::SecondConsole => 15,
            SpecFaultKind::TooManyStages => 16,
            SpecFaultKind::MisplacedConnector => 17,
            SpecFaultKind::SecondFile => 18,
        }
    }

    /// The fault of this kind at a place of the specification.
    pub fn at(self, place: u32) -> Fault
        ensures { result ≡ Faults.fault self place }
    {
        Fault {
            number: self.number(),
            argument: 0,
            place,
        }
    }
}

/// A fault of a specification, under its number, at its place.
#[derive(Clone, Copy, Debug, PartialEq, Eq)]
pub struct Fault {
    pub number: u8,
    /// The number of the fault of an argument, for `BadArguments`, else 0.
    pub argument: u8,
    pub place: u32,
}

/// The first of a fault found before, if any, and another one: the one further left, or at one place that of the lesser number.
pub fn least(found: Option<Fault>, other: Fault) -> Fault
    ensures { result ≡ Faults.least found other }
{
    match found {
        Some(fault)
            if fault.place < other.place
                || fault.place == other.place && fault.number <= other.number => { fault }
        _ => other,
    }
}

/// Why a text isn't read: its fault of the least place, and of two at one place that of the lesser number, or want of memory.
/// The fault is of a kind from `NoPiece` to `TooLong`.
#[derive(Clone, Copy, Debug, PartialEq, Eq)]
pub enum SpecFault {
    Refused { number: u8, place: u32 },
    NoMemory,
}

impl From<NoMemory> for SpecFault {
    ghost use Rattle.spec_scanner.specs.declared.fault.SpecFault.{SpecFault};

    ghost from_gives = { λ _ fault. fault ≡ SpecFault.NoMemory };

    fn from(_fault: NoMemory) -> SpecFault {
        SpecFault::NoMemory
    }
}
