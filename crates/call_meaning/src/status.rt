ghost use Rattle.std.specs.Prelude.{◌≡◌};
ghost use Rattle.call_meaning.specs.Status.{number_of, status_of};

use pipe_model::Rec;

/// How a call ended. Each variant but `Zero` has a text on standard error.
#[derive(Clone, Copy, Debug, PartialEq, Eq)]
pub enum Status {
    /// What the words say was done, with code 0.
    Zero = 0,
    /// The run ended with another worst code.
    Coded = 1,
    /// The specification is refused.
    SpecRefused = 2,
    /// The run is complete, and a stage waits for ever.
    Stalled = 3,
    /// As many steps were made as are allowed, and more is to do.
    Spent = 4,
    /// Standard input failed.
    ReadFault = 5,
    /// Standard output or standard error failed.
    WriteFault = 6,
    /// A file couldn't be read or replaced.
    ShelfFault = 7,
    /// An allocation was refused.
    NoMemory = 8,
    /// The words are no command.
    Usage = 9,
    /// Standard input and the files that are read gave more than 67,108,864 bytes.
    InputTooLarge = 10,
    /// A file has no journal, or one that the specification doesn't allow.
    JournalRefused = 11,
    /// Some set of a file of sets has another status than `Zero`.
    SomeSet = 14,
    /// The file of sets isn't there, or has too many lines for the steps of each.
    SetsRefused = 15,
}

impl Status {
    /// The program's exit status.
    pub fn number(self) -> u8
        ensures { result ≡ number_of self }
    {
        self as u8
    }
}

/// How a call ended, with what its text tells.
#[derive(Debug, Drop)]
pub enum Outcome {
    Done,
    Coded(i32),
    SpecRefused {
        number: u8,
        argument: u8,
        place: u32,
    },
    /// Some strands wait: their lines, each with its line feed.
    Stalled(Rec),
    Spent(u64),
    ReadFault,
    WriteFault,
    /// The name of the file.
    ShelfFault(Rec),
    NoMemory,
    Usage,
    InputTooLarge,
    /// The file that is to have the journal isn't there.
    JournalAbsent,
    /// The first line of the file that isn't of the format. Line 1 is the first.
    JournalLine(u64),
    /// The first entry without a licence after those before it, counted from 1.
    JournalEntry(u64),
    /// Some set has another status than `Zero`: the lines of all such sets, each with its line feed.
    SomeSet(Rec),
    /// The file of sets isn't there.
    SetsAbsent,
    /// The first line of the file of sets that is one too many. Line 1 is the first.
    SetsLine(u64),
}

impl Outcome {
    /// The status that the call answers.
    pub fn status(&self) -> Status
        ensures { result ≡ status_of self.now }
    {
        match self {
            Outcome::Done => Status::Zero,
            Outcome::Coded(_) => Status::Coded,
            Outcome::SpecRefused { .. } => Status::SpecRefused,
            Outcome::Stalled(_) => Status::Stalled,
            Outcome::Spent(_) => Status::Spent,
            Outcome::ReadFault => Status::ReadFault,
            Outcome::WriteFault => Status::WriteFault,
            Outcome::ShelfFault(_) => Status::ShelfFault,
            Outcome::NoMemory => Status::NoMemory,
            Outcome::Usage => Status::Usage,
            Outcome::InputTooLarge => Status::InputTooLarge,
            Outcome::JournalAbsent | Outcome::JournalLine(_) | Outcome::JournalEntry(_) => {
                Status::JournalRefused
            }
            Outcome::SomeSet(_) => Status::SomeSet,
            Outcome::SetsAbsent | Outcome::SetsLine(_) => Status::SetsRefused,
        }
    }
}
