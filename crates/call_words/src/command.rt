use pipe_model::{NoMemory, Rec};

/// What the words of a call ask for.
#[derive(Drop)]
pub enum Command {
    /// To run a specification with so many workers, 1 to 64, in so many steps at most, 1 to 50,000,000, and to write its journal
    /// to a file, if one is named by 1 to 255 bytes.
    Run {
        spec: Rec,
        workers: u32,
        steps: u64,
        trace: Option<Rec>,
    },
    /// To check a journal file, named by 1 to 255 bytes, against a specification.
    Check {
        spec: Rec,
        name: Rec,
    },
    /// To tell whether a specification may stall, without a run.
    Lint {
        spec: Rec,
    },
    /// To run the sample on an input of so many lines, 1 to 200,000.
    Sample {
        lines: u32,
        workers: u32,
        steps: u64,
    },
    /// To run each line of the file of this name, 1 to 255 bytes, as a specification of its own, by so many workers, 1 to 64, each
    /// in so many steps at most, 1 to 50,000,000.
    Sets {
        name: Rec,
        workers: u32,
        steps: u64,
    },
}

/// Why words are no command.
#[derive(Clone, Copy, Debug, PartialEq, Eq)]
pub enum WordsFault {
    Usage,
    NoMemory,
}

impl From<NoMemory> for WordsFault {
    ghost use Rattle.std.specs.Prelude.{◌≡◌};
    ghost use Rattle.call_words.specs.declared.command.WordsFault.{WordsFault};

    ghost from_gives = { λ _ fault. fault ≡ WordsFault.NoMemory };

    fn from(_fault: NoMemory) -> WordsFault {
        WordsFault::NoMemory
    }
}
