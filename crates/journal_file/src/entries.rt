ghost use Rattle.std.specs.Prelude.{◌≡◌, ◌<◌, ◌∷◌, ◌++◌, [], length, OnErr, OnOk};
ghost use Rattle.journal_file.specs.Text.{IsJournal, most_entries};

use pipe_model::{Entry, NoMemory};
use std::alloc::Global;
use std::marker::Model;

/// The greatest number of entries.
pub(crate) const MOST_ENTRIES: u64 = 50_000_000;

/// The entries of a journal, seen as the list of them, at most 50,000,000.
#[derive(Debug, Drop)]
pub struct Journal {
    entries: Vec<Entry>,
}

impl Model for Journal {
    ghost use Rattle.std.specs.Prelude.{List};
    ghost use Rattle.pipe_model.specs.declared.step.Entry.{Entry};
    ghost use Rattle.journal_file.specs.Text.{IsJournal};

    ghost Value = { List Entry };

    ghost view = { λ journal. journal.entries.items };

    ghost invariant = { λ journal. IsJournal journal.entries.items };
}

impl Journal {
    /// No entry.
    pub fn new(alloc: Global) -> Journal
        ensures { result ≡ [] }
    {
        Journal {
            entries: Vec::new(alloc),
        }
    }

    /// Adds an entry at the end. After want of memory the entries are as before.
    pub fn push(&mut self, entry: Entry) -> Result<(), NoMemory>
        requires { length self.old < most_entries }
        ensures ok { OnOk result (self.new ≡ self.old ++ entry ∷ []) }
        ensures err { OnErr result (self.new ≡ self.old) }
    {
        self.entries.push(entry)?;
        Ok(())
    }

    /// How many entries there are.
    pub fn len(&self) -> u64
        ensures { result ≡ length self.now }
    {
        self.entries.len() as u64
    }

    /// The entries one by one.
    pub fn entries(&self) -> &[Entry]
        ensures all { result.now ≡ self.now }
        ensures journal { IsJournal self.now }
    {
        &self.entries
    }
}
