ghost use Rattle.std.specs.Prelude.{◌≡◌, IfErr, IfOk};
ghost use Rattle.journal_file.specs.Faults.{IsFaultOf};
ghost use Rattle.journal_file.specs.Text.{IsJournal, journal_text};

use crate::entries::Journal;
use crate::fronts::{behind, behind_end, next_entry};
use pipe_model::NoMemory;
use std::alloc::Global;

/// Why a text isn't read.
#[derive(Clone, Copy, Debug, PartialEq, Eq)]
pub enum JournalFault {
    /// The first line that isn't of the format; line 1 is the first.
    Line(u64),
    /// Want of memory.
    NoMemory,
}

impl From<NoMemory> for JournalFault {
    ghost use Rattle.std.specs.Prelude.{◌≡◌};
    ghost use Rattle.journal_file.specs.declared.reading.JournalFault.{JournalFault};

    ghost from_gives = { λ _ fault. fault ≡ JournalFault.NoMemory };

    fn from(_error: NoMemory) -> JournalFault {
        JournalFault::NoMemory
    }
}

/// The journal that the text is of; or the first line that isn't of the format, where the text is of none.
pub fn read(alloc: Global, text: &[u8]) -> Result<Journal, JournalFault>
    ensures read { IfOk result (λ journal. IsJournal journal × (text.now ≡ journal_text journal)) }
    ensures fault { IfErr result (IsFaultOf text.now) }
{
    let Some(mut rest) = behind(text, b"pipe-journal 1\n") else {
        return Err(JournalFault::Line(1));
    };
    let mut journal = Journal::new(alloc);
    loop {
        let count = journal.len();
        if let Some(more) = behind_end(rest, count) {
            if more.is_empty() {
                return Ok(journal);
            }
            return Err(JournalFault::Line(count + 3));
        }
        let Some((entry, more)) = next_entry(rest, count) else {
            return Err(JournalFault::Line(count + 2));
        };
        journal.push(entry)?;
        rest = more;
    }
}
