//! The journal of a check.
ghost use Rattle.std.specs.Prelude.{IfErr, MatchResult};
ghost use Rattle.call_meaning.specs.Devices.{store};
ghost use Rattle.call_streams.specs.Fetched.{HasJournal, HasNoJournal};
ghost use Rattle.call_streams.specs.Texts.{IsTelling};

use crate::fetch::{Found, fetch};
use crate::text::{Told, no_memory, tell};
use call_meaning::Outcome;
use journal_file::{Journal, JournalFault, read};
use outside::Shelf;
use pipe_model::Rec;
use std::alloc::Global;

/// A journal, and the file that it was read from.
#[derive(Drop)]
pub struct Stored {
    pub journal: Journal,
    pub found: Vec<Found>,
}

/// The journal of the file. An error is that it isn't there, or has no journal, a fault of the shelf or want of memory, with its text.
pub fn fetch_journal<F: Shelf>(alloc: Global, name: Rec, shelf: &mut F) -> Result<Stored, Told>
    ensures journal { let old = store (F.files shelf.old) (F.faults shelf.old) (F.wants shelf.old) in let new = store (F.files shelf.new) (F.faults shelf.new) (F.wants shelf.new) in
        MatchResult result (λ stored. HasJournal name old new stored.found.items stored.journal) (λ told. HasNoJournal name old new told.outcome) }
    ensures text { IfErr result IsTelling }
{
    let mut found = Vec::new(alloc);
    let Some(text) = fetch(alloc, &name, &mut found, shelf)? else {
        return Err(tell(alloc, Outcome::JournalAbsent));
    };
    match read(alloc, text.bytes()) {
        Ok(journal) => Ok(Stored { journal, found }),
        Err(JournalFault::Line(number)) => Err(tell(alloc, Outcome::JournalLine(number))),
        Err(JournalFault::NoMemory) => Err(no_memory()),
    }
}
