ghost use Rattle.std.specs.Prelude.{◌≡◌};
ghost use Rattle.pipe_model.specs.Next.{nothing_known};
ghost use Rattle.lookup_stage.specs.Lookup.{due_for, lookup_plan, LookupIs};

use crate::masters::{Masters, Unmatched};
use pipe_model::{NoMemory, Out, Range, Rec};
use stage_steps::{Act, Goal, Plans, part_of};
use std::alloc::Global;
use std::mem;

/// What it reads.
#[derive(Clone, Copy)]
pub(crate) enum Reading {
    Masters,
    Details,
    /// Both have ended.
    Over,
}

/// What is left to do of the record in sight.
#[derive(Drop)]
pub(crate) enum Due {
    Nothing,
    /// It takes the record of this input.
    Take(u16),
    /// It writes the detail, whose key no master has, and takes it.
    Alone,
    /// It writes the detail and then this master, and takes the detail.
    Both(Rec),
    /// It writes this master, and takes the detail.
    Master(Rec),
}

// What is to be done of a detail, by the master with its key.
fn due_for(master: Option<Rec>) -> Due
    ensures { result ≡ due_for master }
{
    match master {
        Some(master) => Due::Both(master),
        None => Due::Alone,
    }
}

/// LOOKUP: details come on input 0 and masters, which it reads first, on input 1.
#[derive(Drop)]
pub struct Lookup {
    of_detail: Range,
    of_master: Range,
    masters: Masters,
    /// The masters that are still to be written behind the last detail.
    unmatched: Unmatched,
    reading: Reading,
    due: Due,
}

impl Lookup {
    // Before the first record, for keys in these parts of details and masters.
    pub(crate) fn new(alloc: Global, of_detail: Range, of_master: Range) -> Lookup
        ensures { LookupIs result (lookup_plan of_detail of_master) nothing_known (lookup_plan of_detail of_master nothing_known) }
    {
        Lookup {
            of_detail,
            of_master,
            masters: Masters::new(alloc),
            unmatched: Masters::new(alloc).into_unmatched(),
            reading: Reading::Masters,
            due: Due::Nothing,
        }
    }
}

impl Plans for Lookup {
    ghost use Rattle.lookup_stage.specs.Lookup.{LookupIs, lookup_looks, lookup_left};

    ghost stands = { LookupIs };

    ghost is_looking = { lookup_looks };

    ghost left = { lookup_left };

    fn see(&mut self, alloc: Global, _input: u16, bytes: &[u8]) -> Result<(), NoMemory> {
        match self.reading {
            Reading::Masters => {
                let key = part_of(self.of_master, bytes);
                self.masters.keep(alloc, key, bytes)?;
                self.due = Due::Take(1);
            }
            Reading::Details | Reading::Over => {
                let key = part_of(self.of_detail, bytes);
                self.due = due_for(self.masters.match_key(alloc, key)?);
            }
        }
        Ok(())
    }

    fn end(&mut self, alloc: Global, _input: u16) -> Result<(), NoMemory> {
        match self.reading {
            Reading::Masters => self.reading = Reading::Details,
            Reading::Details | Reading::Over => {
                let masters = mem::replace(&mut self.masters, Masters::new(alloc));
                self.unmatched = masters.into_unmatched();
                self.reading = Reading::Over;
            }
        }
        Ok(())
    }

    // It never asks for any input.
    fn end_all(&mut self) {}

    // It never waits for the first of its stage.
    fn prime(&mut self, _primed: bool) {}

    fn next(&mut self, _alloc: Global) -> Result<Option<Act>, NoMemory> {
        let (act, due) = match mem::replace(&mut self.due, Due::Nothing) {
            Due::Nothing => {
                let left = self.unmatched.next();
                return Ok(left.map(|rec| Act::Write(2, Out::Fresh(rec))));
            }
            Due::Take(input) => (Act::Take(input), Due::Nothing),
            Due::Alone => (Act::Write(1, Out::Same(0)), Due::Take(0)),
            Due::Both(master) => (Act::Write(0, Out::Same(0)), Due::Master(master)),
            Due::Master(master) => (Act::Write(0, Out::Fresh(master)), Due::Take(0)),
        };
        self.due = due;
        Ok(Some(act))
    }

    fn goal(&self) -> Goal {
        match self.reading {
            Reading::Masters => Goal::Read(1),
            Reading::Details => Goal::Read(0),
            Reading::Over => Goal::End(0),
        }
    }

    fn looks(&self) -> bool {
        true
    }
}
