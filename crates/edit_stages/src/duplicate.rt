use pipe_model::{NoMemory, Rec, Times};
use stage_steps::{Each, EachRecord, Group, Repeat};
use std::alloc::Global;

/// What is still to be written of the record at hand.
#[derive(Clone, Copy)]
enum Due {
    Nothing,
    /// The copies.
    Copies,
    /// The record, and then its copies.
    All,
}

/// DUPLICATE: the record, and so many copies of it. `*` has no end of copies.
#[derive(Drop)]
pub struct Duplicates {
    copies: Times,
    due: Due,
}

impl Duplicates {
    ghost use Rattle.std.specs.Prelude.{[]};
    ghost use Rattle.pipe_model.specs.EditingRows.{duplicate};
    ghost use Rattle.edit_stages.specs.EditLists.{DuplicatesStand};

    // DUPLICATE with so many copies, before the first record.
    pub(crate) fn lists(copies: Times) -> Each<Duplicates>
        ensures { DuplicatesStand result.each (duplicate copies).outs [] [] }
    {
        Each {
            each: Duplicates {
                copies,
                due: Due::Nothing,
            },
        }
    }
}

impl EachRecord for Duplicates {
    ghost use Rattle.edit_stages.specs.EditLists.{DuplicatesStand, duplicates_look, due_count};

    ghost stands = { DuplicatesStand };

    ghost is_looking = { duplicates_look };

    ghost left = { λ x. due_count x.due };

    #[inline(always)]
    fn see(&mut self, _alloc: Global, _bytes: &[u8]) -> Result<(), NoMemory> {
        self.due = match self.copies {
            Times::Only(_) => Due::All,
            Times::All => Due::Copies,
        };
        Ok(())
    }

    #[inline(always)]
    fn next(&mut self) -> Option<Group> {
        match self.due {
            Due::Nothing => None,
            Due::Copies => {
                self.due = Due::Nothing;
                Some(Group::AtHand(Repeat {
                    output: 0,
                    times: self.copies,
                }))
            }
            Due::All => {
                self.due = Due::Copies;
                Some(Group::at_hand(0))
            }
        }
    }

    fn hand_over(&mut self, alloc: Global) -> Result<Rec, NoMemory> {
        Ok(Rec::from_vec(Vec::new(alloc)))
    }

    #[inline(always)]
    fn is_spent(&self) -> bool {
        matches!(self.due, Due::Nothing)
    }

    fn looks(&self) -> bool {
        false
    }
}
