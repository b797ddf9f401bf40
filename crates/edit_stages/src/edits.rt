ghost use Rattle.std.specs.Prelude.{◌≡◌, ℕ, List, IfOk, unwrap_or};

use pipe_model::{NoMemory, Rec};
use stage_steps::{Each, EachRecord, Group};
use std::alloc::Global;

/// What a stage does that makes one record of each, by that record alone.
pub trait Edits: Sized + Drop {
    /// What it makes of a record.
    ghost made: { Self → List ℕ → List ℕ };

    /// The new record, or None where the record stays as it is.
    fn edit(&self, alloc: Global, rec: &[u8]) -> Result<Option<Rec>, NoMemory>
        ensures { IfOk result (λ new. unwrap_or new rec.now ≡ made self.now rec.now) };
}

/// The lists of such a stage: one pair for each record, on output 0. A record that stays as it is is passed on, not copied.
#[derive(Drop)]
pub struct Edited<E: Edits> {
    edits: E,
    /// What was made of the record at hand, or None where that stays as it is.
    new: Option<Rec>,
    /// It is still to be given.
    due: bool,
}

impl<E: Edits> Edited<E> {
    ghost use Rattle.std.specs.Prelude.{◌≡◌, None, false};
    ghost use Rattle.edit_stages.specs.declared.edits.Edited.{Edited};

    // The lists of these edits, before the first record.
    pub(crate) fn lists(edits: E) -> Each<Edited<E>>
        ensures { result.each ≡ record { edits = edits; new = None; due = false } }
    {
        Each {
            each: Edited {
                edits,
                new: None,
                due: false,
            },
        }
    }
}

impl<E: Edits> EachRecord for Edited<E> {
    ghost use Rattle.edit_stages.specs.EditLists.{EditedStand, edited_look, edited_given, new_count};

    ghost stands = { EditedStand E.made };

    ghost is_looking = { edited_look };

    ghost made = { λ x. edited_given x };

    ghost left = { λ x. new_count x.due };

    #[inline(always)]
    fn see(&mut self, alloc: Global, bytes: &[u8]) -> Result<(), NoMemory> {
        self.new = self.edits.edit(alloc, bytes)?;
        self.due = true;
        Ok(())
    }

    #[inline(always)]
    fn next(&mut self) -> Option<Group> {
        if !self.due {
            return None;
        }
        self.due = false;
        if self.new.is_some() {
            Some(Group::New(0))
        } else {
            Some(Group::at_hand(0))
        }
    }

    #[inline(always)]
    fn hand_over(&mut self, alloc: Global) -> Result<Rec, NoMemory> {
        match self.new.take() {
            Some(new) => Ok(new),
            None => Ok(Rec::from_vec(Vec::new(alloc))),
        }
    }

    #[inline(always)]
    fn is_spent(&self) -> bool {
        !self.due
    }

    fn looks(&self) -> bool {
        true
    }
}
