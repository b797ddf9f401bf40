use pipe_model::{NoMemory, Rec, behind, front};
use stage_steps::{Each, EachRecord, Group};
use std::alloc::Global;

/// Which parts of the record at hand are still to be given.
#[derive(Clone, Copy)]
enum Owed {
    Nothing,
    Rest,
    /// The front, and then the rest.
    Both,
    /// The record as it is, which is no longer than the front, and then an empty rest.
    Whole,
}

/// CHOP: the first bytes of each record on output 0, and the rest on output 1.
#[derive(Drop)]
pub struct Chops {
    width: u32,
    /// The record at hand, where it has a rest, in a buffer that is kept for the next. A part is made when it is asked for.
    rec: Vec<u8>,
    owed: Owed,
}

impl Chops {
    ghost use Rattle.std.specs.Prelude.{[]};
    ghost use Rattle.pipe_model.specs.EditingRows.{chopped};
    ghost use Rattle.pipe_model.specs.Shape.Outs.{Pairs};
    ghost use Rattle.edit_stages.specs.EditLists.{ChopsStand};

    // CHOP behind so many bytes, before the first record.
    pub(crate) fn lists(alloc: Global, width: u32) -> Each<Chops>
        ensures { ChopsStand result.each (Pairs (chopped width)) [] [] }
    {
        Each {
            each: Chops {
                width,
                rec: Vec::new(alloc),
                owed: Owed::Nothing,
            },
        }
    }
}

impl EachRecord for Chops {
    ghost use Rattle.edit_stages.specs.EditLists.{ChopsStand, chops_look, part_given, owed_count};

    ghost stands = { ChopsStand };

    ghost is_looking = { chops_look };

    ghost made = { λ x. part_given x };

    ghost left = { λ x. owed_count x.owed };

    fn see(&mut self, _alloc: Global, bytes: &[u8]) -> Result<(), NoMemory> {
        self.rec.clear();
        if bytes.len() <= self.width as usize {
            self.owed = Owed::Whole;
        } else {
            self.rec.extend_from_slice(bytes)?;
            self.owed = Owed::Both;
        }
        Ok(())
    }

    fn next(&mut self) -> Option<Group> {
        match self.owed {
            Owed::Nothing => None,
            Owed::Rest => {
                self.owed = Owed::Nothing;
                Some(Group::New(1))
            }
            Owed::Both => {
                self.owed = Owed::Rest;
                Some(Group::New(0))
            }
            Owed::Whole => {
                self.owed = Owed::Rest;
                Some(Group::at_hand(0))
            }
        }
    }

    fn hand_over(&mut self, alloc: Global) -> Result<Rec, NoMemory> {
        let width = self.width as usize;
        match self.owed {
            Owed::Rest => Rec::from_slice(alloc, front(&self.rec, width)),
            _ => Rec::from_slice(alloc, behind(&self.rec, width)),
        }
    }

    fn is_spent(&self) -> bool {
        matches!(self.owed, Owed::Nothing)
    }

    fn looks(&self) -> bool {
        true
    }
}
