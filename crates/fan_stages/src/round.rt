use crate::inputs::all_inputs;
use pipe_model::NoMemory;
use stage_steps::Goal;
use std::alloc::Global;

/// Rounds of the inputs that haven't ended: each is read, ascending, and when a record of each is in sight, they are acted
/// on, and each is taken, ascending.
#[derive(Drop)]
pub(crate) struct Round {
    /// The inputs that haven't ended, ascending.
    pub(crate) open: Vec<u16>,
    /// How many of them were read in this round; while it takes, how many of the records were taken.
    pub(crate) place: usize,
    /// It takes the records of the round.
    pub(crate) taking: bool,
}

impl Round {
    ghost use Rattle.std.specs.Prelude.{◌≡◌, ◌<◌, ◌+◌, ◌&&◌, not, false, List, [], length, nat_lt, IfOk, if◌then◌else◌, slice_get};
    ghost use Rattle.std.specs.List.{remove};
    ghost use Rattle.pipe_model.specs.Shape.{all_inputs as every_input, has_any, look};
    ghost use Rattle.stage_steps.specs.Plans.{goal_of};
    ghost use Rattle.fan_stages.specs.Round.{BeginsRound, GivesTake, IsSettled, next_place};

    // Rounds of so many inputs, before the first.
    pub(crate) fn new(alloc: Global, inputs: u16) -> Result<Round, NoMemory>
        ensures { IfOk result (λ it. BeginsRound inputs it) }
    {
        Ok(Round {
            open: all_inputs(alloc, inputs)?,
            place: 0,
            taking: false,
        })
    }

    // The record of the input that was read is in sight.
    #[inline(always)]
    pub(crate) fn see(&mut self)
        ensures { self.old.place < length self.old.open.items → IsSettled self.old.open.items (self.old.place + 1) self.new }
    {
        self.place = self.place.saturating_add(1);
        self.settle();
    }

    // The input that was read has ended.
    pub(crate) fn end(&mut self)
        ensures { IsSettled (remove self.old.open.items self.old.place) self.old.place self.new }
    {
        if self.place < self.open.len() {
            self.open.remove(self.place);
        }
        self.settle();
    }

    // It reads no more.
    pub(crate) fn stop(&mut self)
        ensures open { self.new.open.items ≡ [] }
        ensures reads { self.new.taking ≡ false }
    {
        self.open.clear();
        self.taking = false;
    }

    // It begins to take where each input was read.
    #[inline(always)]
    pub(crate) fn settle(&mut self)
        ensures { IsSettled self.old.open.items self.old.place self.new }
    {
        if self.place < self.open.len() {
            self.taking = false;
        } else {
            self.place = 0;
            self.taking = !self.open.is_empty();
        }
    }

    // The input of the next record to take, or None where none is left.
    #[inline(always)]
    pub(crate) fn take(&mut self) -> Option<u16>
        ensures { GivesTake self.old self.new result }
    {
        if !self.taking {
            return None;
        }
        match self.open.get(self.place) {
            Some(input) => {
                let input = *input;
                self.place += 1;
                if self.place == self.open.len() {
                    self.place = 0;
                    self.taking = false;
                }
                Some(input)
            }
            None => None,
        }
    }

    // What follows when all are taken: the next read, or the end.
    #[inline(always)]
    pub(crate) fn goal(&self) -> Goal
        ensures { goal_of result ≡ look (slice_get self.now.open.items (next_place self.now)) }
    {
        let place = if self.taking { 0 } else { self.place };
        match self.open.get(place) {
            Some(input) => Goal::Read(*input),
            None => Goal::End(0),
        }
    }
}
