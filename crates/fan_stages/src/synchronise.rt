use crate::round::Round;
use pipe_model::{NoMemory, Out};
use stage_steps::{Act, Goal, Plans};
use std::alloc::Global;

/// SYNCHRONISE: one record of each input at a time, each to the output of its input's number, up to the first end.
#[derive(Drop)]
pub struct Synchronises {
    round: Round,
    /// How many of the round's records were written.
    written: usize,
}

impl Synchronises {
    ghost use Rattle.std.specs.Prelude.{IfOk};
    ghost use Rattle.pipe_model.specs.FanRows.{synchronising};
    ghost use Rattle.pipe_model.specs.Next.{nothing_known};
    ghost use Rattle.pipe_model.specs.Shape.{round_plan};
    ghost use Rattle.fan_stages.specs.Synchronise.{SynchronisesStand, GivesWrite};

    // SYNCHRONISE of so many inputs, before the first record.
    pub(crate) fn new(alloc: Global, inputs: u16) -> Result<Synchronises, NoMemory>
        ensures { let plan = round_plan inputs synchronising in IfOk result (λ it. SynchronisesStand it plan nothing_known (plan nothing_known)) }
    {
        let mut round = Round::new(alloc, inputs)?;
        round.settle();
        Ok(Synchronises { round, written: 0 })
    }

    // The input whose record is written next, or None where each was written.
    #[inline(always)]
    fn write(&mut self) -> Option<u16>
        ensures { GivesWrite self.old self.new result }
    {
        if !self.round.taking {
            return None;
        }
        match self.round.open.get(self.written) {
            Some(input) => {
                let input = *input;
                self.written += 1;
                Some(input)
            }
            None => None,
        }
    }
}

impl Plans for Synchronises {
    ghost use Rattle.std.specs.Prelude.{false};
    ghost use Rattle.fan_stages.specs.Synchronise.{SynchronisesStand, acts_count};

    ghost stands = { SynchronisesStand };

    ghost is_looking = { λ _. false };

    ghost left = { acts_count };

    #[inline(always)]
    fn see(&mut self, _alloc: Global, _input: u16, _bytes: &[u8]) -> Result<(), NoMemory> {
        self.round.see();
        self.written = 0;
        Ok(())
    }

    fn end(&mut self, _alloc: Global, _input: u16) -> Result<(), NoMemory> {
        self.round.stop();
        Ok(())
    }

    fn end_all(&mut self) {}

    fn prime(&mut self, _primed: bool) {}

    #[inline(always)]
    fn next(&mut self, _alloc: Global) -> Result<Option<Act>, NoMemory> {
        if let Some(input) = self.write() {
            return Ok(Some(Act::Write(input, Out::Same(input))));
        }
        match self.round.take() {
            Some(input) => Ok(Some(Act::Take(input))),
            None => Ok(None),
        }
    }

    #[inline(always)]
    fn goal(&self) -> Goal {
        self.round.goal()
    }

    #[inline(always)]
    fn looks(&self) -> bool {
        false
    }
}
