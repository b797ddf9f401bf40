use crate::passing::Passing;
use pipe_model::NoMemory;
use stage_steps::{Act, Goal, Plans};
use std::alloc::Global;

/// FANIN: each input to its end, ascending. Each record goes to output 0.
#[derive(Drop)]
pub struct FanIn {
    /// How many inputs there are.
    inputs: u16,
    /// The input that is read. Those before it have ended.
    input: u16,
    passing: Passing,
}

impl FanIn {
    ghost use Rattle.pipe_model.specs.FanRows.{fanning_in};
    ghost use Rattle.pipe_model.specs.Next.{nothing_known};
    ghost use Rattle.pipe_model.specs.Row.{Known};
    ghost use Rattle.pipe_model.specs.Shape.{turn_plan};
    ghost use Rattle.fan_stages.specs.FanIn.{FanInStands};

    // FANIN of so many inputs, before the first record.
    pub(crate) fn new(inputs: u16) -> FanIn
        ensures { let plan = λ (k : Known). turn_plan inputs fanning_in k k.told in FanInStands result plan nothing_known (plan nothing_known) }
    {
        FanIn {
            inputs,
            input: 0,
            passing: Passing::Passed,
        }
    }
}

impl Plans for FanIn {
    ghost use Rattle.std.specs.Prelude.{false};
    ghost use Rattle.fan_stages.specs.FanIn.{FanInStands};
    ghost use Rattle.fan_stages.specs.Passing.{passing_count};

    ghost stands = { FanInStands };

    ghost is_looking = { λ _. false };

    ghost left = { λ x. passing_count x.passing };

    #[inline(always)]
    fn see(&mut self, _alloc: Global, input: u16, _bytes: &[u8]) -> Result<(), NoMemory> {
        self.passing = Passing::Writing(input);
        Ok(())
    }

    fn end(&mut self, _alloc: Global, _input: u16) -> Result<(), NoMemory> {
        self.input = self.input.saturating_add(1);
        self.passing = Passing::Passed;
        Ok(())
    }

    fn end_all(&mut self) {}

    fn prime(&mut self, _primed: bool) {}

    #[inline(always)]
    fn next(&mut self, _alloc: Global) -> Result<Option<Act>, NoMemory> {
        Ok(self.passing.next())
    }

    #[inline(always)]
    fn goal(&self) -> Goal {
        if self.input < self.inputs {
            Goal::Read(self.input)
        } else {
            Goal::End(0)
        }
    }

    #[inline(always)]
    fn looks(&self) -> bool {
        false
    }
}
