use crate::passing::Passing;
use pipe_model::NoMemory;
use stage_steps::{Act, Goal, Plans};
use std::alloc::Global;

/// GATE: a record of another input than 0 goes to the output of its number; a record on input 0, or its end, ends it.
#[derive(Drop)]
pub struct Gates {
    passing: Passing,
    /// It ends when nothing is left to do.
    is_shut: bool,
}

impl Gates {
    ghost use Rattle.pipe_model.specs.Next.{nothing_known};
    ghost use Rattle.gate_elastic.specs.Gates.{gates, GatesStand};

    // GATE before the first record.
    pub(crate) fn new() -> Gates
        ensures { GatesStand result gates nothing_known (gates nothing_known) }
    {
        Gates {
            passing: Passing::Passed,
            is_shut: false,
        }
    }
}

impl Plans for Gates {
    ghost use Rattle.std.specs.Prelude.{false};
    ghost use Rattle.gate_elastic.specs.Gates.{GatesStand};
    ghost use Rattle.gate_elastic.specs.Passing.{passing_count};

    ghost stands = { GatesStand };

    ghost is_looking = { λ _. false };

    ghost left = { λ x. passing_count x.passing };

    #[inline(always)]
    fn see(&mut self, _alloc: Global, input: u16, _bytes: &[u8]) -> Result<(), NoMemory> {
        if input == 0 {
            self.is_shut = true;
        } else {
            self.passing = Passing::Writing(input);
        }
        Ok(())
    }

    fn end(&mut self, _alloc: Global, _input: u16) -> Result<(), NoMemory> {
        self.is_shut = true;
        Ok(())
    }

    fn end_all(&mut self) {
        self.is_shut = true;
    }

    // It never waits for the first of its stage.
    fn prime(&mut self, _primed: bool) {}

    #[inline(always)]
    fn next(&mut self, _alloc: Global) -> Result<Option<Act>, NoMemory> {
        Ok(self.passing.next())
    }

    #[inline(always)]
    fn goal(&self) -> Goal {
        if self.is_shut {
            Goal::End(0)
        } else {
            Goal::Gate
        }
    }

    fn looks(&self) -> bool {
        false
    }
}
