use crate::passing::Passing;
use pipe_model::NoMemory;
use stage_steps::{Act, Goal, Plans};
use std::alloc::Global;

/// Whether a strand of DAM lets its records go.
#[derive(Clone, Copy)]
pub(crate) enum Flow {
    /// It waits for the first strand.
    Held,
    /// Its records go on.
    Running,
    /// It ends: the first strand saw no record, or its own input has ended.
    Over,
}

/// A strand of DAM that isn't the first: when the first one saw a record, each of its own goes to its output.
#[derive(Drop)]
pub struct Dams {
    passing: Passing,
    flow: Flow,
}

impl Dams {
    ghost use Rattle.pipe_model.specs.Next.{nothing_known};
    ghost use Rattle.gate_elastic.specs.Dams.{dams, DamsStand};

    // The strand before the first record of any.
    pub(crate) fn new() -> Dams
        ensures { DamsStand result dams nothing_known (dams nothing_known) }
    {
        Dams {
            passing: Passing::Passed,
            flow: Flow::Held,
        }
    }
}

impl Plans for Dams {
    ghost use Rattle.std.specs.Prelude.{false};
    ghost use Rattle.gate_elastic.specs.Dams.{DamsStand};
    ghost use Rattle.gate_elastic.specs.Passing.{passing_count};

    ghost stands = { DamsStand };

    ghost is_looking = { λ _. false };

    ghost left = { λ x. passing_count x.passing };

    #[inline(always)]
    fn see(&mut self, _alloc: Global, input: u16, _bytes: &[u8]) -> Result<(), NoMemory> {
        self.passing = Passing::Writing(input);
        Ok(())
    }

    fn end(&mut self, _alloc: Global, _input: u16) -> Result<(), NoMemory> {
        self.flow = Flow::Over;
        Ok(())
    }

    // It never looks at any input.
    fn end_all(&mut self) {}

    fn prime(&mut self, primed: bool) {
        self.flow = if primed { Flow::Running } else { Flow::Over };
    }

    #[inline(always)]
    fn next(&mut self, _alloc: Global) -> Result<Option<Act>, NoMemory> {
        Ok(self.passing.next())
    }

    #[inline(always)]
    fn goal(&self) -> Goal {
        match self.flow {
            Flow::Held => Goal::Prime,
            Flow::Running => Goal::Read(0),
            Flow::Over => Goal::End(0),
        }
    }

    fn looks(&self) -> bool {
        false
    }
}
