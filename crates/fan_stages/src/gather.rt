use crate::inputs::all_inputs;
use crate::passing::Passing;
use pipe_model::NoMemory;
use stage_steps::{Act, Goal, Plans};
use std::alloc::Global;

/// GATHER: one record of each input in turn. Each record goes to output 0.
#[derive(Drop)]
pub struct Gather {
    /// The inputs that haven't ended, ascending.
    open: Vec<u16>,
    /// How many of them had their turn. It is the next one's, or the first one's where each had it.
    place: usize,
    passing: Passing,
}

impl Gather {
    ghost use Rattle.std.specs.Prelude.{◌≡◌, IfOk, length, nat_lt, if◌then◌else◌};
    ghost use Rattle.pipe_model.specs.FanRows.{gathering};
    ghost use Rattle.pipe_model.specs.Next.{nothing_known};
    ghost use Rattle.pipe_model.specs.Row.{Known};
    ghost use Rattle.pipe_model.specs.Shape.{turn_plan};
    ghost use Rattle.fan_stages.specs.Gather.{GatherStands};

    // GATHER of so many inputs, before the first record.
    pub(crate) fn new(alloc: Global, inputs: u16) -> Result<Gather, NoMemory>
        ensures { let plan = λ (k : Known). turn_plan inputs gathering k k.told in IfOk result (λ it. GatherStands it plan nothing_known (plan nothing_known)) }
    {
        Ok(Gather {
            open: all_inputs(alloc, inputs)?,
            place: 0,
            passing: Passing::Passed,
        })
    }

    // The place of the input whose turn it is.
    #[inline(always)]
    fn turn(&self) -> usize
        ensures { result ≡ (if nat_lt self.now.place (length self.now.open.items) then self.now.place else 0) }
    {
        if self.place < self.open.len() {
            self.place
        } else {
            0
        }
    }
}

impl Plans for Gather {
    ghost use Rattle.std.specs.Prelude.{false};
    ghost use Rattle.fan_stages.specs.Gather.{GatherStands};
    ghost use Rattle.fan_stages.specs.Passing.{passing_count};

    ghost stands = { GatherStands };

    ghost is_looking = { λ _. false };

    ghost left = { λ x. passing_count x.passing };

    #[inline(always)]
    fn see(&mut self, _alloc: Global, input: u16, _bytes: &[u8]) -> Result<(), NoMemory> {
        self.place = if self.place < self.open.len() {
            self.place + 1
        } else {
            1
        };
        self.passing = Passing::Writing(input);
        Ok(())
    }

    fn end(&mut self, _alloc: Global, _input: u16) -> Result<(), NoMemory> {
        let turn = self.turn();
        if turn < self.open.len() {
            self.open.remove(turn);
        }
        self.place = self.place.min(self.open.len());
        self.passing = Passing::Passed;
        Ok(())
    }

    fn end_all(&mut self) {}

    fn prime(&mut self, _primed: bool) {}

    #[inline(always)]
    fn next(&mut self, _alloc: Global) -> Result<Option<Act>, NoMemory> {
        Ok(self.passing.next())
    }

    #[inline(always)]
    fn goal(&self) -> Goal {
        match self.open.get(self.turn()) {
            Some(input) => Goal::Read(*input),
            None => Goal::End(0),
        }
    }

    #[inline(always)]
    fn looks(&self) -> bool {
        false
    }
}
