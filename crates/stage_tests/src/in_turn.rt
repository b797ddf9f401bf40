use pipe_model::{NoMemory, Out};
use stage_steps::{Act, Goal, Plans};
use std::alloc::Global;

// Plans for trying the driver: it reads two inputs in turn, each to its end, and writes each record on outputs 0 and 1
// before it takes it, or first waits for the first strand of its stage and ends where that saw no record. They stand for no
// row, so nothing is owed of them.
#[derive(Drop)]
pub(crate) struct InTurn {
    is_waiting: bool,
    input: u16,
    // The acts that are left: to write on both outputs and take, to write on output 1 and take, or to take.
    due: u8,
}

// Before the first record.
pub(crate) fn in_turn(is_waiting: bool) -> InTurn {
    InTurn {
        is_waiting,
        input: 0,
        due: 0,
    }
}

impl Plans for InTurn {
    ghost use Rattle.std.specs.Prelude.{false};

    ghost stands = { λ x plan known left. ⊥ };

    ghost is_looking = { λ _. false };

    ghost left = { λ x. x.due };

    fn see(&mut self, _alloc: Global, _input: u16, _bytes: &[u8]) -> Result<(), NoMemory> {
        self.due = 3;
        Ok(())
    }

    fn end(&mut self, _alloc: Global, _input: u16) -> Result<(), NoMemory> {
        self.input = self.input.saturating_add(1);
        Ok(())
    }

    fn end_all(&mut self) {}

    fn prime(&mut self, primed: bool) {
        self.is_waiting = false;
        self.input = if primed { 0 } else { 2 };
    }

    fn next(&mut self, _alloc: Global) -> Result<Option<Act>, NoMemory> {
        let act = match self.due {
            0 => return Ok(None),
            1 => Act::Take(self.input),
            2 => Act::Write(1, Out::Same(self.input)),
            _ => Act::Write(0, Out::Same(self.input)),
        };
        self.due -= 1;
        Ok(Some(act))
    }

    fn goal(&self) -> Goal {
        if self.is_waiting {
            Goal::Prime
        } else if self.input < 2 {
            Goal::Read(self.input)
        } else {
            Goal::End(8)
        }
    }

    fn looks(&self) -> bool {
        false
    }
}
