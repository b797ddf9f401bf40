ghost use Rattle.std.specs.Prelude.{◌≡◌, IfOk};
ghost use Rattle.pipe_model.specs.FanRows.{laid_over};

use crate::round::Round;
use pipe_model::{NoMemory, Out, Rec};
use stage_steps::{Act, Goal, Plans};
use std::alloc::Global;

/// OVERLAY: one record of each input at a time, laid over each other, the highest input's on top. A byte that is the pad is
/// seen through.
#[derive(Drop)]
pub struct Overlays {
    round: Round,
    pad: u8,
    /// The records of the round so far, laid over each other, in a buffer that is kept for the next round.
    made: Vec<u8>,
    /// They are still to be written.
    due: bool,
}

impl Overlays {
    ghost use Rattle.std.specs.Prelude.{IfOk};
    ghost use Rattle.pipe_model.specs.FanRows.{overlaying};
    ghost use Rattle.pipe_model.specs.Next.{nothing_known};
    ghost use Rattle.pipe_model.specs.Shape.{round_plan};
    ghost use Rattle.fan_stages.specs.Overlay.{OverlaysStand};

    // OVERLAY of so many inputs with this pad, before the first record.
    pub(crate) fn new(alloc: Global, inputs: u16, pad: u8) -> Result<Overlays, NoMemory>
        ensures { let plan = round_plan inputs (overlaying pad) in IfOk result (λ it. OverlaysStand it plan nothing_known (plan nothing_known)) }
    {
        let mut round = Round::new(alloc, inputs)?;
        round.settle();
        Ok(Overlays {
            round,
            pad,
            made: Vec::new(alloc),
            due: false,
        })
    }
}

// Lays a record over what is there.
fn lay(made: &mut Vec<u8>, rec: &[u8], pad: u8) -> Result<(), NoMemory>
    ensures { IfOk result (λ _. made.new.items ≡ laid_over pad rec.now made.old.items) }
{
    let within = rec.len().min(made.len());
    let below = made.as_mut_slice();
    for place in 0..within {
        let byte = rec[place];
        if byte != pad {
            below[place] = byte;
        }
    }
    made.extend_from_slice(&rec[within..])?;
    Ok(())
}

impl Plans for Overlays {
    ghost use Rattle.std.specs.Prelude.{true};
    ghost use Rattle.fan_stages.specs.Overlay.{OverlaysStand, overlay_count};

    ghost stands = { OverlaysStand };

    ghost is_looking = { λ _. true };

    ghost left = { overlay_count };

    #[inline(always)]
    fn see(&mut self, _alloc: Global, _input: u16, bytes: &[u8]) -> Result<(), NoMemory> {
        lay(&mut self.made, bytes, self.pad)?;
        self.round.see();
        self.due = self.round.taking;
        Ok(())
    }

    fn end(&mut self, _alloc: Global, _input: u16) -> Result<(), NoMemory> {
        self.round.end();
        self.due = self.round.taking;
        Ok(())
    }

    fn end_all(&mut self) {}

    fn prime(&mut self, _primed: bool) {}

    #[inline(always)]
    fn next(&mut self, alloc: Global) -> Result<Option<Act>, NoMemory> {
        if self.due {
            self.due = false;
            let made = Rec::from_slice(alloc, &self.made)?;
            self.made.clear();
            return Ok(Some(Act::Write(0, Out::Fresh(made))));
        }
        match self.round.take() {
            Some(input) => Ok(Some(Act::Take(input))),
            None => Ok(None),
        }
    }

    #[inline(always)]
    fn goal(&self) -> Goal {
        self.round.goal()
    }

    #[inline(always)]
    fn looks(&self) -> bool {
        true
    }
}
