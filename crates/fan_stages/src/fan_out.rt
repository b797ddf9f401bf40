ghost use Rattle.std.specs.Prelude.{◌≡◌, ◌≤◌, ◌<◌, ◌+◌, ◌%◌, length, slice_get, IfOk};
ghost use Rattle.pipe_model.specs.FanRows.{connected_from};

use pipe_model::{NoMemory, Rec};
use stage_steps::{EachRecord, Group, take_waiting};
use std::alloc::Global;

// The numbers of the connected outputs, ascending.
fn connected(alloc: Global, outputs: &[bool]) -> Result<Vec<u16>, NoMemory>
    requires { length outputs.now ≤ 64 }
    ensures { IfOk result (λ numbers. numbers.items ≡ connected_from 0 outputs.now) }
{
    let mut numbers = Vec::new(alloc);
    for (output, is_connected) in outputs.iter().enumerate() {
        if *is_connected {
            numbers.push(output as u16)?;
        }
    }
    Ok(numbers)
}

/// FANOUT: each record on each connected output, in order.
#[derive(Drop)]
pub struct FansOut {
    /// The connected outputs, ascending.
    outputs: Vec<u16>,
    /// On how many of them the record at hand needn't be written any more.
    at: usize,
}

impl FansOut {
    ghost use Rattle.std.specs.Prelude.{◌≤◌, [], length, IfOk};
    ghost use Rattle.pipe_model.specs.FanRows.{fanning};
    ghost use Rattle.fan_stages.specs.FanOut.{FansOutStand};

    // FANOUT with these outputs, before the first record.
    pub(crate) fn new(alloc: Global, outputs: &[bool]) -> Result<FansOut, NoMemory>
        requires { length outputs.now ≤ 64 }
        ensures { IfOk result (λ it. FansOutStand it (fanning outputs.now).outs [] []) }
    {
        let outputs = connected(alloc, outputs)?;
        let at = outputs.len();
        Ok(FansOut { outputs, at })
    }
}

impl EachRecord for FansOut {
    ghost use Rattle.std.specs.Prelude.{◌-◌, length};
    ghost use Rattle.fan_stages.specs.FanOut.{FansOutStand, fans_out_look};

    ghost stands = { FansOutStand };

    ghost is_looking = { fans_out_look };

    ghost left = { λ x. length x.outputs.items - x.at };

    #[inline(always)]
    fn see(&mut self, _alloc: Global, _bytes: &[u8]) -> Result<(), NoMemory> {
        self.at = 0;
        Ok(())
    }

    #[inline(always)]
    fn next(&mut self) -> Option<Group> {
        let output = *self.outputs.get(self.at)?;
        self.at += 1;
        Some(Group::at_hand(output))
    }

    fn hand_over(&mut self, alloc: Global) -> Result<Rec, NoMemory> {
        Ok(Rec::from_vec(Vec::new(alloc)))
    }

    fn looks(&self) -> bool {
        false
    }
}

/// DEAL: the first record on the first connected output, the next one on the next, and around.
#[derive(Drop)]
pub struct Deals {
    /// The connected outputs, ascending.
    outputs: Vec<u16>,
    /// The place among them of the one whose turn is next.
    turn: usize,
    /// The output on which the record at hand is still to be written.
    waiting: Option<u16>,
}

// The output at a place, if there is one.
#[inline(always)]
fn output_at(outputs: &[u16], place: usize) -> Option<u16>
    ensures { result ≡ slice_get outputs.now place }
{
    outputs.get(place).copied()
}

// The place behind one of so many, and around.
#[inline(always)]
fn next_turn(place: usize, places: usize) -> usize
    ensures { place < places → result ≡ (place + 1) % places }
{
    let next = place.saturating_add(1);
    if next < places { next } else { 0 }
}

impl Deals {
    ghost use Rattle.std.specs.Prelude.{◌≤◌, [], length, IfOk};
    ghost use Rattle.pipe_model.specs.FanRows.{dealing};
    ghost use Rattle.fan_stages.specs.FanOut.{DealsStand};

    // DEAL with these outputs, before the first record.
    pub(crate) fn new(alloc: Global, outputs: &[bool]) -> Result<Deals, NoMemory>
        requires { length outputs.now ≤ 64 }
        ensures { IfOk result (λ it. DealsStand it (dealing outputs.now).outs [] []) }
    {
        Ok(Deals {
            outputs: connected(alloc, outputs)?,
            turn: 0,
            waiting: None,
        })
    }
}

impl EachRecord for Deals {
    ghost use Rattle.stage_steps.specs.Waiting.{how_many};
    ghost use Rattle.fan_stages.specs.FanOut.{DealsStand, deals_look};

    ghost stands = { DealsStand };

    ghost is_looking = { deals_look };

    ghost left = { λ x. how_many x.waiting };

    #[inline(always)]
    fn see(&mut self, _alloc: Global, _bytes: &[u8]) -> Result<(), NoMemory> {
        self.waiting = output_at(&self.outputs, self.turn);
        self.turn = next_turn(self.turn, self.outputs.len());
        Ok(())
    }

    #[inline(always)]
    fn next(&mut self) -> Option<Group> {
        take_waiting(&mut self.waiting)
    }

    fn hand_over(&mut self, alloc: Global) -> Result<Rec, NoMemory> {
        Ok(Rec::from_vec(Vec::new(alloc)))
    }

    fn looks(&self) -> bool {
        false
    }
}
