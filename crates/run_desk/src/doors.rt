ghost use Rattle.std.specs.Prelude.{◌≡◌, ◌<◌, length, slice_get, Some};
ghost use Rattle.std.specs.List.{list_all};
ghost use Rattle.run_desk.specs.Telling as Telling;

use crate::looks::{is_over, shows};
use connectors::Wire;
use std::marker::Model;

/// The numbers of the links at a strand's inputs and outputs, the first strand of its stage, and the number of the sight
/// of its first input, which those of the others follow.
#[derive(Drop)]
pub struct Doors {
    pub(crate) inputs: Vec<Option<u32>>,
    pub(crate) outputs: Vec<Option<u32>>,
    pub(crate) first: u32,
    pub(crate) first_sight: u32,
}

impl Model for Doors {
    ghost use Rattle.std.specs.Prelude.{◌<◌, length};
    ghost use Rattle.run_desk.specs.Desk.{DoorsState};

    ghost Value = { DoorsState };

    ghost view = { λ doors. record { inputs = doors.inputs.items; outputs = doors.outputs.items; first = doors.first; first_sight = doors.first_sight } };

    ghost invariant = { λ doors. length doors.inputs.items < 65536 };
}

impl Doors {
    /// The doors of a strand, which takes no memory.
    pub fn new(
        inputs: Vec<Option<u32>>,
        outputs: Vec<Option<u32>>,
        first: u32,
        first_sight: u32,
    ) -> Doors
        requires { length inputs.items < 65536 }
        ensures { result ≡ record { inputs = inputs.items; outputs = outputs.items; first = first; first_sight = first_sight } }
    {
        Doors {
            inputs,
            outputs,
            first,
            first_sight,
        }
    }

    pub(crate) fn input(&self, i: u16) -> Option<u32>
        ensures { result ≡ Telling.joined (slice_get self.now.inputs i) }
    {
        self.inputs.get(i as usize).copied()?
    }

    pub(crate) fn output(&self, o: u16) -> Option<u32>
        ensures { result ≡ Telling.joined (slice_get self.now.outputs o) }
    {
        self.outputs.get(o as usize).copied()?
    }

    // The number of the sight of an input.
    pub(crate) fn sight(&self, i: u16) -> Option<usize>
        ensures { result ≡ Telling.joined (slice_get (Telling.sights_of (Some self.now)) i) }
    {
        if (i as usize) < self.inputs.len() {
            Some(self.first_sight as usize + i as usize)
        } else {
            None
        }
    }

    pub(crate) fn input_count(&self) -> u16
        ensures { result ≡ length self.now.inputs }
    {
        self.inputs.len() as u16
    }

    pub(crate) fn first(&self) -> u32
        ensures { result ≡ self.now.first }
    {
        self.first
    }

    // Whether nothing will come any more on any input.
    pub(crate) fn all_over(&self, wires: &[Wire]) -> bool
        ensures { result ≡ list_all (λ door. Telling.is_over (Telling.through wires.now door)) self.now.inputs }
    {
        self.inputs.iter().all(|door| is_over(wires, *door))
    }

    // The least input behind the first at which a record is at hand.
    #[inline(always)]
    pub(crate) fn first_shown(&self, wires: &[Wire]) -> Option<u16>
        requires { Telling.LeadBelow (length wires.now) self.now.inputs }
        ensures { Telling.IsFirstShown wires.now self.now.inputs result }
    {
        let mut k = 1;
        while k < self.inputs.len() {
            if shows(wires, self.inputs[k]) {
                return Some(k as u16);
            }
            k += 1;
        }
        None
    }

    pub(crate) fn inputs(&self) -> &[Option<u32>]
        ensures { result.now ≡ self.now.inputs }
    {
        &self.inputs
    }

    pub(crate) fn outputs(&self) -> &[Option<u32>]
        ensures { result.now ≡ self.now.outputs }
    {
        &self.outputs
    }
}
