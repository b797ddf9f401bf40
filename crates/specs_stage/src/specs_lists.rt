ghost use Rattle.std.specs.Prelude.{◌≡◌, ◌==◌, not};
ghost use Rattle.pipe_model.specs.SpecsRows.{reads};

use crate::cycle::Cycle;
use pipe_model::{Item, Items, NoMemory, Rec};
use stage_steps::{Group, Lists, Order};
use std::alloc::Global;
use std::mem;

/// SPECS: what a cycle wrote is given with the last record of the cycle, and at the end of input what a cycle that waited
/// wrote, and then what the EOF list wrote. The records are moved out as they were made.
#[derive(Drop)]
pub struct SpecsLists {
    cycle: Cycle,
    /// What runs once at the end of input, where there is such a list.
    eof: Option<Items>,
    /// There is a READ among the items.
    has_read: bool,
    /// There was a fault before the end of input.
    was_faulty: bool,
    /// What is given, and how much of it was given already.
    due: Vec<Rec>,
    given: usize,
}

// Whether there is a READ among the items.
fn has_read(items: &[Item]) -> bool
    ensures { result ≡ not (reads items.now == 0) }
{
    for item in items {
        if let Item::Read = item {
            return true;
        }
    }
    false
}

impl SpecsLists {
    ghost use Rattle.std.specs.Prelude.{◌≡◌, ◌==◌, not, [], false};
    ghost use Rattle.pipe_model.specs.SpecsRows.{specs, reads};
    ghost use Rattle.specs_stage.specs.SpecsLists.{SpecsStand, order_by};

    // SPECS of these items and this EOF list, before the first record.
    pub(crate) fn new(alloc: Global, items: Vec<Item>, eof: Option<Items>) -> SpecsLists
        ensures stands { SpecsStand result false (specs items.items eof) [] [] }
        ensures reads { result.has_read ≡ not (reads items.items == 0) }
    {
        SpecsLists {
            has_read: has_read(&items),
            cycle: Cycle::new(alloc, items),
            eof,
            was_faulty: false,
            due: Vec::new(alloc),
            given: 0,
        }
    }

    // With READ a record is taken before the cycle that it ends is written.
    pub(crate) fn order(&self) -> Order
        ensures { result ≡ order_by self.now.has_read }
    {
        if self.has_read {
            Order::TakesFirst
        } else {
            Order::WritesFirst
        }
    }
}

impl Lists for SpecsLists {
    ghost use Rattle.specs_stage.specs.SpecsLists.{SpecsStand, specs_look, specs_made, specs_left};

    ghost stands = { SpecsStand };

    ghost is_looking = { specs_look };

    ghost made = { specs_made };

    ghost left = { specs_left };

    fn begin(&mut self) {}

    #[inline(never)]
    fn see(&mut self, alloc: Global, bytes: &[u8]) -> Result<(), NoMemory> {
        self.cycle.see(alloc, bytes)?;
        self.was_faulty = self.cycle.is_faulty();
        self.cycle.give(&mut self.due);
        self.given = 0;
        Ok(())
    }

    #[inline(never)]
    fn end(&mut self, alloc: Global) -> Result<(), NoMemory> {
        self.given = 0;
        self.cycle.end(alloc, &mut self.due)?;
        if let Some(eof) = &self.eof {
            self.cycle.run_eof(alloc, eof.as_slice(), &mut self.due)?;
        }
        Ok(())
    }

    #[inline(always)]
    fn next(&mut self, _alloc: Global) -> Result<Option<Group>, NoMemory> {
        if self.given < self.due.len() {
            self.given += 1;
            Ok(Some(Group::New(0)))
        } else {
            Ok(None)
        }
    }

    fn hand_over(&mut self, alloc: Global) -> Result<Rec, NoMemory> {
        let none = Rec::from_vec(Vec::new(alloc));
        let place = self.given.saturating_sub(1);
        if place < self.due.len() {
            Ok(mem::replace(&mut self.due[place], none))
        } else {
            Ok(none)
        }
    }

    #[inline(always)]
    fn is_spent(&self) -> bool {
        self.given >= self.due.len() && !self.stops()
    }

    #[inline(always)]
    fn halts(&self) -> bool {
        !self.has_read && self.was_faulty
    }

    #[inline(always)]
    fn stops(&self) -> bool {
        self.has_read && self.was_faulty
    }

    fn code(&self) -> i32 {
        if self.cycle.is_faulty() { 8 } else { 0 }
    }

    fn looks(&self) -> bool {
        true
    }
}
