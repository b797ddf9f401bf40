ghost use Rattle.std.specs.Prelude.{◌≡◌, ◌<◌, ◌≤◌, ◌++◌, ◌∷◌, [], drop, length, List, ℕ, IfOk, OnOk, Some, false, is_none, not, ◌&&◌, ◌==◌};
ghost use Rattle.pipe_model.specs.Shape.{Records};
ghost use Rattle.pipe_model.specs.Counts.{all_on};
ghost use Rattle.pipe_model.specs.SpecsRows.{cycle, cycle_pairs, waiting_pairs, so_far, after_input, written_by};
ghost use Rattle.pipe_model.specs.declared.items.Item.{Item};
ghost use Rattle.specs_stage.specs.Cycles.{IsCycle, IsCycleAfter, IsEnded, IsReached};

use crate::desk::Desk;
use pipe_model::{Item, NoMemory, Rec};
use std::alloc::Global;

// The cycles of a SPECS, record by record.
#[derive(Drop)]
pub struct Cycle {
    items: Vec<Item>,
    desk: Desk,
    // Where the next record goes on: behind a READ, or at the front with the next cycle.
    at: usize,
    // There was a fault, and nothing is done any more.
    is_faulty: bool,
}

// The items from a place on.
fn items_from(items: &[Item], at: usize) -> &[Item]
    ensures { result.now ≡ drop at items.now }
{
    if at < items.len() { &items[at..] } else { &[] }
}

impl Cycle {
    // Before the first record.
    pub(crate) fn new(alloc: Global, items: Vec<Item>) -> Cycle
        ensures items { result.items.items ≡ items.items }
        ensures at { IsCycle result [] }
    {
        Cycle {
            items,
            desk: Desk::new(alloc),
            at: 0,
            is_faulty: false,
        }
    }

    // Goes on with a record, and tells the place that is reached: None is a fault.
    fn go_on(&mut self, alloc: Global, rec: &[u8]) -> Result<Option<usize>, NoMemory>
        ensures items { self.new.items.items ≡ self.old.items.items }
        ensures faulty { self.new.is_faulty ≡ self.old.is_faulty }
        ensures reached { IfOk result (λ at. self.old.is_faulty ≡ false → (recs wrote : Records) → length recs < 50000000 → IsCycleAfter self.old wrote recs → IsReached self.old.items.items recs rec.now self.new.desk at) }
    {
        if self.at == 0 {
            return self.desk.start(alloc, &self.items, rec);
        }
        match self.desk.run(alloc, items_from(&self.items, self.at), rec)? {
            Some(count) => Ok(Some(self.at.saturating_add(count))),
            None => Ok(None),
        }
    }

    // Is at a place that was reached: there it waits for a record, or the cycle ends.
    fn reach(&mut self, alloc: Global, at: usize) -> Result<(), NoMemory>
        ensures items { OnOk result (self.new.items.items ≡ self.old.items.items) }
        ensures at { OnOk result (self.old.is_faulty ≡ false → (recs : Records) (rec : List ℕ) → IsReached self.old.items.items recs rec self.old.desk (Some at) → IsCycle self.new (recs ++ rec ∷ [])) }
    {
        if at < self.items.len() {
            self.at = at + 1;
            return Ok(());
        }
        self.desk.close(alloc, &self.items)?;
        self.at = 0;
        Ok(())
    }

    // Goes on with one more record.
    pub(crate) fn see(&mut self, alloc: Global, rec: &[u8]) -> Result<(), NoMemory>
        ensures items { OnOk result (self.new.items.items ≡ self.old.items.items) }
        ensures at { OnOk result ((recs wrote : Records) → length recs < 50000000 → IsCycleAfter self.old wrote recs → IsCycle self.new (recs ++ rec.now ∷ [])) }
    {
        if self.is_faulty {
            return Ok(());
        }
        match self.go_on(alloc, rec)? {
            None => {
                self.is_faulty = true;
                Ok(())
            }
            Some(at) => self.reach(alloc, at),
        }
    }

    // Whether there was a fault.
    pub(crate) fn is_faulty(&self) -> bool
        ensures value { result ≡ self.now.is_faulty }
        ensures told { (recs wrote : Records) → IsCycleAfter self.now wrote recs → result ≡ is_none (so_far self.now.items.items recs) }
    {
        self.is_faulty
    }

    // Whether a cycle ended with the record that came last, and without a fault.
    fn has_ended(&self) -> bool
        ensures { result ≡ (not self.now.is_faulty && self.now.at == 0) }
    {
        !self.is_faulty && self.at == 0
    }

    // Gives away what is written with the record that came last, where a cycle ends with it.
    pub(crate) fn give(&mut self, due: &mut Vec<Rec>)
        ensures items { self.new.items.items ≡ self.old.items.items }
        ensures due { (recs : Records) → IsCycle self.old recs → all_on 0 due.new.items ≡ cycle_pairs self.old.items.items recs }
        ensures at { (recs : Records) → IsCycle self.old recs → IsCycleAfter self.new self.old.desk.written.items recs }
    {
        due.clear();
        if self.has_ended() {
            self.desk.give(due);
        }
    }

    // Ends the input: a cycle that waits is run on, with empty records for those that lack, and gives away what it wrote.
    pub(crate) fn end(&mut self, alloc: Global, due: &mut Vec<Rec>) -> Result<(), NoMemory>
        ensures items { OnOk result (self.new.items.items ≡ self.old.items.items) }
        ensures ended { OnOk result ((recs wrote : Records) → IsCycleAfter self.old wrote recs → IsEnded self.new.items.items self.new.desk self.new.is_faulty recs) }
        ensures due { OnOk result ((recs wrote : Records) → IsCycleAfter self.old wrote recs → all_on 0 due.new.items ≡ waiting_pairs self.old.items.items recs) }
    {
        due.clear();
        if self.is_faulty {
            return Ok(());
        }
        if self.at == 0 {
            return Ok(());
        }
        if self
            .desk
            .run_to_end(alloc, items_from(&self.items, self.at))?
        {
            self.desk.close(alloc, &self.items)?;
            self.desk.give(due);
        } else {
            self.is_faulty = true;
        }
        Ok(())
    }

    // Behind the end of input: the EOF list is run, as one more cycle with an empty record. What it wrote is given away
    // behind what is due.
    pub(crate) fn run_eof(
        &mut self,
        alloc: Global,
        eof: &[Item],
        due: &mut Vec<Rec>,
    ) -> Result<(), NoMemory>
        ensures items { OnOk result (self.new.items.items ≡ self.old.items.items) }
        ensures faulty { OnOk result ((items : List Item) (recs : Records) → length recs ≤ 50000000 → IsEnded items self.old.desk self.old.is_faulty recs → self.new.is_faulty ≡ is_none (cycle eof.now (after_input items recs) [])) }
        ensures due { OnOk result ((items : List Item) (recs : Records) → length recs ≤ 50000000 → IsEnded items self.old.desk self.old.is_faulty recs → all_on 0 due.new.items ≡ all_on 0 due.old.items ++ all_on 0 (written_by (cycle eof.now (after_input items recs) []))) }
    {
        if self.is_faulty {
            return Ok(());
        }
        self.desk.begin();
        if self.desk.run_to_end(alloc, eof)? {
            self.desk.close(alloc, eof)?;
            self.desk.give_behind(due)?;
        } else {
            self.is_faulty = true;
        }
        Ok(())
    }
}
