ghost use Rattle.std.specs.Prelude.{◌≡◌, map, IfOk};
ghost use Rattle.std.specs.List.{All};
ghost use Rattle.pipe_model.specs.OrderRows.{sorted};
ghost use Rattle.unique_sort.specs.Fronts.{IsKeyed, recs_in};

use crate::keyed::{Keyed, compared_keyed};
use pipe_model::{NoMemory, Rec, SortKey, SortKeys};
use stage_steps::{Group, Lists};
use std::alloc::Global;

// Sorts records by the keys in turn. Those of equal keys stay as they came.
fn sort(records: &mut Vec<Keyed>, keys: &[SortKey]) -> Result<(), NoMemory>
    ensures { IfOk result (λ _. All (IsKeyed keys.now) records.old.items → recs_in records.new.items ≡ sorted keys.now (recs_in records.old.items)) }
{
    records.sort_by(|rec, other| compared_keyed(keys, rec, other))?;
    Ok(())
}

// A copy of these keys.
fn copied(alloc: Global, keys: &[SortKey]) -> Result<SortKeys, NoMemory>
    ensures { IfOk result (λ it. it ≡ keys.now) }
{
    let mut copy = SortKeys::new(alloc);
    for key in keys {
        copy.push(*key)?;
    }
    Ok(copy)
}

/// SORT: it holds all records, and gives them in order at the end of input.
#[derive(Drop)]
pub struct Sorts {
    keys: SortKeys,
    /// The records as they came, and from the end of input on those that are still to be given, the last of them first.
    records: Vec<Keyed>,
    /// Input has ended.
    is_over: bool,
    /// The record that was given, until it is handed over.
    given: Option<Rec>,
}

impl Sorts {
    ghost use Rattle.std.specs.Prelude.{[], false, IfOk};
    ghost use Rattle.pipe_model.specs.OrderRows.{sort};
    ghost use Rattle.unique_sort.specs.SortLists.{SortsStand};

    // SORT by these keys, before the first record.
    pub(crate) fn new(alloc: Global, keys: &SortKeys) -> Result<Sorts, NoMemory>
        ensures { IfOk result (λ it. SortsStand it false (sort keys.now) [] []) }
    {
        Ok(Sorts {
            keys: copied(alloc, keys.as_slice())?,
            records: Vec::new(alloc),
            is_over: false,
            given: None,
        })
    }
}

impl Lists for Sorts {
    ghost use Rattle.std.specs.Prelude.{length};
    ghost use Rattle.unique_sort.specs.SortLists.{SortsStand, sorts_look};

    ghost stands = { SortsStand };

    ghost is_looking = { sorts_look };

    ghost made = { λ x. x.given };

    ghost left = { λ x. length x.records.items };

    fn begin(&mut self) {}

    // It is a call of its own, so that the loop that runs all stages stays short.
    #[inline(never)]
    fn see(&mut self, alloc: Global, bytes: &[u8]) -> Result<(), NoMemory> {
        let rec = Keyed::new(alloc, self.keys.as_slice(), bytes)?;
        self.records.push(rec)?;
        Ok(())
    }

    fn end(&mut self, _alloc: Global) -> Result<(), NoMemory> {
        sort(&mut self.records, self.keys.as_slice())?;
        self.records.reverse();
        self.is_over = true;
        Ok(())
    }

    #[inline(always)]
    fn next(&mut self, _alloc: Global) -> Result<Option<Group>, NoMemory> {
        if !self.is_over {
            return Ok(None);
        }
        match self.records.pop() {
            Some(keyed) => {
                self.given = Some(keyed.rec);
                Ok(Some(Group::New(0)))
            }
            None => Ok(None),
        }
    }

    fn hand_over(&mut self, alloc: Global) -> Result<Rec, NoMemory> {
        match self.given.take() {
            Some(rec) => Ok(rec),
            None => Ok(Rec::from_vec(Vec::new(alloc))),
        }
    }

    #[inline(always)]
    fn is_spent(&self) -> bool {
        !self.is_over
    }

    fn halts(&self) -> bool {
        false
    }

    fn stops(&self) -> bool {
        false
    }

    fn code(&self) -> i32 {
        0
    }

    fn looks(&self) -> bool {
        true
    }
}
