ghost use Rattle.std.specs.Prelude.{◌≡◌, map, IfOk};
ghost use Rattle.unique_sort.specs.Counting.{added_by, tally_with, fresh_tally, sums_line};

use crate::word_count::word_count;
use itoa::Buffer;
use pipe_model::{NoMemory, Rec, Total, Totals};
use stage_steps::{Group, Lists};
use std::alloc::Global;
use std::mem;

/// One of the totals of a COUNT, with what was counted so far. No records make 128 bits overflow.
#[derive(Clone, Copy)]
struct Tally {
    total: Total,
    sum: u128,
}

/// COUNT: the totals of all records, in one record at the end of input.
#[derive(Drop)]
pub struct Counts {
    tallies: Vec<Tally>,
    /// The record of the totals, from the end of input on.
    new: Rec,
    /// It is still to be given.
    due: bool,
}

// What a record adds to a total.
#[inline(always)]
fn added_by(rec: &[u8], total: Total) -> u128
    ensures { result ≡ added_by rec.now total }
{
    match total {
        Total::Lines => 1,
        Total::Words => word_count(rec) as u128,
        Total::Bytes => rec.len() as u128,
    }
}

// Adds to each tally what a record adds to it.
#[inline(always)]
fn add(tallies: &mut Vec<Tally>, rec: &[u8])
    ensures { tallies.new.items ≡ map (tally_with rec.now) tallies.old.items }
{
    for tally in tallies.iter_mut() {
        tally.sum = tally.sum.saturating_add(added_by(rec, tally.total));
    }
}

// The tallies of these totals, before the first record.
fn fresh_tallies(alloc: Global, totals: &[Total]) -> Result<Vec<Tally>, NoMemory>
    ensures { IfOk result (λ tallies. tallies.items ≡ map fresh_tally totals.now) }
{
    let mut tallies = Vec::new(alloc);
    for total in totals {
        tallies.push(Tally {
            total: *total,
            sum: 0,
        })?;
    }
    Ok(tallies)
}

// The sums in decimal, one blank between.
fn sums_line(alloc: Global, tallies: &[Tally]) -> Result<Rec, NoMemory>
    ensures { IfOk result (λ rec. rec ≡ sums_line tallies.now) }
{
    let mut buffer = Buffer::new();
    let mut line = Vec::new(alloc);
    for (k, tally) in tallies.iter().enumerate() {
        if k > 0 {
            line.push(b' ')?;
        }
        line.extend_from_slice(buffer.format(tally.sum).as_bytes())?;
    }
    Ok(Rec::from_vec(line))
}

impl Counts {
    ghost use Rattle.std.specs.Prelude.{[], false, IfOk};
    ghost use Rattle.pipe_model.specs.OrderRows.{count};
    ghost use Rattle.unique_sort.specs.Counting.{CountsStand};

    // COUNT of these totals, before the first record.
    pub(crate) fn new(alloc: Global, totals: &Totals) -> Result<Counts, NoMemory>
        ensures { IfOk result (λ it. CountsStand it false (count totals.now) [] []) }
    {
        Ok(Counts {
            tallies: fresh_tallies(alloc, totals.as_slice())?,
            new: Rec::from_vec(Vec::new(alloc)),
            due: false,
        })
    }
}

impl Lists for Counts {
    ghost use Rattle.unique_sort.specs.Counting.{CountsStand, counts_look, counts_made, due_count};

    ghost stands = { CountsStand };

    ghost is_looking = { counts_look };

    ghost made = { counts_made };

    ghost left = { λ x. due_count x.due };

    fn begin(&mut self) {}

    fn see(&mut self, _alloc: Global, bytes: &[u8]) -> Result<(), NoMemory> {
        add(&mut self.tallies, bytes);
        Ok(())
    }

    fn end(&mut self, alloc: Global) -> Result<(), NoMemory> {
        self.new = sums_line(alloc, self.tallies.as_slice())?;
        self.due = true;
        Ok(())
    }

    fn next(&mut self, _alloc: Global) -> Result<Option<Group>, NoMemory> {
        if self.due {
            self.due = false;
            Ok(Some(Group::New(0)))
        } else {
            Ok(None)
        }
    }

    fn hand_over(&mut self, alloc: Global) -> Result<Rec, NoMemory> {
        Ok(mem::replace(&mut self.new, Rec::from_vec(Vec::new(alloc))))
    }

    #[inline(always)]
    fn is_spent(&self) -> bool {
        !self.due
    }

    fn halts(&self) -> bool {
        false
    }

    fn stops(&self) -> bool {
        false
    }

    fn code(&self) -> i32 {
        0
    }

    fn looks(&self) -> bool {
        true
    }
}
