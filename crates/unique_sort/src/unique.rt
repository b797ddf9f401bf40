ghost use Rattle.std.specs.Prelude.{◌≡◌, ◌++◌, if◌then◌else◌, IfOk};
ghost use Rattle.pipe_model.specs.Numbers.{in_ten_places};
ghost use Rattle.unique_sort.specs.Runs.{output_in};

use crate::run::Run;
use itoa::Buffer;
use pipe_model::{Keep, NoMemory, Range, Rec};
use stage_steps::{Each, EachRecord, Group, Lists, Sifted, take_waiting};
use std::alloc::Global;
use std::mem;

/// UNIQUE FIRST: the first record of each run on output 0, the others on output 1.
#[derive(Drop)]
pub struct Firsts {
    run: Run,
    /// The output on which the record at hand is still to be written.
    waiting: Option<u16>,
}

// The output of a record with which a run goes on or begins.
fn first_output(goes_on: bool) -> u16
    ensures { result ≡ (if goes_on then 1 else 0) }
{
    if goes_on { 1 } else { 0 }
}

impl Firsts {
    ghost use Rattle.std.specs.Prelude.{[], Bool};
    ghost use Rattle.pipe_model.specs.declared.kind.Keep.TheVariants.{First};
    ghost use Rattle.pipe_model.specs.OrderRows.{unique};
    ghost use Rattle.unique_sort.specs.UniqueLists.{FirstsStand};

    // UNIQUE FIRST by this range, before the first record.
    pub(crate) fn lists(alloc: Global, range: Range) -> Each<Firsts>
        ensures { (count : Bool) → FirstsStand result.each (unique count range First).outs [] [] }
    {
        Each {
            each: Firsts {
                run: Run::new(alloc, range),
                waiting: None,
            },
        }
    }
}

impl EachRecord for Firsts {
    ghost use Rattle.stage_steps.specs.Waiting.{how_many};
    ghost use Rattle.unique_sort.specs.UniqueLists.{FirstsStand, firsts_look};

    ghost stands = { FirstsStand };

    ghost is_looking = { firsts_look };

    ghost left = { λ x. how_many x.waiting };

    fn see(&mut self, _alloc: Global, bytes: &[u8]) -> Result<(), NoMemory> {
        let goes_on = self.run.add(bytes)?;
        self.waiting = Some(first_output(goes_on));
        Ok(())
    }

    #[inline(always)]
    fn sift(&mut self, _alloc: Global, bytes: &[u8]) -> Result<Sifted, NoMemory> {
        let goes_on = self.run.add(bytes)?;
        self.waiting = None;
        Ok(Sifted::Passes(first_output(goes_on)))
    }

    fn next(&mut self) -> Option<Group> {
        take_waiting(&mut self.waiting)
    }

    fn hand_over(&mut self, alloc: Global) -> Result<Rec, NoMemory> {
        Ok(Rec::from_vec(Vec::new(alloc)))
    }

    #[inline(always)]
    fn is_spent(&self) -> bool {
        self.waiting.is_none()
    }

    fn looks(&self) -> bool {
        true
    }
}

// The output of the k-th record of a run, which ends with it or doesn't.
fn output_in(keep: Keep, k: u64, ends: bool) -> u16
    ensures { result ≡ output_in keep k ends }
{
    let is_zero = match keep {
        Keep::First => k == 1,
        Keep::Last => ends,
        Keep::Singles => ends && k == 1,
        Keep::Multiple => !(ends && k == 1),
    };
    if is_zero { 0 } else { 1 }
}

// The record with a number before it, in ten places or more.
fn numbered(alloc: Global, number: u64, rec: &[u8]) -> Result<Rec, NoMemory>
    ensures { IfOk result (λ it. it ≡ in_ten_places number ++ rec.now) }
{
    let mut buffer = Buffer::new();
    let digits = buffer.format(number).as_bytes();
    let mut bytes = Vec::new(alloc);
    bytes.resize(10usize.saturating_sub(digits.len()), b' ')?;
    bytes.extend_from_slice(digits)?;
    bytes.extend_from_slice(rec)?;
    Ok(Rec::from_vec(bytes))
}

/// UNIQUE LAST, SINGLES and MULTIPLE: each record is written when the next one was taken, or at the end of input.
#[derive(Drop)]
pub struct Holds {
    /// The number of the records of a run stands before the one that is kept of it.
    is_counting: bool,
    keep: Keep,
    run: Run,
    /// The last record of the run.
    last: Rec,
    /// The record that is due, or was last.
    new: Rec,
    /// The output on which it is still to be written.
    due: Option<u16>,
}

impl Holds {
    ghost use Rattle.std.specs.Prelude.{◌≡◌, [], false, IfOk};
    ghost use Rattle.unique_sort.specs.Runs.{written_in};
    ghost use Rattle.unique_sort.specs.UniqueLists.{held, HoldsStand};

    // UNIQUE by this range, before the first record.
    pub(crate) fn new(alloc: Global, is_counting: bool, range: Range, keep: Keep) -> Holds
        ensures { HoldsStand result false (held is_counting range keep) [] [] }
    {
        Holds {
            is_counting,
            keep,
            run: Run::new(alloc, range),
            last: Rec::from_vec(Vec::new(alloc)),
            new: Rec::from_vec(Vec::new(alloc)),
            due: None,
        }
    }

    // What is written of a record, which is the k-th of its run: the run ends with it or doesn't.
    fn written(&self, alloc: Global, rec: Rec, k: u64, ends: bool) -> Result<Rec, NoMemory>
        ensures { IfOk result (λ it. it ≡ written_in self.now.is_counting self.now.keep k ends rec) }
    {
        match self.keep {
            Keep::Last if ends && self.is_counting => numbered(alloc, k, rec.bytes()),
            _ => Ok(rec),
        }
    }
}

impl Lists for Holds {
    ghost use Rattle.stage_steps.specs.Waiting.{how_many};
    ghost use Rattle.unique_sort.specs.UniqueLists.{HoldsStand, holds_look, holds_made};

    ghost stands = { HoldsStand };

    ghost is_looking = { holds_look };

    ghost made = { holds_made };

    ghost left = { λ x. how_many x.due };

    fn begin(&mut self) {}

    // It is a call of its own, so that the loop that runs all stages stays short.
    #[inline(never)]
    fn see(&mut self, alloc: Global, bytes: &[u8]) -> Result<(), NoMemory> {
        let next = Rec::from_slice(alloc, bytes)?;
        let k = self.run.count();
        let goes_on = self.run.add(bytes)?;
        let rec = mem::replace(&mut self.last, next);
        if k > 0 {
            self.new = self.written(alloc, rec, k, !goes_on)?;
            self.due = Some(output_in(self.keep, k, !goes_on));
        }
        Ok(())
    }

    fn end(&mut self, alloc: Global) -> Result<(), NoMemory> {
        let k = self.run.count();
        if k > 0 {
            let rec = mem::replace(&mut self.last, Rec::from_vec(Vec::new(alloc)));
            self.new = self.written(alloc, rec, k, true)?;
            self.due = Some(output_in(self.keep, k, true));
        }
        Ok(())
    }

    fn next(&mut self, _alloc: Global) -> Result<Option<Group>, NoMemory> {
        match self.due.take() {
            Some(output) => Ok(Some(Group::New(output))),
            None => Ok(None),
        }
    }

    fn hand_over(&mut self, alloc: Global) -> Result<Rec, NoMemory> {
        Ok(mem::replace(&mut self.new, Rec::from_vec(Vec::new(alloc))))
    }

    #[inline(always)]
    fn is_spent(&self) -> bool {
        self.due.is_none()
    }

    #[inline(always)]
    fn only_output(&self) -> Option<u16> {
        self.due
    }

    fn halts(&self) -> bool {
        false
    }

    fn stops(&self) -> bool {
        false
    }

    fn code(&self) -> i32 {
        0
    }

    fn looks(&self) -> bool {
        true
    }
}
