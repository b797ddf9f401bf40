ghost use Rattle.std.specs.Prelude.{◌≡◌, ◌+◌, ◌<◌, ◌==◌, if◌then◌else◌, IfOk};
ghost use Rattle.collate_stage.specs.declared.lane.At.TheVariants.{Lacking, InSight, Ended};
ghost use Rattle.collate_stage.specs.declared.merge.Due.TheVariants.{Read, End};
ghost use Rattle.collate_stage.specs.Merging.{IsChanged, AreNew};

use crate::lane::{At, Lane};
use crate::queue::put_in;
use pipe_model::{NoMemory, Out, Range};
use stage_steps::{Act, Goal, Plans, part_of};
use std::alloc::Global;

/// What MERGE is to do next.
#[derive(Clone, Copy)]
pub enum Due {
    /// To write the record of its input, and then to take it.
    Write,
    /// To take the record of its input.
    Take,
    /// To read its input.
    Read,
    /// To end.
    End,
}

/// MERGE's plans: of the records in sight it writes the one with the least key, of those the one of the lowest input, and
/// reads that input again.
#[derive(Drop)]
pub struct Merge {
    range: Range,
    lanes: Vec<Lane>,
    /// The inputs with a record in sight but `input`, the one whose record goes first at the end. An input is put to its
    /// place by halves, so that a record costs few comparisons however many inputs there are.
    queue: Vec<u16>,
    count: u16,
    /// How many inputs were read so far: at the start each of them is read, and only then a record is written.
    opened: u16,
    /// The input that it reads, or whose record it writes and takes.
    input: u16,
    due: Due,
}

// A record with this key is in sight on an input.
#[inline(always)]
fn show_at(lanes: &mut Vec<Lane>, input: u16, key: &[u8]) -> Result<(), NoMemory>
    ensures { IfOk result (λ _. IsChanged lanes.old.items lanes.new.items input (λ lane. (lane.key.items ≡ key.now) × (lane.at ≡ InSight))) }
{
    if let Some(lane) = lanes.get_mut(input as usize) {
        lane.show(key)?;
    }
    Ok(())
}

// An input has ended.
fn end_at(lanes: &mut Vec<Lane>, input: u16)
    ensures { IsChanged lanes.old.items lanes.new.items input (λ lane. lane.at ≡ Ended) }
{
    if let Some(lane) = lanes.get_mut(input as usize) {
        lane.end();
    }
}

// The record of an input was taken.
#[inline(always)]
fn take_at(lanes: &mut Vec<Lane>, input: u16)
    ensures { IsChanged lanes.old.items lanes.new.items input (λ lane. lane.at ≡ Lacking) }
{
    if let Some(lane) = lanes.get_mut(input as usize) {
        lane.take();
    }
}

// How many inputs were read when this one was.
fn opened_after(input: u16, opened: u16, count: u16) -> u16
    ensures { input < count → result ≡ (if input == opened then opened + 1 else opened) }
{
    if input == opened && opened < count {
        opened + 1
    } else {
        opened
    }
}

// So many inputs that were never read.
fn new_lanes(alloc: Global, count: u16) -> Result<Vec<Lane>, NoMemory>
    ensures { IfOk result (λ lanes. AreNew lanes.items count) }
{
    let mut lanes = Vec::new(alloc);
    for _ in 0..count {
        lanes.push(Lane::new(alloc))?;
    }
    Ok(lanes)
}

// Where there is an input, it is read.
fn first_due(count: u16) -> Due
    ensures { result ≡ (if count == 0 then End else Read) }
{
    if count == 0 { Due::End } else { Due::Read }
}

impl Merge {
    ghost use Rattle.std.specs.Prelude.{◌≡◌, IfOk};
    ghost use Rattle.pipe_model.specs.JoiningRows.{merging};
    ghost use Rattle.pipe_model.specs.Next.{nothing_known};
    ghost use Rattle.pipe_model.specs.Shape.{round_plan};
    ghost use Rattle.collate_stage.specs.Merging.{GoesOn, MergeIs};

    // MERGE of so many inputs, before its first event.
    pub(crate) fn new(alloc: Global, range: Range, count: u16) -> Result<Merge, NoMemory>
        ensures { IfOk result (λ it. MergeIs it (round_plan count (merging range)) nothing_known (round_plan count (merging range) nothing_known)) }
    {
        let lanes = new_lanes(alloc, count)?;
        let queue = Vec::with_capacity(alloc, count as usize)?;
        Ok(Merge {
            range,
            lanes,
            queue,
            count,
            opened: 0,
            input: 0,
            due: first_due(count),
        })
    }

    // Plans when its input was heard.
    fn go_on(&mut self) -> Result<(), NoMemory>
        ensures range { self.new.range ≡ self.old.range }
        ensures lanes { self.new.lanes.items ≡ self.old.lanes.items }
        ensures count { self.new.count ≡ self.old.count }
        ensures plans { IfOk result (λ _. GoesOn self.old self.new) }
    {
        put_in(&self.lanes, &mut self.queue, self.input)?;
        self.opened = opened_after(self.input, self.opened, self.count);
        if self.opened < self.count {
            self.input = self.opened;
            self.due = Due::Read;
            return Ok(());
        }
        match self.queue.pop() {
            Some(input) => {
                self.input = input;
                self.due = Due::Write;
            }
            None => self.due = Due::End,
        }
        Ok(())
    }
}

impl Plans for Merge {
    ghost use Rattle.std.specs.Prelude.{true};
    ghost use Rattle.collate_stage.specs.Merging.{MergeIs, merge_left};

    ghost stands = { MergeIs };

    ghost is_looking = { λ _. true };

    ghost left = { merge_left };

    fn see(&mut self, _alloc: Global, input: u16, bytes: &[u8]) -> Result<(), NoMemory> {
        show_at(&mut self.lanes, input, part_of(self.range, bytes))?;
        self.go_on()
    }

    fn end(&mut self, _alloc: Global, input: u16) -> Result<(), NoMemory> {
        end_at(&mut self.lanes, input);
        self.go_on()
    }

    // It never looks at any input.
    fn end_all(&mut self) {}

    // It never waits for the first of its stage.
    fn prime(&mut self, _primed: bool) {}

    fn next(&mut self, _alloc: Global) -> Result<Option<Act>, NoMemory> {
        match self.due {
            Due::Write => {
                self.due = Due::Take;
                Ok(Some(Act::Write(0, Out::Same(self.input))))
            }
            Due::Take => {
                take_at(&mut self.lanes, self.input);
                self.due = Due::Read;
                Ok(Some(Act::Take(self.input)))
            }
            Due::Read | Due::End => Ok(None),
        }
    }

    fn goal(&self) -> Goal {
        match self.due {
            Due::End => Goal::End(0),
            _ => Goal::Read(self.input),
        }
    }

    fn looks(&self) -> bool {
        true
    }
}
