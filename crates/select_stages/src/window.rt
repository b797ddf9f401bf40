ghost use Rattle.std.specs.Prelude.{◌≡◌, ◌∷◌, [], ◌++◌, drop, option_to_list, IfOk};

use pipe_model::{NoMemory, Rec, Times};
use stage_steps::{Group, Lists};
use std::alloc::Global;
use std::collections::VecDeque;

/// What a window is still to give.
#[derive(Clone, Copy)]
enum Due {
    Nothing,
    /// The record at hand, which a window of no record lets pass.
    AtHand,
    /// The record that left it.
    Gone,
    /// At the end of input, the records in it.
    Rest,
}

/// TAKE LAST and DROP LAST: a window of the last records. The oldest leaves it where there would be too many, and at the
/// end of input those in it are given.
#[derive(Drop)]
pub struct Window {
    /// How many records it holds at most.
    times: Times,
    /// The output of a record that leaves it.
    leaving: u16,
    /// The output of those that are in it at the end of input.
    staying: u16,
    records: VecDeque<Rec>,
    /// The record that left it, until it is handed over.
    gone: Option<Rec>,
    due: Due,
}

impl Window {
    ghost use Rattle.std.specs.Prelude.{◌≡◌, false, [], length, option_map};
    ghost use Rattle.pipe_model.specs.Counts.{is_reached};
    ghost use Rattle.pipe_model.specs.SelectionRows.{window};
    ghost use Rattle.stage_steps.specs.declared.group.Group.TheVariants.{New};
    ghost use Rattle.select_stages.specs.Windows.{WindowStands};

    // A window of so many records, before the first.
    pub(crate) fn new(alloc: Global, times: Times, leaving: u16, staying: u16) -> Window
        ensures { WindowStands result false (window leaving staying times) [] [] }
    {
        Window {
            times,
            leaving,
            staying,
            records: VecDeque::new(alloc),
            gone: None,
            due: Due::Nothing,
        }
    }

    // Whether it holds as many records as it may.
    fn is_full(&self) -> bool
        ensures { result ≡ is_reached self.now.times (length self.now.records.items) }
    {
        match self.times {
            Times::Only(n) => n as usize <= self.records.len(),
            Times::All => false,
        }
    }

    // The record that left it as a group, if one did.
    #[inline(always)]
    fn gone_on(&self, output: u16) -> Option<Group>
        ensures { result ≡ option_map (λ rec. New output) self.now.gone }
    {
        match &self.gone {
            Some(_) => Some(Group::New(output)),
            None => None,
        }
    }
}

// Takes out the oldest of the records, if there is one.
#[inline(never)]
fn shift(records: &mut VecDeque<Rec>, gone: &mut Option<Rec>)
    ensures items { records.old.items ≡ option_to_list gone.new ++ records.new.items }
    ensures rest { records.new.items ≡ drop 1 records.old.items }
{
    *gone = records.pop_front();
}

// Adds a copy of a record to others.
fn add(records: &mut VecDeque<Rec>, alloc: Global, bytes: &[u8]) -> Result<(), NoMemory>
    ensures { IfOk result (λ done. records.new.items ≡ records.old.items ++ bytes.now ∷ []) }
{
    records.push_back(Rec::from_slice(alloc, bytes)?)?;
    Ok(())
}

impl Lists for Window {
    ghost use Rattle.select_stages.specs.Windows.{WindowStands, window_looks, window_made, window_left};

    ghost stands = { WindowStands };

    ghost is_looking = { window_looks };

    ghost made = { window_made };

    ghost left = { window_left };

    fn begin(&mut self) {}

    // What a window does is in calls of their own, so that the loop that runs all stages stays short.
    #[inline(never)]
    fn see(&mut self, alloc: Global, bytes: &[u8]) -> Result<(), NoMemory> {
        if !self.is_full() {
            self.due = Due::Nothing;
            return add(&mut self.records, alloc, bytes);
        }
        shift(&mut self.records, &mut self.gone);
        if self.gone.is_none() {
            self.due = Due::AtHand;
            return Ok(());
        }
        self.due = Due::Gone;
        add(&mut self.records, alloc, bytes)
    }

    fn end(&mut self, _alloc: Global) -> Result<(), NoMemory> {
        self.due = Due::Rest;
        Ok(())
    }

    #[inline(always)]
    fn next(&mut self, _alloc: Global) -> Result<Option<Group>, NoMemory> {
        match self.due {
            Due::Nothing => Ok(None),
            Due::AtHand => {
                self.due = Due::Nothing;
                Ok(Some(Group::at_hand(self.leaving)))
            }
            Due::Gone => {
                self.due = Due::Nothing;
                Ok(self.gone_on(self.leaving))
            }
            Due::Rest => {
                shift(&mut self.records, &mut self.gone);
                Ok(self.gone_on(self.staying))
            }
        }
    }

    fn hand_over(&mut self, alloc: Global) -> Result<Rec, NoMemory> {
        match self.gone.take() {
            Some(rec) => Ok(rec),
            None => Ok(Rec::from_vec(Vec::new(alloc))),
        }
    }

    #[inline(always)]
    fn is_spent(&self) -> bool {
        matches!(self.due, Due::Nothing)
    }

    #[inline(always)]
    fn only_output(&self) -> Option<u16> {
        match self.due {
            Due::AtHand | Due::Gone => Some(self.leaving),
            Due::Nothing | Due::Rest => None,
        }
    }

    #[inline(always)]
    fn halts(&self) -> bool {
        false
    }

    #[inline(always)]
    fn stops(&self) -> bool {
        false
    }

    #[inline(always)]
    fn code(&self) -> i32 {
        0
    }

    fn looks(&self) -> bool {
        true
    }
}
