ghost use Rattle.std.specs.Prelude.{◌≡◌, IfOk};
ghost use Rattle.edit_stages.specs.Groups.{is_full, Adds};

use pipe_model::{NoMemory, Rec, Times};
use stage_steps::{Group, Lists};
use std::alloc::Global;
use std::mem;

/// JOIN: groups of records, each in one record, with a string between.
#[derive(Drop)]
pub struct Joins {
    more: Times,
    between: Rec,
    /// The records of the group that hasn't ended, in one, in a buffer that is kept for the next; and how many they are.
    group: Vec<u8>,
    count: u64,
    /// The group that ended last.
    new: Rec,
    /// It is still to be given.
    due: bool,
}

// Whether so many records are a group.
#[inline(always)]
fn is_full(more: Times, count: u64) -> bool
    ensures { result ≡ is_full more count }
{
    match more {
        Times::Only(n) => count > u64::from(n),
        Times::All => false,
    }
}

// Adds one more record to so many.
fn add(group: &mut Vec<u8>, count: u64, between: &[u8], rec: &[u8]) -> Result<(), NoMemory>
    ensures { IfOk result (λ _. Adds between.now count rec.now group.old.items group.new.items) }
{
    if count > 0 {
        group.extend_from_slice(between)?;
    }
    group.extend_from_slice(rec)?;
    Ok(())
}

impl Joins {
    ghost use Rattle.std.specs.Prelude.{IfOk, false, []};
    ghost use Rattle.pipe_model.specs.EditingRows.{join};
    ghost use Rattle.edit_stages.specs.EditLists.{JoinsStand};

    // JOIN of so many more records than one, with this string between, before the first record.
    pub(crate) fn new(alloc: Global, more: Times, between: &Rec) -> Result<Joins, NoMemory>
        ensures { IfOk result (λ it. JoinsStand it false (join more between.now) [] []) }
    {
        Ok(Joins {
            more,
            between: between.copy(alloc)?,
            group: Vec::new(alloc),
            count: 0,
            new: Rec::from_vec(Vec::new(alloc)),
            due: false,
        })
    }
}

impl Lists for Joins {
    ghost use Rattle.edit_stages.specs.EditLists.{JoinsStand, joins_look, new_given, new_count};

    ghost stands = { JoinsStand };

    ghost is_looking = { joins_look };

    ghost made = { λ x. new_given x.due x.new };

    ghost left = { λ x. new_count x.due };

    fn begin(&mut self) {}

    fn see(&mut self, alloc: Global, bytes: &[u8]) -> Result<(), NoMemory> {
        add(&mut self.group, self.count, self.between.bytes(), bytes)?;
        self.count = self.count.saturating_add(1);
        if is_full(self.more, self.count) {
            self.new = Rec::from_slice(alloc, &self.group)?;
            self.group.clear();
            self.count = 0;
            self.due = true;
        }
        Ok(())
    }

    fn end(&mut self, alloc: Global) -> Result<(), NoMemory> {
        if self.count > 0 {
            let group = mem::replace(&mut self.group, Vec::new(alloc));
            self.new = Rec::from_vec(group);
            self.due = true;
        }
        Ok(())
    }

    fn next(&mut self, _alloc: Global) -> Result<Option<Group>, NoMemory> {
        if self.due {
            self.due = false;
            Ok(Some(Group::New(0)))
        } else {
            Ok(None)
        }
    }

    fn hand_over(&mut self, alloc: Global) -> Result<Rec, NoMemory> {
        Ok(mem::replace(&mut self.new, Rec::from_vec(Vec::new(alloc))))
    }

    #[inline(always)]
    fn is_spent(&self) -> bool {
        !self.due
    }

    fn halts(&self) -> bool {
        false
    }

    fn stops(&self) -> bool {
        false
    }

    fn code(&self) -> i32 {
        0
    }

    fn looks(&self) -> bool {
        true
    }
}
