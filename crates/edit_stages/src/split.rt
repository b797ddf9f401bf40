ghost use Rattle.std.specs.Prelude.{◌≡◌};
ghost use Rattle.std.specs.List.{position_or_len};
ghost use Rattle.pipe_model.specs.EditingRows.{front_stripped};
ghost use Rattle.pipe_model.specs.Members.{has};
ghost use Rattle.edit_stages.specs.Runs.{IsFirstRun};

use crate::byte_set::ByteSet;
use crate::strip::front_stripped;
use pipe_model::{NoMemory, Rec, behind, front};
use stage_steps::{Each, EachRecord, Group};
use std::alloc::Global;

/// SPLIT: each longest run of bytes of the record that aren't in a set. A run is made when it is asked for.
#[derive(Drop)]
pub struct Splits {
    set: ByteSet,
    /// The record at hand, in a buffer that is kept for the next.
    rec: Vec<u8>,
    /// How many of its bytes are behind the runs that were given.
    at: usize,
    /// Where the run begins that was given last, and how many bytes it has.
    from: usize,
    size: usize,
}

// Where the first byte of the set stands, or the length.
fn run_len(set: &ByteSet, text: &[u8]) -> usize
    ensures { result ≡ position_or_len (has set.now) text.now }
{
    let mut at = 0;
    while at < text.len() {
        if set.has(text[at]) {
            return at;
        }
        at += 1;
    }
    at
}

// How many bytes of the set stand before the first run, and how long that is.
fn first_run(set: &ByteSet, text: &[u8]) -> Option<(usize, usize)>
    ensures { IsFirstRun set.now text.now result }
{
    let rest = front_stripped(set, text);
    if rest.is_empty() {
        return None;
    }
    Some((text.len() - rest.len(), run_len(set, rest)))
}

impl Splits {
    ghost use Rattle.std.specs.Prelude.{[], IfOk};
    ghost use Rattle.pipe_model.specs.EditingRows.{splits};
    ghost use Rattle.pipe_model.specs.Shape.Outs.{Pairs};
    ghost use Rattle.edit_stages.specs.EditLists.{SplitsStand};

    // SPLIT by this set, before the first record.
    pub(crate) fn lists(alloc: Global, set: &Rec) -> Result<Each<Splits>, NoMemory>
        ensures { IfOk result (λ it. SplitsStand it.each (Pairs (splits set.now)) [] []) }
    {
        Ok(Each {
            each: Splits {
                set: ByteSet::new(alloc, set)?,
                rec: Vec::new(alloc),
                at: 0,
                from: 0,
                size: 0,
            },
        })
    }
}

impl EachRecord for Splits {
    ghost use Rattle.std.specs.Prelude.{Some, ◌-◌, length};
    ghost use Rattle.edit_stages.specs.EditLists.{SplitsStand, splits_look, run_given};

    ghost stands = { SplitsStand };

    ghost is_looking = { splits_look };

    ghost made = { λ x. Some (run_given x) };

    ghost left = { λ x. length x.rec.items - x.at };

    fn see(&mut self, _alloc: Global, bytes: &[u8]) -> Result<(), NoMemory> {
        self.rec.clear();
        self.rec.extend_from_slice(bytes)?;
        self.at = 0;
        Ok(())
    }

    fn next(&mut self) -> Option<Group> {
        let (gap, size) = first_run(&self.set, behind(&self.rec, self.at))?;
        self.from = self.at + gap;
        self.size = size;
        self.at = self.from + size;
        Some(Group::New(0))
    }

    fn hand_over(&mut self, alloc: Global) -> Result<Rec, NoMemory> {
        Rec::from_slice(alloc, front(behind(&self.rec, self.from), self.size))
    }

    // Only bytes of the set may be left too; that is found when the next run is asked for.
    fn is_spent(&self) -> bool {
        self.at >= self.rec.len()
    }

    fn looks(&self) -> bool {
        true
    }
}
