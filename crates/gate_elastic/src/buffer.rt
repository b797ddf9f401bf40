ghost use Rattle.std.specs.Prelude.{◌≡◌, ◌∷◌, [], ◌++◌, IfOk};

use pipe_model::{NoMemory, Rec};
use stage_steps::{Group, Lists};
use std::alloc::Global;
use std::collections::VecDeque;

/// BUFFER: all records, from the end of input on.
#[derive(Drop)]
pub struct Buffers {
    records: VecDeque<Rec>,
    /// The record that was given last, until it is handed over.
    gone: Option<Rec>,
    /// Input has ended.
    is_over: bool,
}

impl Buffers {
    ghost use Rattle.std.specs.Prelude.{[], false};
    ghost use Rattle.pipe_model.specs.DeviceRows.{buffer};
    ghost use Rattle.gate_elastic.specs.Buffers.{BuffersStand};

    // BUFFER before the first record.
    pub(crate) fn new(alloc: Global) -> Buffers
        ensures { BuffersStand result false buffer [] [] }
    {
        Buffers {
            records: VecDeque::new(alloc),
            gone: None,
            is_over: false,
        }
    }
}

// Adds a copy of a record to others.
fn add(records: &mut VecDeque<Rec>, alloc: Global, bytes: &[u8]) -> Result<(), NoMemory>
    ensures { IfOk result (λ done. records.new.items ≡ records.old.items ++ bytes.now ∷ []) }
{
    records.push_back(Rec::from_slice(alloc, bytes)?)?;
    Ok(())
}

impl Lists for Buffers {
    ghost use Rattle.gate_elastic.specs.Buffers.{BuffersStand, buffers_look, buffer_given, buffers_left};

    ghost stands = { BuffersStand };

    ghost is_looking = { buffers_look };

    ghost made = { buffer_given };

    ghost left = { buffers_left };

    fn begin(&mut self) {}

    fn see(&mut self, alloc: Global, bytes: &[u8]) -> Result<(), NoMemory> {
        add(&mut self.records, alloc, bytes)
    }

    fn end(&mut self, _alloc: Global) -> Result<(), NoMemory> {
        self.is_over = true;
        Ok(())
    }

    fn next(&mut self, _alloc: Global) -> Result<Option<Group>, NoMemory> {
        if !self.is_over {
            return Ok(None);
        }
        self.gone = self.records.pop_front();
        match &self.gone {
            Some(_) => Ok(Some(Group::New(0))),
            None => Ok(None),
        }
    }

    fn hand_over(&mut self, alloc: Global) -> Result<Rec, NoMemory> {
        match self.gone.take() {
            Some(rec) => Ok(rec),
            None => Ok(Rec::from_vec(Vec::new(alloc))),
        }
    }

    #[inline(always)]
    fn is_spent(&self) -> bool {
        !self.is_over
    }

    fn halts(&self) -> bool {
        false
    }

    fn stops(&self) -> bool {
        false
    }

    fn code(&self) -> i32 {
        0
    }

    fn looks(&self) -> bool {
        true
    }
}
