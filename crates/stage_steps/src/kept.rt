ghost use Rattle.std.specs.Prelude.{◌≡◌, if◌then◌else◌, IfOk, [], Some, None, vec_len};
ghost use Rattle.std.specs.Option.{option_map};
ghost use Rattle.stage_steps.specs.Kept.{kept_after, nothing_kept};

use pipe_model::{NoMemory, Seen};
use std::alloc::Global;
use std::marker::Model;

/// The text of the records that a stage took, and behind it that of the record which it saw and hasn't taken.
#[derive(Drop)]
pub(crate) struct Kept {
    bytes: Vec<u8>,
    taken: usize,
}

impl Model for Kept {
    ghost use Rattle.std.specs.Prelude.{◌≤◌, vec_len, take};
    ghost use Rattle.stage_steps.specs.KeptText.{KeptText};

    ghost Value = { KeptText };

    ghost view = { λ kept. record { all = kept.bytes.items; taken = take kept.taken kept.bytes.items } };

    ghost invariant = { λ kept. kept.taken ≤ vec_len kept.bytes };
}

impl Kept {
    pub(crate) fn new(alloc: Global) -> Kept
        ensures { result ≡ nothing_kept }
    {
        Kept {
            bytes: Vec::new(alloc),
            taken: 0,
        }
    }

    // Adds a record that is seen.
    #[inline(always)]
    fn add(&mut self, bytes: &[u8]) -> Result<(), NoMemory>
        ensures { IfOk result (λ _. self.new ≡ kept_after (Seen.Saw 0) bytes.now self.old) }
    {
        self.bytes.extend_from_slice(bytes)?;
        self.bytes.push(b'\n')?;
        Ok(())
    }

    // Counts all records that were seen as taken.
    #[inline(always)]
    fn take_all(&mut self)
        ensures { self.new ≡ kept_after (Seen.Took 0) [] self.old }
    {
        self.taken = self.bytes.len();
    }

    // The text of the records that were taken.
    pub(crate) fn text(&self) -> &[u8]
        ensures { result.now ≡ self.now.taken }
    {
        &self.bytes[..self.taken]
    }
}

// Nothing kept yet, where something is to be.
pub(crate) fn kept_if(alloc: Global, keeps: bool) -> Option<Kept>
    ensures { result ≡ (if keeps then Some nothing_kept else None) }
{
    if keeps { Some(Kept::new(alloc)) } else { None }
}

// What is kept when a record was taken, where something is.
#[inline(always)]
pub(crate) fn note_taken(kept: &mut Option<Kept>)
    ensures { kept.new ≡ option_map (kept_after (Seen.Took 0) []) kept.old }
{
    if let Some(kept) = kept {
        kept.take_all();
    }
}

// What is kept when a record is seen, where something is.
#[inline(always)]
pub(crate) fn note_seen(kept: &mut Option<Kept>, bytes: &[u8]) -> Result<(), NoMemory>
    ensures { IfOk result (λ _. kept.new ≡ option_map (kept_after (Seen.Saw 0) bytes.now) kept.old) }
{
    match kept {
        Some(kept) => kept.add(bytes),
        None => Ok(()),
    }
}

// What is kept after an event, where something is.
#[inline(always)]
pub(crate) fn note_kept(kept: &mut Option<Kept>, seen: Seen, bytes: &[u8]) -> Result<(), NoMemory>
    ensures { IfOk result (λ _. kept.new ≡ option_map (kept_after seen bytes.now) kept.old) }
{
    match seen {
        Seen::Saw(_) => note_seen(kept, bytes),
        Seen::Took(_) => {
            note_taken(kept);
            Ok(())
        }
        _ => Ok(()),
    }
}
