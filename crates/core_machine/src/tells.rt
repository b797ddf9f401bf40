use crate::core_state::Core;
use pipe_model::{Entry, Net, NoMemory, Want};
use stage_steps::Stage;
use std::alloc::Global;

impl<S: Stage> Core<S> {
    ghost use Rattle.std.specs.Prelude.{◌≡◌, ◌<◌, ◌≤◌, ◌-◌, Some, None, true, false, length, slice_get, MatchOption, IfOk};
    ghost use Rattle.pipe_model.specs.declared.net.Strand.{Strand as StrandIs};
    ghost use Rattle.pipe_model.specs.Event.{Want as Wanted, has_seen_end};
    ghost use Rattle.pipe_model.specs.State.{past, strand_at, nothing_yet};
    ghost use Rattle.pipe_model.specs.Table.{form};
    ghost use Rattle.pipe_model.specs.WellFormed.{IsWellFormed};
    ghost use Rattle.stage_steps.specs.Coroutine.{kept_by};
    ghost use Rattle.core_machine.specs.Machine.{state_of, left_by, want_of as wanted, HasStopped, IsLawful};
    ghost use Rattle.core_machine.specs.Answered.{LeastStream, Shows, end_of as ending};

    /// The least stream on which a strand may have an event.
    pub fn ready_stream(&self, strand: u32) -> Option<u16>
        ensures { LeastStream self.now strand result }
    {
        self.floor.ready_stream(strand)
    }

    /// How many strands are out with a job.
    pub fn out_count(&self) -> u32
        ensures { result ≡ length self.now.out }
    {
        self.out.len() as u32
    }

    /// How many strands the net has, whether they are out or not.
    pub fn strand_count(&self) -> u32
        ensures count { result ≡ length self.now.net.strands }
        ensures formed { IsWellFormed self.now.net }
        ensures lawful { IsLawful self.now }
    {
        self.actors.len() as u32
    }

    /// Whether no strand is out and none may have an event. It asks every strand.
    pub fn is_complete(&self) -> bool
        ensures yes { result ≡ true → HasStopped self.now }
        ensures no { result ≡ false → ¬ HasStopped self.now }
    {
        if !self.out.is_empty() {
            return false;
        }
        let mut strand = 0;
        while strand < self.actors.len() as u32 {
            if self.floor.ready_stream(strand).is_some() {
                return false;
            }
            strand += 1;
        }
        true
    }

    /// The number of entries of the journal.
    pub fn len(&self) -> u64
        ensures length { result ≡ length self.now.journal }
        ensures lawful { IsLawful self.now }
    {
        self.journal.len()
    }

    /// The entry at a place of the journal, counted from 1.
    pub fn entry(&self, k: u64) -> Entry
        requires some { 0 < k }
        requires within { k ≤ length self.now.journal }
        ensures { slice_get self.now.journal (k - 1) ≡ Some result }
    {
        self.journal.entry(k)
    }

    /// The entries of the journal one by one.
    pub fn entries(&self, alloc: Global) -> Result<Vec<Entry>, NoMemory>
        ensures all { IfOk result (λ all. all.items ≡ self.now.journal) }
        ensures lawful { IsLawful self.now }
    {
        self.journal.entries(alloc)
    }

    /// What a strand wants, unless it is out or has ended. A new record that it writes is shown as an empty one.
    pub fn want_of(&self, strand: u32) -> Option<&Want>
        requires { strand < length self.now.net.strands }
        ensures { MatchOption result (wanted self.now strand ≡ None) (λ want. (w : Wanted) × (wanted self.now strand ≡ Some w) × Shows (past (state_of self.now) strand) want.now w) }
    {
        if self.floor.asks_nothing(strand) {
            return None;
        }
        let actor = self.actors.get(strand as usize)?;
        Some(&actor.asked)
    }

    /// The code with which a strand ended, once it has.
    pub fn end_of(&self, strand: u32) -> Option<i32>
        requires { strand < length self.now.net.strands }
        ensures { result ≡ ending self.now strand }
    {
        self.floor.end_of(strand)
    }

    /// Whether a strand has seen the end of input 0.
    pub fn saw_end(&self, strand: u32) -> bool
        requires { strand < length self.now.net.strands }
        ensures { result ≡ has_seen_end 0 (past (state_of self.now) strand) }
    {
        self.actors[strand as usize].saw_end
    }

    /// The text of the records that a strand took, where its stage keeps it, else nothing.
    pub fn kept(&self, strand: u32) -> &[u8]
        requires strand { strand < length self.now.net.strands }
        requires home { left_by self.now.journal self.now.out strand ≡ false }
        ensures { (p : StrandIs) → strand_at self.now.net nothing_yet strand ≡ Some p → result.now ≡ kept_by (form p).keeping (past (state_of self.now) strand) }
    {
        match &self.actors[strand as usize].stage {
            None => &[],
            Some(stage) => stage.kept(),
        }
    }

    /// The net that the core was started with.
    pub fn net(&self) -> &Net
        ensures { result.now ≡ self.now.net }
    {
        self.floor.net()
    }

    /// Whether a `finish` wanted memory.
    pub fn is_broken(&self) -> bool
        ensures { result ≡ self.now.is_broken }
    {
        self.is_broken
    }

    /// Gives up the core. All its records are given back: to be let go, it has to close its pool, which it may only do
    /// where no block is in use.
    pub fn drain(self) {}
}
