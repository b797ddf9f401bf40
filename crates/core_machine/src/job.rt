ghost use Rattle.std.specs.Prelude.{◌≡◌, IfOk};
ghost use Rattle.stage_steps.specs.Coroutine.{CanResume, Resumes};

use pipe_model::{NoMemory, Seen, Want};
use stage_steps::Stage;
use std::alloc::Global;
use std::marker::Model;

/// A coroutine that is out, to be told an event.
#[derive(Drop)]
pub struct Job<S: Stage> {
    pub(crate) strand: u32,
    pub(crate) place: u64,
    pub(crate) seen: Seen,
    pub(crate) stage: S,
}

impl<S: Stage> Model for Job<S> {
    ghost use Rattle.core_machine.specs.Jobs.{JobState};

    ghost Value = { JobState S };

    ghost view = { λ job. record { strand = job.strand; place = job.place; seen = job.seen; stage = job.stage } };
}

/// A coroutine that was told an event, with what it asks for then.
#[derive(Drop)]
pub struct Finished<S: Stage> {
    pub(crate) strand: u32,
    pub(crate) place: u64,
    pub(crate) seen: Seen,
    pub(crate) stage: S,
    pub(crate) want: Result<Want, NoMemory>,
    /// Whether the coroutine passes on the record that it saw.
    pub(crate) passes: bool,
}

impl<S: Stage> Model for Finished<S> {
    ghost use Rattle.std.specs.Prelude.{◌≡◌, true};
    ghost use Rattle.stage_steps.specs.PassesOn.{PassesOn};
    ghost use Rattle.core_machine.specs.Jobs.{FinishedState};

    ghost Value = { FinishedState S };

    ghost view = { λ done. record { strand = done.strand; place = done.place; seen = done.seen; stage = done.stage; want = done.want } };

    ghost invariant = { λ done. done.passes ≡ true → PassesOn S.stands done.stage };
}

/// The answer of a turn.
#[derive(Drop)]
pub enum Turned<S: Stage> {
    /// An earlier `finish` wanted memory.
    Broken,
    /// The strand is out, or may have no event on that stream.
    NotReady,
    /// The journal has as many entries as the budget allows.
    Spent,
    /// The record that the strand would see has this many bytes, and the room holds fewer.
    Room(usize),
    Work(Job<S>),
}

/// How a run ended.
#[derive(Clone, Copy, Debug, PartialEq, Eq)]
pub enum RunEnd {
    /// No strand may have an event.
    Complete,
    /// The journal has as many entries as the budget allows, and a strand may have an event.
    Spent,
}

impl<S: Stage> Job<S> {
    ghost use Rattle.std.specs.Prelude.{◌≡◌, IfOk};
    ghost use Rattle.stage_steps.specs.Coroutine.{CanResume, Resumes};

    /// Goes on with the coroutine. `bytes` is the record where the job saw one and the strand looks, else empty. It may
    /// be done on any thread.
    pub fn run(self, alloc: Global, bytes: &[u8]) -> Finished<S>
        requires { CanResume S.stands self.stage self.seen bytes.now }
        ensures strand { result.strand ≡ self.strand }
        ensures place { result.place ≡ self.place }
        ensures seen { result.seen ≡ self.seen }
        ensures resumes { IfOk result.want (λ want. Resumes S.stands self.stage result.stage self.seen bytes.now want) }
    {
        let Job {
            strand,
            place,
            seen,
            mut stage,
        } = self;
        let want = stage.resume(alloc, seen, bytes);
        let passes = matches!(seen, Seen::Saw(_)) && want.is_ok() && stage.passes();
        Finished {
            strand,
            place,
            seen,
            stage,
            want,
            passes,
        }
    }

    /// Its strand.
    pub fn strand(&self) -> u32
        ensures { result ≡ self.now.strand }
    {
        self.strand
    }

    /// The place of its entry in the journal, counted from 1.
    pub fn place(&self) -> u64
        ensures { result ≡ self.now.place }
    {
        self.place
    }

    /// What its coroutine is to be told.
    pub fn seen(&self) -> Seen
        ensures { result ≡ self.now.seen }
    {
        self.seen
    }
}

impl<S: Stage> Finished<S> {
    ghost use Rattle.std.specs.Prelude.{◌≡◌};

    /// Its strand.
    pub fn strand(&self) -> u32
        ensures { result ≡ self.now.strand }
    {
        self.strand
    }

    /// The place of its entry in the journal, counted from 1.
    pub fn place(&self) -> u64
        ensures { result ≡ self.now.place }
    {
        self.place
    }

    /// What its coroutine was told.
    pub fn seen(&self) -> Seen
        ensures { result ≡ self.now.seen }
    {
        self.seen
    }
}
