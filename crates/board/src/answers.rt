use core_machine::{Finished, Job};
use stage_steps::Stage;

/// Names the place of an entry in the journal, counted from 1.
#[derive(Clone, Copy, Debug, PartialEq, Eq)]
pub struct Receipt {
    pub place: u64,
}

/// How many steps on records are made at once at most, after a job came home.
#[derive(Clone, Copy, Debug, PartialEq, Eq)]
pub struct AtOnce {
    /// Where no other job is out, so that nobody waits to bring one home.
    pub alone: u64,
    /// Where others are out.
    pub beside: u64,
}

impl AtOnce {
    ghost use Rattle.std.specs.Prelude.{◌≡◌};
    ghost use Rattle.board.specs.Calls.{most_beside};

    // How many where so many other jobs are out.
    pub(crate) fn most_beside(self, out: u32) -> u64
        ensures { result ≡ most_beside self out }
    {
        if out == 0 { self.alone } else { self.beside }
    }
}

/// The answer of a turn of one strand.
#[derive(Drop)]
pub enum TryTurn<S: Stage> {
    /// The entry was made, and its job is out.
    Work(Job<S>, Receipt),
    /// The strand is out, or may have no event on that stream.
    NotReady,
    /// The journal has as many entries as the budget allows.
    Spent,
    /// The record that the strand would see has this many bytes, and the room holds fewer.
    Room(usize),
    /// An earlier finish wanted memory.
    Broken,
    /// Another pass has the slot in hand.
    Busy,
}

/// The answer of a turn of whichever strand may have an event.
#[derive(Drop)]
pub enum TryAny<S: Stage> {
    /// The entry was made, and its job is out.
    Work(Job<S>, Receipt),
    /// No strand may have an event, and so many are out.
    Idle { out: u32 },
    /// The journal has as many entries as the budget allows, and a strand may have an event.
    Spent,
    /// The record that the strand would see has this many bytes, and the room holds fewer.
    Room(usize),
    /// An earlier finish wanted memory.
    Broken,
    /// Another pass has the slot in hand.
    Busy,
}

/// The answer of a finish.
#[derive(Drop)]
pub enum TryFinish<S: Stage> {
    /// The job came home.
    Home,
    /// The job, or the core, wanted memory: the core is broken, and the strand stays out.
    NoMemory,
    /// Another pass has the slot in hand. The job is handed back.
    Busy(Finished<S>),
}
