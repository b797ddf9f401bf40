//! How a worker waits while no strand may have an event.
use board::Board;
use stage_steps::Stage;
use std::sync::Wait;

// The shortest sleep and the longest, in microseconds.
const SHORTEST_REST: u64 = 50;

const LONGEST_REST: u64 = 16_000;

// After so many jobs in a row it waits as at the start.
const JOBS_IN_A_ROW: u32 = 64;

/// For how many microseconds a worker sleeps next, where it comes to that, how many jobs it had in a row, and whether it
/// looks for a job since it was told that one may be left.
#[derive(Clone, Copy, Debug, PartialEq, Eq)]
pub(crate) struct Waits {
    micros: u64,
    jobs: u32,
    hopes: bool,
}

impl Waits {
    pub(crate) fn new() -> Waits {
        Waits {
            micros: SHORTEST_REST,
            jobs: 0,
            hopes: false,
        }
    }

    /// It had a job.
    pub(crate) fn note_job(&mut self) {
        self.jobs = self.jobs.saturating_add(1);
        if self.hopes || self.jobs == JOBS_IN_A_ROW {
            self.micros = SHORTEST_REST;
        }
        self.hopes = false;
    }

    /// It had none, and waits: till it is told that one may be left, or, where it isn't told for some time, for a sleep that
    /// is twice as long each time, so that it doesn't get in the way of those who work.
    pub(crate) fn wait<S: Stage, R: Wait>(&mut self, rt: &R, board: &Board<S>) {
        self.jobs = 0;
        self.hopes = board.rest(rt, self.micros);
        if !self.hopes {
            self.micros = self.micros.saturating_mul(2).min(LONGEST_REST);
        }
    }
}
