//! Which strands wait for ever at the end of a run, and the text that tells it.
#![tactic(auto)]

mod lines;
mod stall;
mod words;

pub use lines::{WaitLine, WaitWant, Waits};
pub use stall::report;
pub use words::text;
