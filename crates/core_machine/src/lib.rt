//! The core of a run: it makes one event after another and keeps them in a journal.
#![tactic(auto)]

mod actor;
mod bits;
mod core_state;
mod floor;
mod fused;
mod job;
mod ready;
mod run;
mod settling;
mod showing;
mod start;
mod tells;
mod waking;

pub use actor::Actor;
pub use core_state::Core;
pub use job::{Finished, Job, RunEnd, Turned};
pub use ready::Ready;
