//! LOOKUP: it reads the masters and keeps the first of each key, and then writes each detail with the master of its key, and
//! behind the last detail the masters that none matched.
#![tactic(auto)]

mod laws;
mod lookup;
mod masters;
mod stage;

pub use laws::lists;
pub use stage::{LookupStage, is_lookup};
