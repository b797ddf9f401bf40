//! The stages COLLATE and MERGE, which have a record of each input in sight and compare their keys.
#![tactic(auto)]

mod collate;
mod collating;
mod lane;
mod laws;
mod merge;
mod queue;
mod stage;

pub use laws::lists;
pub use stage::{CollateStage, is_collate};
