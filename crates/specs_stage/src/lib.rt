//! SPECS, which puts fields of records into records of its own: a desk does what items say, a cycle takes records one by
//! one as the row of SPECS has it, the lists give what cycles and the EOF list wrote, and the stage drives the lists.
#![tactic(auto)]

mod copies;
mod cycle;
mod desk;
mod hand;
mod hex_digits;
mod laws;
mod numbers;
mod output;
mod specs_lists;
mod stage;

pub use laws::lists;
pub use stage::{SpecsStage, is_specs};
