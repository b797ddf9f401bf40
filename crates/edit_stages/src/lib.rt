//! The stages of Editing: those that write what they make of each record.
#![tactic(auto)]

mod any_edit;
mod any_lists;
mod byte_set;
mod change;
mod chop;
mod duplicate;
mod edit;
mod edits;
mod join;
mod laws;
mod pad;
mod reverse;
mod split;
mod strip;
mod xlate;

pub use edit::{EditStage, is_edit};
pub use laws::lists;
