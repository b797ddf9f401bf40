//! The entries of the steps of a run, kept in order.
#![tactic(auto)]

mod journal;

pub use journal::StepJournal;
