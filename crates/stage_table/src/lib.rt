//! The built-in stages: one value for the stages of all families, and the stage of each strand of a net.
#![tactic(auto)]

mod built_in;
mod fresh;

pub use built_in::BuiltIn;
pub use fresh::{make, make_all};
