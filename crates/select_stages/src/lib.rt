//! The stages of Selection: those that write each record on output 0 or on output 1.
#![tactic(auto)]

mod any_pick;
mod between;
mod find;
mod label;
mod laws;
mod locate;
mod picks;
mod prefix;
mod select;
mod select_lists;
mod take;
mod window;

pub use laws::lists;
pub use select::{SelectStage, is_select};
