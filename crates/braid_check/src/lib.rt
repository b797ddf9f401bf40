//! Whether the answer of a net rests on the order of its steps, and where the ways to each strand that takes what comes
//! first part.
#![tactic(auto)]

mod agenda;
mod answer;
mod feeds;
mod joins;
mod jumps;
mod kinds;
mod places;
mod rounds;
mod told;
mod walks;

pub use answer::{forks, settled};
pub use kinds::is_thin;
pub use told::Settled;
