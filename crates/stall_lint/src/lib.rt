//! Whether a net can stall, told before it runs: groups of strands, closed walks through them, and
//! laws that do nothing.
#![tactic(auto)]

mod answer;
mod edges;
mod groups;
mod hops;
mod inner;
mod labels;
mod never;
mod rings;
mod rounds;
mod told;
mod trees;
mod turn;

pub use answer::lint;
pub use never::{never_stalls, no_closed_walk, one_line};
pub use told::{Lint, Strands};
