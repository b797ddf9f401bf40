//! The desk of a run: what is kept of each strand and connector, and all that a licence rests on, so that what a strand
//! would be told is answered in constant time.
#![tactic(auto)]

mod blank;
mod coming;
mod desk;
mod doors;
mod laws;
mod looks;
mod passing;
mod records;
mod relaying;
mod seat;
mod sights;
mod telling;
mod turns;
mod wires;

pub use desk::Desk;
pub use doors::Doors;
pub use laws::{tells_the_licence, wants_early_levels};
pub use seat::{Ask, Seat};
