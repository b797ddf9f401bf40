//! Workers on a board: each works in a thread of its own, and together they run a core to its end.
#![tactic(auto)]

mod driving;
mod hands;
mod turns;
mod waits;
mod working;

pub use driving::{drive, drive_kept};
pub use hands::WORKER_TRIES;
pub use turns::{AfterTurn, FEWEST_TRIES, take_turn};
pub use working::{WorkEnd, work};
