//! The commit levels of a unit of strands: who stands at which level, and the answer of a level once all stand
//! there. A call costs the same however many members the unit has.
#![tactic(auto)]

mod levels;
mod licensed;
mod member;
mod unit;

pub use licensed::{answers_as_licensed, members_stay_strands};
pub use unit::Unit;
