//! The fans and weaves: FANOUT and DEAL part a stream, and FANIN, FANINANY, GATHER, OVERLAY, SYNCHRONISE and JUXTAPOSE
//! bring streams together.
#![tactic(auto)]

mod fan;
mod fan_any;
mod fan_each;
mod fan_in;
mod fan_out;
mod fan_plans;
mod gather;
mod inputs;
mod laws;
mod overlay;
mod passing;
mod round;
mod synchronise;

pub use fan::{FanStage, is_fan};
pub use laws::lists;
