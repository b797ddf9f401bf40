//! Connectors: what lies between the strand that writes records and the strand that reads them.
#![tactic(auto)]

mod wire;

pub use wire::Wire;
