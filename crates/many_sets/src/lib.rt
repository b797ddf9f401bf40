//! Many sets, independent of each other and run by the same workers: each core stands on a board of its own.
#![tactic(auto)]

mod closing;
mod driving;
mod finishing;
mod founding;
mod hands;
mod numbers;
mod working;

pub use driving::drive_sets;
