//! Record memory: a pool that keeps the bytes of records and counts the holders of each, and queues of records.
#![tactic(auto)]

mod pool;
mod queue;

pub use pool::{Grip, Pool};
pub use queue::{Node, Queue};
