//! The net of a specification: its stages as strands, and the links between them.
#![tactic(auto)]

mod assembly;
mod fault;
mod flags;
mod graph;
mod input;
mod joins;
mod laws;
mod layout;
mod notes;
mod outcomes;
mod parting;
mod search;
mod strands;
mod table;
mod uses;

pub use fault::NetFault;
pub use graph::build;
pub use input::feed;
pub use laws::{each_graph, each_net, no_net_refusal, one_net, one_net_refusal, straight_net};
