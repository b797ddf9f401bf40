//! The stages that pass on what they read, and differ in when they do: COPY, BUFFER, ELASTIC and the first strand of DAM,
//! made of the lists of their rows of the stage table, and GATE and DAM's other strands, made of their plans.
#![tactic(auto)]

mod buffer;
mod dam_plan;
mod gate;
mod gate_lists;
mod gate_plan;
mod kinds;
mod laws;
mod passing;

pub use gate::GateStage;
pub use kinds::is_gate;
pub use laws::lists;
