//! The stages that stand for devices: CONSOLE, `<`, `>`, LITERAL and HOLE, each made of the lists of its row of the stage
//! table; and that of a file that isn't there.
#![tactic(auto)]

mod absent;
mod device;
mod hole;
mod kinds;
mod laws;
mod literal;
mod sink;
mod source;

pub use absent::Absent;
pub use device::DeviceStage;
pub use hole::Holes;
pub use kinds::is_device;
pub use laws::lists;
pub use literal::Literals;
