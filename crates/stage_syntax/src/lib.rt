//! The arguments of each stage, as rows of the parts that may stand there, and the kind or the fault that a text comes to.
#![tactic(auto)]

mod arg;
mod device_forms;
mod editing_forms;
mod fault;
mod form;
mod item_lists;
mod item_parts;
mod laws;
mod order_forms;
mod rows;
mod selection_forms;
mod stages;
mod stream_forms;
mod values;

pub use arg::Arg;
pub use argument_parts::{ArgFault, FaultKind};
pub use fault::KindFault;
pub use form::Form;
pub use laws::{each_kind, no_kind_fault, one_fault, one_kind};
pub use rows::{arguments_as, kind_of};
