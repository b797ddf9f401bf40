//! The text of a run's journal, written and read, and what a journal is to a net.
#![tactic(auto)]

mod checking;
mod entries;
mod fronts;
mod laws;
mod reading;
mod writing;

pub use checking::{Checked, check};
pub use entries::Journal;
pub use laws::{no_fault_of_a_journal, one_fault, one_journal, one_judgement};
pub use reading::{JournalFault, read};
pub use writing::{text_of, write};
