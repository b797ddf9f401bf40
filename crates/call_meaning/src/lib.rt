//! What the words of a call mean: how it ends, what it reads and does, and the laws on that. Here the words are read, and the net of their
//! specification is made.
#![tactic(auto)]

mod calls;
mod laws;
mod lints;
mod meaning;
mod nets;
mod sample;
mod status;

pub use calls::{Call, called};
pub use laws::{all_is_meant, each_set_as_alone, no_fault_without_its_status, one_plain_reply};
pub use lints::lint_answers;
pub use meaning::{one_meaning, straight_line_is_plain, straight_line_means};
pub use nets::{Set, sets_of};
pub use sample::{sample_answers, sample_completes, sample_reads};
pub use status::{Outcome, Status};
