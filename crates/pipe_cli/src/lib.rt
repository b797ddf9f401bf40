//! The program's one call: it reads the words of the command line, does what they say, and answers a status.
#![tactic(auto)]

mod check_call;
mod lint_call;
mod main_call;
mod run_call;
mod sample_call;
mod sets_call;
mod stages;

pub use call_meaning::{
    Outcome, Status, all_is_meant, each_set_as_alone, lint_answers, no_fault_without_its_status,
    one_meaning, one_plain_reply, straight_line_is_plain, straight_line_means,
};
pub use call_words::{Command, WordsFault, read_words};
pub use main_call::pipe_main;
