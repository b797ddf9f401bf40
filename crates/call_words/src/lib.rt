//! The words of the command line: the command that they mean, by what the parser of words reads and what is demanded of that.
#![tactic(auto)]

mod command;
mod demands;
mod grammar;
mod values;
mod words;

pub use command::{Command, WordsFault};
pub use words::read_words;
