//! What a call fetches, reads and feeds to the stages of its net, and the texts that it makes and writes.
#![tactic(auto)]

mod feed;
mod fetch;
mod input;
mod journal;
mod lint;
mod read;
mod sample;
mod sets;
mod text;
mod write;

pub use feed::feed_net;
pub use fetch::Found;
pub use input::feed_input;
pub use journal::{Stored, fetch_journal};
pub use lint::lint_line;
pub use sample::sample_input;
pub use sets::{Listed, feed_sets, fetch_sets};
pub use text::{Text, Told, add, add_number, no_memory, shelf_fault, tell, with_text, write_fault};
pub use write::{Answer, give, write_all};
