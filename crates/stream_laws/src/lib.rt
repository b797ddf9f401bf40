//! What a strand by itself puts and takes, as functions on its whole lists: laws that do nothing.
#![tactic(auto)]

mod blocks;
mod by_kind;
mod by_shape;
mod ends;
mod orders;

pub use blocks::{blocks_of_bytes, blocks_of_images, one_cut, records_of_bytes};
pub use by_kind::{collate, fan_in, look_up, merge};
pub use by_shape::{each_output, lists};
pub use ends::finished;
pub use orders::{runs, sorting};
