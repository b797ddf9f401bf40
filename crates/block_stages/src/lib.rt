//! The stages of Blocks: FBLOCK, BLOCK and DEBLOCK, which cut the bytes of all records anew.
#![tactic(auto)]

mod block;
mod blocks;
mod cuts;
mod deblock;
mod fblock;
mod images;
mod laws;
mod lengths;
mod pending;
mod strings;

pub use block::{BlockStage, is_block};
pub use laws::lists;
