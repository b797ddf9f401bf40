//! The stages of order and counting: UNIQUE, SORT and COUNT.
#![tactic(auto)]

mod compare;
mod count;
mod keyed;
mod laws;
mod order_lists;
mod order_stage;
mod run;
mod sort;
mod unique;
mod word_count;

pub use laws::lists;
pub use order_stage::{UniqueStage, is_order};
