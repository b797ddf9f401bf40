//! A board: many workers step one core, each with a pass that says what it has seen of the journal and which entries
//! are its own. Where it isn't said otherwise a call waits for nobody.
#![tactic(auto)]

mod answers;
mod bell;
mod board;
mod change;
mod core_box;
mod finishing;
mod going_on;
mod holding;
mod pass;
mod passes;
mod plays;
mod seeking;
mod taking;
mod task;
mod turning;
mod view;

pub use answers::{AtOnce, Receipt, TryAny, TryFinish, TryTurn};
pub use board::Board;
pub use core_box::CoreBox;
pub use pass::Pass;
pub use plays::{Amount, Await, Brings, Cut, Give, Learn, Merge, Order, Raise, Try};
pub use view::View;
