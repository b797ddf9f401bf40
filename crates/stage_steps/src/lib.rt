//! The sequential parts of stages: what a stage promises, the driver of the stages that are made of lists of pairs and that
//! of those that plan, the lists that several of them share, and what others need of records.
#![tactic(auto)]

mod boxed;
mod copies;
mod each;
mod group;
mod kept;
mod keys;
mod listed;
mod lists;
mod order;
mod outputs;
mod place;
mod planned;
mod plans;
mod ranges;
mod reply;
mod sifted;
mod stage;
mod strings;
mod text_lines;
mod waiting;
mod walk;

pub use copies::Copies;
pub use each::{Each, EachRecord};
pub use group::{Group, Repeat};
pub use keys::{is_less, is_same};
pub use listed::Listed;
pub use lists::Lists;
pub use order::Order;
pub use planned::Planned;
pub use plans::{Act, Goal, Plans};
pub use ranges::part_of;
pub use reply::{Reply, leave};
pub use sifted::Sifted;
pub use stage::Stage;
pub use strings::Sought;
pub use text_lines::{TextLines, line_shown, lines_ahead, put_line, show_line};
pub use waiting::take_waiting;
