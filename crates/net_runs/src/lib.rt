//! What comes of a net whose stages are fed: it is run, or a journal is played on it, and then what it kept is written. It asks nothing of the
//! stages but that they are stages, and is given who makes them.
#![tactic(auto)]

mod check_run;
mod maker;
mod net_run;
mod ready_run;
mod replace;
mod sample_run;
mod sets_driven;
mod sets_run;
mod trace;

pub use check_run::judged;
pub use maker::Maker;
pub use ready_run::carry_out;
pub use sample_run::summed_up;
pub use sets_driven::carry_out_sets;
