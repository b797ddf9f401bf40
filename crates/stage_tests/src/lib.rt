//! Tests of the stages: each is played by itself through what it asks for and is told, by rows of tables, and what
//! `stage_steps` gives out is called.
#![tactic(auto)]

#[cfg(test)]
mod in_turn;
#[cfg(test)]
mod places;
#[cfg(test)]
mod played;
#[cfg(test)]
mod rows;
#[cfg(test)]
mod scripted;
#[cfg(test)]
mod steps;
