//! The tests of the crates below the net: records, stages by their names and arguments, the pieces of a specification, and
//! streams and files.
#![tactic(auto)]

#[cfg(test)]
mod files;
#[cfg(test)]
mod kinds;
#[cfg(test)]
mod memory;
#[cfg(test)]
mod pieces;
#[cfg(test)]
mod records;
#[cfg(test)]
mod streams;
