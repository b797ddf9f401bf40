//! Tests of what a run stands on: its journal, records, connectors and levels, the test of settled nets, the core and the
//! board. Each is written against what the crate gives out at its root.
#![tactic(auto)]

#[cfg(test)]
mod braids;
#[cfg(test)]
mod consoles;
#[cfg(test)]
mod entries;
#[cfg(test)]
mod joins;
#[cfg(test)]
mod levels;
#[cfg(test)]
mod orders;
#[cfg(test)]
mod passes;
#[cfg(test)]
mod records;
#[cfg(test)]
mod runs;
#[cfg(test)]
mod waiting;
