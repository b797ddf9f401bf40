//! Tests of the program's one call: the order of its calls of streams and files, also where one of them fails in mid-stream,
//! what it answers at faults, damaged journals and limits, its gate, and that two workers work at once; of the text of a journal;
//! and of a core whose coroutine wants memory.
#![tactic(auto)]

#[cfg(test)]
mod calls;
#[cfg(test)]
mod gates;
#[cfg(test)]
mod journals;
#[cfg(test)]
mod order;
#[cfg(test)]
mod outcomes;
#[cfg(test)]
mod refusing;
#[cfg(test)]
mod together;
