//! The outside of a run as traits: a source of bytes, a sink of bytes, a shelf of files and a gate before the
//! work on a record. Each counts its faults. Beside them stand forms in memory,
//! and adapters over std's streams and files.
#![tactic(auto)]

mod calls;
mod fault;
mod folder_fetch;
mod folder_replace;
mod folder_shelf;
mod gate;
mod mem_shelf;
mod mem_sink;
mod mem_source;
mod shelf;
mod sink;
mod source;
mod streams;
mod whole;

pub use folder_shelf::FolderShelf;
pub use gate::{Gate, OpenGate};
pub use mem_shelf::MemShelf;
pub use mem_sink::MemSink;
pub use mem_source::MemSource;
pub use shelf::{Fetched, Replaced, Shelf};
pub use sink::{Sink, WriteAnswer};
pub use source::{ReadAnswer, Source};
pub use streams::{StdSink, StdSource};
