//! The text of a specification: what it reads as, or its least fault.
#![tactic(auto)]

mod body;
mod cuts;
mod fault;
mod findings;
mod item;
mod labelled;
mod labels;
mod laws;
mod option_words;
mod options;
mod piece;
mod pieces;
mod scanned;
mod scanner;
mod settings;
mod signs;
mod stages;
mod words;

pub use fault::{Fault, SpecFault, SpecFaultKind, least};
pub use laws::{each_text, no_refusal, one_reading_of, one_refusal_of, places_rise};
pub use piece::{Piece, PieceKind};
pub use scanned::{Pieces, Scanned};
pub use scanner::scan;
