//! The parts that arguments of stages are made of, and how each is read from the front of a text: words, numbers, ranges,
//! bytes and strings, and the faults.
#![tactic(auto)]

mod bounds;
mod bytes;
mod counts;
mod digits;
mod fault;
mod keywords;
mod laws;
mod names;
mod next;
mod number_words;
mod part;
mod range_words;
mod ranges;
mod refusal;
mod span_words;
mod spelled;
mod spots;
mod string_pairs;
mod strings;
mod taken;
mod text;
mod whole_numbers;

pub use bounds::{Misfit, range_of};
pub use bytes::{SpelledByte, byte};
pub use counts::{SpelledTimes, times};
pub use digits::{first_digits, first_others, number};
pub use fault::{ArgFault, FaultKind};
pub use keywords::keyword;
pub use laws::{each_next, each_part, no_misfit};
pub use names::name;
pub use next::{Argument, next_part};
pub use number_words::{SpelledNumber, number_in};
pub use part::{Part, TextFault, Value, Word};
pub use range_words::{SpelledRange, columns, range};
pub use ranges::{Ending, Spelling, read_spelling};
pub use refusal::Refusal;
pub use span_words::span_named;
pub use spelled::{WordFault, plain_range};
pub use spots::{SpelledSpot, spot};
pub use string_pairs::{SpelledStrings, any_string, two_strings};
pub use strings::{delimited, hexadecimal};
pub use taken::{Taken, part_at};
pub use text::{Spelled, hexadecimal_word, no_fault_of_a_string, string};
pub use whole_numbers::{SpelledWhole, counter, whole};
