ghost use Rattle.std.specs.Prelude.{MatchOption};
ghost use Rattle.argument_parts.specs.declared.ranges.Ending.{Ending};
ghost use Rattle.argument_parts.specs.declared.ranges.Spelling.{Spelling};
ghost use Rattle.argument_parts.specs.Ranges.{Ends, IsSpelling};

use crate::digits::{first_digits, number};

/// What a range has after its first number.
#[derive(Clone, Copy, Debug, PartialEq, Eq)]
pub enum Ending {
    /// Nothing, as `n`.
    Alone,
    /// The last number, as `n-m`.
    To(u64),
    /// No end, as `n-*`.
    Open,
    /// How many numbers it has, as `n.len`.
    Long(u64),
}

/// A range as it is spelled, of any numbers.
#[derive(Clone, Copy, Debug, PartialEq, Eq)]
pub struct Spelling {
    pub first: u64,
    pub ending: Ending,
}

// What is spelled after the first number of a range.
fn read_ending(after: &[u8]) -> Option<Ending>
    ensures { MatchOption result ((ending : Ending) → ¬ Ends after.now ending) (Ends after.now) }
{
    match after {
        [] => Some(Ending::Alone),
        [b'-', b'*'] => Some(Ending::Open),
        [b'-', last @ ..] => Some(Ending::To(number(last)?)),
        [b'.', len @ ..] => Some(Ending::Long(number(len)?)),
        _ => None,
    }
}

/// The range that a word spells, or None where it spells none.
pub fn read_spelling(word: &[u8]) -> Option<Spelling>
    ensures { MatchOption result ((spelling : Spelling) → ¬ IsSpelling word.now spelling) (IsSpelling word.now) }
{
    let (digits, after) = first_digits(word);
    Some(Spelling {
        first: number(digits)?,
        ending: read_ending(after)?,
    })
}
