ghost use Rattle.std.specs.Prelude.{◌≡◌, IfOk, IfErr, MatchOption};
ghost use Rattle.argument_parts.specs.declared.ranges.Spelling.{Spelling};
ghost use Rattle.argument_parts.specs.PlainRanges.{IsPlainRange, IsRangeFault, fault_of};
ghost use Rattle.argument_parts.specs.Ranges.{IsSpelling};

use crate::bounds::{Misfit, range_of};
use crate::digits::first_digits;
use crate::fault::FaultKind;
use crate::ranges::read_spelling;
use pipe_model::{Range, Span};

/// A fault within a word, so many bytes after its beginning.
#[derive(Clone, Copy, Debug, PartialEq, Eq)]
pub struct WordFault {
    pub at: usize,
    pub kind: FaultKind,
}

/// The range that a word spells, of what `span` says, or None where it spells none.
pub fn plain_range(span: Span, word: &[u8]) -> Result<Option<Range>, WordFault>
    ensures read { IfOk result (λ found. MatchOption found ((spelling : Spelling) → ¬ IsSpelling word.now spelling) (IsPlainRange span word.now)) }
    ensures refused { IfErr result (IsRangeFault word.now) }
{
    let Some(spelling) = read_spelling(word) else {
        return Ok(None);
    };
    match range_of(span, spelling) {
        Ok(range) => Ok(Some(range)),
        Err(misfit) => {
            let (digits, _after) = first_digits(word);
            Err(place_misfit(misfit, digits.len() + 1))
        }
    }
}

/// The fault of a misfit in a word whose second number begins at a place.
pub fn place_misfit(misfit: Misfit, second: usize) -> WordFault
    ensures { result ≡ fault_of second misfit }
{
    match misfit {
        Misfit::First => WordFault {
            at: 0,
            kind: FaultKind::OutOfRange,
        },
        Misfit::Second => WordFault {
            at: second,
            kind: FaultKind::OutOfRange,
        },
        Misfit::Reversed => WordFault {
            at: second,
            kind: FaultKind::Reversed,
        },
    }
}
