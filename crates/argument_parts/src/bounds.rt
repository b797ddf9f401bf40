ghost use Rattle.std.specs.Prelude.{◌≡◌, IfOk, IfErr, MatchOption};
ghost use Rattle.argument_parts.specs.Bounds.{Fits, IsMisfit, IsRangeOf};

use crate::ranges::{Ending, Spelling};
use pipe_model::{Range, Span};

/// The greatest number of a range.
const LARGEST: u64 = 1_048_576;

/// Why a spelling is no range.
#[derive(Clone, Copy, Debug, PartialEq, Eq)]
pub enum Misfit {
    /// The first number is out of range.
    First,
    /// The second number, a last number or a length, is out of range.
    Second,
    /// The last number is less than the first.
    Reversed,
}

/// The range that is spelled, of what `span` says.
pub fn range_of(span: Span, spelling: Spelling) -> Result<Range, Misfit>
    ensures read { IfOk result (IsRangeOf span spelling) }
    ensures refused { IfErr result (IsMisfit spelling) }
{
    let first = within(spelling.first).ok_or(Misfit::First)?;
    let last = match spelling.ending {
        Ending::Alone => Some(first),
        Ending::Open => None,
        Ending::To(last) => {
            let last = within(last).ok_or(Misfit::Second)?;
            if last < first {
                return Err(Misfit::Reversed);
            }
            Some(last)
        }
        Ending::Long(len) => Some(first + within(len).ok_or(Misfit::Second)? - 1),
    };
    Ok(Range { span, first, last })
}

/// The number, if a range may have it.
pub fn within(number: u64) -> Option<u32>
    ensures { MatchOption result (¬ Fits number) (λ same. Fits number × (same ≡ number)) }
{
    if number == 0 || number > LARGEST {
        None
    } else {
        Some(number as u32)
    }
}
