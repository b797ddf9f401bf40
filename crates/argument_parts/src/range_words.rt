ghost use Rattle.std.specs.Prelude.{◌≡◌, ◌≤◌, ℕ, List, length, drop, IfOk, IfErr, IfSome, MatchOption};
ghost use Rattle.argument_parts.specs.declared.ranges.Spelling.{Spelling};
ghost use Rattle.argument_parts.specs.PlainRanges.{IsPlainRange};
ghost use Rattle.argument_parts.specs.Ranges.{IsSpelling};
ghost use Rattle.argument_parts.specs.RangeWords.{IsBareRange, IsBareRangeFault, IsNamed, IsNoRange, IsRange, IsRangeMisfit, IsUnspelled, IsWordFault};

use crate::digits::first_others;
use crate::fault::FaultKind;
use crate::part::TextFault;
use crate::span_words::span_named;
use crate::spelled::plain_range;
use pipe_model::{Range, Span, first_word, without_blanks};

/// A range, and how many bytes spell it.
#[derive(Clone, Copy, Debug, PartialEq, Eq)]
pub struct SpelledRange {
    pub range: Range,
    pub len: usize,
}

/// The range at the front of a text, or None where the text doesn't begin as a range does.
pub fn range(text: &[u8]) -> Result<Option<SpelledRange>, TextFault>
    ensures within { IfOk result (λ found. IfSome found (λ spelled. spelled.len ≤ length text.now)) }
    ensures read { IfOk result (λ found. MatchOption found (IsNoRange text.now) (λ spelled. IsRange text.now spelled.range (drop spelled.len text.now))) }
    ensures refused { IfErr result (IsRangeMisfit text.now) }
{
    let (word, rest) = first_word(text);
    if let Some(range) = range_in(Span::Columns, word, text.len())? {
        return Ok(Some(SpelledRange {
            range,
            len: word.len(),
        }));
    }
    let (name, numbers) = first_others(word);
    let Some(span) = span_named(name) else {
        return Ok(None);
    };
    if numbers.is_empty() {
        let after = range_after(span, rest)?;
        return Ok(Some(SpelledRange {
            range: after.range,
            len: word.len() + after.len,
        }));
    }
    match range_in(span, numbers, text.len() - name.len())? {
        Some(range) => Ok(Some(SpelledRange {
            range,
            len: word.len(),
        })),
        None => Ok(None),
    }
}

/// The range of columns that is the first word of a text, or None where that word spells no range.
pub fn columns(text: &[u8]) -> Result<Option<SpelledRange>, TextFault>
    ensures within { IfOk result (λ found. IfSome found (λ spelled. spelled.len ≤ length text.now)) }
    ensures read { IfOk result (λ found. MatchOption found (IsUnspelled text.now) (λ spelled. IsBareRange text.now spelled.range (drop spelled.len text.now))) }
    ensures refused { IfErr result (IsBareRangeFault text.now) }
{
    let (word, _rest) = first_word(text);
    match range_in(Span::Columns, word, text.len())? {
        Some(range) => Ok(Some(SpelledRange {
            range,
            len: word.len(),
        })),
        None => Ok(None),
    }
}

// The range after a word that says what it counts, and how many bytes spell it, with the blanks before it.
fn range_after(span: Span, after: &[u8]) -> Result<SpelledRange, TextFault>
    ensures within { IfOk result (λ spelled. spelled.len ≤ length after.now) }
    ensures read { IfOk result (λ spelled. (text : List ℕ) → IsNamed text after.now span → IsRange text spelled.range (drop spelled.len after.now)) }
    ensures refused { IfErr result (λ fault. (text : List ℕ) → IsNamed text after.now span → IsRangeMisfit text fault) }
{
    let front = without_blanks(after);
    if front.is_empty() {
        return Err(TextFault {
            left: 0,
            kind: FaultKind::Missing,
        });
    }
    let (word, _rest) = first_word(front);
    match range_in(span, word, front.len())? {
        Some(range) => Ok(SpelledRange {
            range,
            len: after.len() - front.len() + word.len(),
        }),
        None => Err(TextFault {
            left: front.len(),
            kind: FaultKind::NotANumber,
        }),
    }
}

// The range that a word spells, where so many bytes are left of the text at its beginning.
fn range_in(span: Span, word: &[u8], left: usize) -> Result<Option<Range>, TextFault>
    requires within { length word.now ≤ left }
    ensures read { IfOk result (λ found. MatchOption found ((spelling : Spelling) → ¬ IsSpelling word.now spelling) (IsPlainRange span word.now)) }
    ensures refused { IfErr result (IsWordFault word.now left) }
{
    match plain_range(span, word) {
        Ok(found) => Ok(found),
        Err(fault) => Err(TextFault {
            left: left - fault.at,
            kind: fault.kind,
        }),
    }
}
