ghost use Rattle.std.specs.Prelude.{◌≡◌, ◌≢◌, ◌≤◌, ◌++◌, Bool, ℕ, List, length, drop, get_or, if◌then◌else◌, IfOk, IfErr, IfSome, MatchOption};
ghost use Rattle.std.specs.List.{Contains};
ghost use Rattle.std.specs.declared.option.Option.{Option};
ghost use Rattle.pipe_model.specs.declared.items.Spot.TheVariants.{Next, NextWord};
ghost use Rattle.pipe_model.specs.Words.{IsFirstWord};
ghost use Rattle.argument_parts.specs.declared.ranges.Ending.TheVariants.{Open};
ghost use Rattle.argument_parts.specs.declared.ranges.Spelling.{Spelling};
ghost use Rattle.argument_parts.specs.Bounds.{Fits, IsLast};
ghost use Rattle.argument_parts.specs.Ranges.{IsSpelling};
ghost use Rattle.argument_parts.specs.Spots.{IsColumnFault, IsColumnLength, IsNextFault, IsNextName, IsNextSpelling, IsNoSpot, IsSpot, IsSpotMisfit};

use crate::bounds::{range_of, within};
use crate::digits::{first_digits, number};
use crate::fault::FaultKind;
use crate::part::TextFault;
use crate::ranges::{Ending, Spelling, read_spelling};
use crate::spelled::place_misfit;
use bstr::ByteSlice;
use pipe_model::{Span, Spot, first_word};

/// Where SPECS puts a field, and how many bytes spell it.
#[derive(Clone, Copy)]
pub struct SpelledSpot {
    pub spot: Spot,
    pub len: usize,
}

/// The place that is the first word of a text, or None where the text doesn't begin as a place does.
pub fn spot(text: &[u8]) -> Result<Option<SpelledSpot>, TextFault>
    ensures within { IfOk result (λ found. IfSome found (λ spelled. spelled.len ≤ length text.now)) }
    ensures read { IfOk result (λ found. MatchOption found (IsNoSpot text.now) (λ spelled. IsSpot text.now spelled.spot (drop spelled.len text.now))) }
    ensures refused { IfErr result (IsSpotMisfit text.now) }
{
    let (word, _rest) = first_word(text);
    if let Some(spot) = column(word, text.len())? {
        return Ok(Some(SpelledSpot {
            spot,
            len: word.len(),
        }));
    }
    match next_place(word, text.len())? {
        Some(spot) => Ok(Some(SpelledSpot {
            spot,
            len: word.len(),
        })),
        None => Ok(None),
    }
}

// The column that a word spells, with its length, where so many bytes are left of the text at the word's beginning.
fn column(word: &[u8], left: usize) -> Result<Option<Spot>, TextFault>
    requires within { length word.now ≤ left }
    ensures read { IfOk result (λ found. MatchOption found ((spelling : Spelling) → IsSpelling word.now spelling → spelling.ending ≡ Open) (λ spot. (text rest : List ℕ) → IsFirstWord text word.now rest → IsSpot text spot rest)) }
    ensures refused { IfErr result (λ fault. (text rest : List ℕ) → IsFirstWord text word.now rest → length text ≡ left → IsColumnFault text fault) }
{
    let Some(spelling) = read_spelling(word) else {
        return Ok(None);
    };
    if spelling.ending == Ending::Open {
        return Ok(None);
    }
    match range_of(Span::Columns, spelling) {
        Ok(range) => Ok(Some(Spot::Column {
            first: range.first,
            len: column_length(spelling),
        })),
        Err(misfit) => {
            let (digits, _after) = first_digits(word);
            let fault = place_misfit(misfit, digits.len() + 1);
            Err(TextFault {
                left: left - fault.at,
                kind: fault.kind,
            })
        }
    }
}

// The length that is named with a column, of a range that has an end.
fn column_length(spelling: Spelling) -> Option<u32>
    requires fits { Fits spelling.first × ((last : Option ℕ) × IsLast spelling.first spelling.ending last) }
    requires closed { spelling.ending ≢ Open }
    ensures { IsColumnLength spelling.first spelling.ending result }
{
    match spelling.ending {
        Ending::To(last) => Some((last - spelling.first + 1) as u32),
        Ending::Long(len) => Some(len as u32),
        Ending::Alone | Ending::Open => None,
    }
}

// NEXT or NEXTWORD as a word spells it, with its length, where so many bytes are left of the text at the word's beginning.
fn next_place(word: &[u8], left: usize) -> Result<Option<Spot>, TextFault>
    requires within { length word.now ≤ left }
    ensures read { IfOk result (λ found. MatchOption found ((apart : Bool) (len : Option ℕ) → ¬ IsNextSpelling word.now apart len) (λ spot. (text rest : List ℕ) → IsFirstWord text word.now rest → IsSpot text spot rest)) }
    ensures refused { IfErr result (λ fault. (text rest : List ℕ) → IsFirstWord text word.now rest → length text ≡ left → IsNextFault text fault) }
{
    let (name, after) = before_dot(word);
    let Some(apart) = next_named(name) else {
        return Ok(None);
    };
    if after.is_empty() {
        return Ok(Some(next_spot(apart, None)));
    }
    let Some(len) = number(&after[1..]) else {
        return Ok(None);
    };
    match within(len) {
        Some(len) => Ok(Some(next_spot(apart, Some(len)))),
        None => Err(TextFault {
            left: left - (name.len() + 1),
            kind: FaultKind::OutOfRange,
        }),
    }
}

// What stands before the first dot of a word, and the rest.
fn before_dot(word: &[u8]) -> (&[u8], &[u8])
    ensures spells { word.now ≡ result.0.now ++ result.1.now }
    ensures whole { ¬ Contains result.0.now 46 }
    ensures stops { get_or result.1.now 0 46 ≡ 46 }
{
    match word.find_byte(b'.') {
        Some(at) => (&word[..at], &word[at..]),
        None => (word, &[]),
    }
}

// Whether a name is NEXT or NEXTWORD, in any case; None for any other word. NEXTWORD leaves a gap.
fn next_named(name: &[u8]) -> Option<bool>
    ensures { MatchOption result ((apart : Bool) → ¬ IsNextName name.now apart) (IsNextName name.now) }
{
    if name.eq_ignore_ascii_case(b"next") || name.eq_ignore_ascii_case(b"n") {
        return Some(false);
    }
    if name.eq_ignore_ascii_case(b"nextword") || name.eq_ignore_ascii_case(b"nw") {
        return Some(true);
    }
    None
}

// The place, which leaves a gap or none.
fn next_spot(apart: bool, len: Option<u32>) -> Spot
    ensures { result ≡ (if apart then NextWord len else Next len) }
{
    if apart {
        Spot::NextWord { len }
    } else {
        Spot::Next { len }
    }
}
