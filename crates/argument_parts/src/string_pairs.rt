ghost use Rattle.std.specs.Prelude.{◌≡◌, ◌≢◌, ◌≤◌, ℕ, List, length, drop, true, get_or, IfOk, IfErr, IfSome, MatchOption};
ghost use Rattle.std.specs.Char.{is_ascii_alphanumeric};
ghost use Rattle.argument_parts.specs.PairsOfStrings.{AreMisfits, AreStrings, IsAnyString, IsAnyStringMisfit};
ghost use Rattle.argument_parts.specs.Refusals.{Refuses, Wants};
ghost use Rattle.argument_parts.specs.Strings.{IsOtherWord, is_delimiter};

use crate::fault::FaultKind;
use crate::refusal::Refusal;
use crate::strings::{decoded, delimited, hexadecimal_digits};
use crate::text::{Spelled, hexadecimal_word};
use bstr::ByteSlice;
use pipe_model::{Rec, first_word, without_blanks};
use std::alloc::Global;

/// Two strings, and how many bytes spell them.
#[derive(Drop)]
pub struct SpelledStrings {
    pub first: Rec,
    pub second: Rec,
    pub len: usize,
}

/// The string at the front of a text, which may be empty, or None where the text begins with a word that is no string. The text
/// isn't empty and doesn't begin with a blank.
pub fn any_string(alloc: Global, text: &[u8]) -> Result<Option<Spelled>, Refusal>
    requires begins { get_or text.now 0 32 ≢ 32 }
    ensures within { IfOk result (λ found. IfSome found (λ spelled. spelled.len ≤ length text.now)) }
    ensures read { IfOk result (λ found. MatchOption found (IsOtherWord text.now) (λ spelled. IsAnyString text.now spelled.string (drop spelled.len text.now))) }
    ensures refused { IfErr result (Refuses (IsAnyStringMisfit text.now)) }
    ensures memory { IfErr result (Wants ((string : List ℕ) × (rest : List ℕ) × IsAnyString text.now string rest)) }
{
    if text[0].is_ascii_alphanumeric() {
        return hexadecimal_word(alloc, text);
    }
    let Some((string, rest)) = delimited(text) else {
        return Err(Refusal::at(text, FaultKind::Unclosed));
    };
    Ok(Some(Spelled {
        string: Rec::from_slice(alloc, string)?,
        len: text.len() - rest.len(),
    }))
}

/// The two strings at the front of a text, or None where the text begins with a word that is no string. The text isn't empty and
/// doesn't begin with a blank.
pub fn two_strings(alloc: Global, text: &[u8]) -> Result<Option<SpelledStrings>, Refusal>
    requires begins { get_or text.now 0 32 ≢ 32 }
    ensures within { IfOk result (λ found. IfSome found (λ spelled. spelled.len ≤ length text.now)) }
    ensures read { IfOk result (λ found. MatchOption found (IsOtherWord text.now) (λ spelled. AreStrings text.now spelled.first spelled.second (drop spelled.len text.now))) }
    ensures refused { IfErr result (Refuses (AreMisfits text.now)) }
    ensures memory { IfErr result (Wants ((first : List ℕ) × (second : List ℕ) × (rest : List ℕ) × AreStrings text.now first second rest)) }
{
    if text[0].is_ascii_alphanumeric() {
        strings_apart(alloc, text)
    } else {
        Ok(Some(delimited_strings(alloc, text)?))
    }
}

// The strings between three of the delimiter at the front of a text.
fn delimited_strings(alloc: Global, text: &[u8]) -> Result<SpelledStrings, Refusal>
    requires begins { is_delimiter (get_or text.now 0 32) ≡ true }
    ensures within { IfOk result (λ spelled. spelled.len ≤ length text.now) }
    ensures read { IfOk result (λ spelled. AreStrings text.now spelled.first spelled.second (drop spelled.len text.now)) }
    ensures refused { IfErr result (Refuses (AreMisfits text.now)) }
    ensures memory { IfErr result (Wants ((first : List ℕ) × (second : List ℕ) × (rest : List ℕ) × AreStrings text.now first second rest)) }
{
    let Some((first, after)) = delimited(text) else {
        return Err(Refusal::at(text, FaultKind::Unclosed));
    };
    let Some(at) = after.find_byte(text[0]) else {
        return Err(Refusal::at(text, FaultKind::Unclosed));
    };
    Ok(SpelledStrings {
        first: Rec::from_slice(alloc, first)?,
        second: Rec::from_slice(alloc, &after[..at])?,
        len: text.len() - after.len() + (at + 1),
    })
}

// The hexadecimal string at the front of a text, and another string after it, or None where the text begins with another word. Both
// are known before the first asks for memory.
fn strings_apart(alloc: Global, text: &[u8]) -> Result<Option<SpelledStrings>, Refusal>
    requires begins { is_ascii_alphanumeric (get_or text.now 0 0) ≡ true }
    ensures within { IfOk result (λ found. IfSome found (λ spelled. spelled.len ≤ length text.now)) }
    ensures read { IfOk result (λ found. MatchOption found (IsOtherWord text.now) (λ spelled. AreStrings text.now spelled.first spelled.second (drop spelled.len text.now))) }
    ensures refused { IfErr result (Refuses (AreMisfits text.now)) }
    ensures memory { IfErr result (Wants ((first : List ℕ) × (second : List ℕ) × (rest : List ℕ) × AreStrings text.now first second rest)) }
{
    let (word, after) = first_word(text);
    let Some(digits) = hexadecimal_digits(word) else {
        if text[0] == b'x' {
            return Err(Refusal::at(text, FaultKind::BadHex));
        }
        return Ok(None);
    };
    let front = without_blanks(after);
    if front.is_empty() {
        return Err(Refusal::at(front, FaultKind::Missing));
    }
    match any_string(alloc, front)? {
        Some(second) => Ok(Some(SpelledStrings {
            first: decoded(alloc, digits)?,
            second: second.string,
            len: text.len() - front.len() + second.len,
        })),
        None => Err(Refusal::at(front, FaultKind::UnknownWord)),
    }
}
