ghost use Rattle.std.specs.Prelude.{◌≡◌, ℕ, List, ◌≢◌, ◌≤◌, length, drop, true, get_or, IfOk, IfErr, IfSome, MatchOption};
ghost use Rattle.argument_parts.specs.declared.fault.FaultKind.{FaultKind};
ghost use Rattle.std.specs.Char.{is_ascii_alphanumeric};
ghost use Rattle.argument_parts.specs.Refusals.{Refuses, Wants};
ghost use Rattle.argument_parts.specs.Strings.{IsBadHexAt, IsHexadecimalWord, IsNoString, IsOtherWord, IsString, IsStringFault, is_delimiter};

use crate::fault::FaultKind;
use crate::refusal::Refusal;
use crate::strings::{delimited, hexadecimal};
use pipe_model::{Rec, first_word};
use std::alloc::Global;

/// A string, and how many bytes spell it.
#[derive(Drop)]
pub struct Spelled {
    pub string: Rec,
    pub len: usize,
}

// The string between delimiters at the front of a text.
fn between_delimiters(alloc: Global, text: &[u8]) -> Result<Spelled, Refusal>
    requires begins { is_delimiter (get_or text.now 0 32) ≡ true }
    ensures within { IfOk result (λ spelled. spelled.len ≤ length text.now) }
    ensures read { IfOk result (λ spelled. IsString text.now spelled.string (drop spelled.len text.now)) }
    ensures refused { IfErr result (Refuses (IsStringFault text.now)) }
    ensures memory { IfErr result (Wants ((string : List ℕ) × (rest : List ℕ) × IsString text.now string rest)) }
{
    let Some((string, rest)) = delimited(text) else {
        return Err(Refusal::at(text, FaultKind::Unclosed));
    };
    if string.is_empty() {
        return Err(Refusal::at(text, FaultKind::EmptyString));
    }
    Ok(Spelled {
        string: Rec::from_slice(alloc, string)?,
        len: text.len() - rest.len(),
    })
}

/// The string that a first word of `x` and hexadecimal digits stands for, or None where the word doesn't begin with `x`.
pub fn hexadecimal_word(alloc: Global, text: &[u8]) -> Result<Option<Spelled>, Refusal>
    requires begins { is_ascii_alphanumeric (get_or text.now 0 0) ≡ true }
    ensures within { IfOk result (λ found. IfSome found (λ spelled. spelled.len ≤ length text.now)) }
    ensures read { IfOk result (λ found. MatchOption found (IsOtherWord text.now) (λ spelled. IsHexadecimalWord text.now spelled.string (drop spelled.len text.now))) }
    ensures refused { IfErr result (Refuses (IsBadHexAt text.now)) }
    ensures memory { IfErr result (Wants ((string : List ℕ) × (rest : List ℕ) × IsHexadecimalWord text.now string rest)) }
{
    let (word, _rest) = first_word(text);
    match hexadecimal(alloc, word)? {
        Some(string) => Ok(Some(Spelled {
            string,
            len: word.len(),
        })),
        None if text[0] == b'x' => Err(Refusal::at(text, FaultKind::BadHex)),
        None => Ok(None),
    }
}

// The string that the first word of a text stands for.
fn of_first_word(alloc: Global, text: &[u8]) -> Result<Spelled, Refusal>
    requires begins { is_ascii_alphanumeric (get_or text.now 0 0) ≡ true }
    ensures within { IfOk result (λ spelled. spelled.len ≤ length text.now) }
    ensures read { IfOk result (λ spelled. IsString text.now spelled.string (drop spelled.len text.now)) }
    ensures refused { IfErr result (Refuses (IsStringFault text.now)) }
    ensures memory { IfErr result (Wants ((string : List ℕ) × (rest : List ℕ) × IsString text.now string rest)) }
{
    match hexadecimal_word(alloc, text)? {
        Some(spelled) => Ok(spelled),
        None => Err(Refusal::at(text, FaultKind::UnknownWord)),
    }
}

/// The string at the front of a text, which isn't empty and doesn't begin with a blank.
pub fn string(alloc: Global, text: &[u8]) -> Result<Spelled, Refusal>
    requires begins { get_or text.now 0 32 ≢ 32 }
    ensures within { IfOk result (λ spelled. spelled.len ≤ length text.now) }
    ensures read { IfOk result (λ spelled. IsString text.now spelled.string (drop spelled.len text.now)) }
    ensures refused { IfErr result (Refuses (IsStringFault text.now)) }
    ensures memory { IfErr result (Wants ((string : List ℕ) × (rest : List ℕ) × IsString text.now string rest)) }
{
    if text[0].is_ascii_alphanumeric() {
        of_first_word(alloc, text)
    } else {
        between_delimiters(alloc, text)
    }
}

/// A text that is a string and a rest has no fault of a string, so `string` gives one wherever there is one.
pub fn no_fault_of_a_string()
    ensures { (text string rest : List ℕ) (kind : FaultKind) → IsString text string rest → ¬ IsNoString text kind }
{}
