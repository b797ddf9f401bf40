ghost use Rattle.std.specs.Prelude.{◌≡◌, ◌≢◌, ◌≤◌, ◌<◌, ℕ, List, [], ◌∷◌, true, length, drop, get_or, IfOk, IfErr, MatchOption, Ok};
ghost use Rattle.std.specs.Char.{is_ascii_alphanumeric};
ghost use Rattle.argument_parts.specs.Bytes.{IsByte, IsByteFault};
ghost use Rattle.hex.specs.Hex.{decode_of};
ghost use Rattle.argument_parts.specs.Strings.{is_delimiter};

use crate::fault::FaultKind;
use crate::part::TextFault;
use crate::strings::{delimited, hexadecimal_digits};
use pipe_model::first_word;

/// A byte, and how many bytes spell it.
#[derive(Clone, Copy, Debug, PartialEq, Eq)]
pub struct SpelledByte {
    pub byte: u8,
    pub len: usize,
}

/// The string of length 1 at the front of a text, which isn't empty and doesn't begin with a blank. It takes no memory.
pub fn byte(text: &[u8]) -> Result<SpelledByte, TextFault>
    requires begins { get_or text.now 0 32 ≢ 32 }
    ensures within { IfOk result (λ spelled. spelled.len ≤ length text.now) }
    ensures read { IfOk result (λ spelled. IsByte text.now spelled.byte (drop spelled.len text.now)) }
    ensures refused { IfErr result (IsByteFault text.now) }
{
    if text[0].is_ascii_alphanumeric() {
        byte_in_digits(text)
    } else {
        byte_between(text)
    }
}

// A fault at the front of a text.
fn fault_at(text: &[u8], kind: FaultKind) -> TextFault
    ensures { result ≡ record { left = length text.now; kind = kind } }
{
    TextFault {
        left: text.len(),
        kind,
    }
}

// The byte between delimiters.
fn byte_between(text: &[u8]) -> Result<SpelledByte, TextFault>
    requires begins { is_delimiter (get_or text.now 0 32) ≡ true }
    ensures within { IfOk result (λ spelled. spelled.len ≤ length text.now) }
    ensures read { IfOk result (λ spelled. IsByte text.now spelled.byte (drop spelled.len text.now)) }
    ensures refused { IfErr result (IsByteFault text.now) }
{
    let Some((string, rest)) = delimited(text) else {
        return Err(fault_at(text, FaultKind::Unclosed));
    };
    if string.is_empty() {
        return Err(fault_at(text, FaultKind::EmptyString));
    }
    if string.len() > 1 {
        return Err(fault_at(text, FaultKind::OutOfRange));
    }
    Ok(SpelledByte {
        byte: string[0],
        len: text.len() - rest.len(),
    })
}

// The byte that a first word of `x` and two hexadecimal digits stands for.
fn byte_in_digits(text: &[u8]) -> Result<SpelledByte, TextFault>
    requires begins { is_ascii_alphanumeric (get_or text.now 0 0) ≡ true }
    ensures within { IfOk result (λ spelled. spelled.len ≤ length text.now) }
    ensures read { IfOk result (λ spelled. IsByte text.now spelled.byte (drop spelled.len text.now)) }
    ensures refused { IfErr result (IsByteFault text.now) }
{
    let (word, _rest) = first_word(text);
    match hexadecimal_digits(word) {
        Some(digits) => match byte_of(digits) {
            Some(byte) => Ok(SpelledByte {
                byte,
                len: word.len(),
            }),
            None => Err(fault_at(text, FaultKind::OutOfRange)),
        },
        None if text[0] == b'x' => Err(fault_at(text, FaultKind::BadHex)),
        None => Err(fault_at(text, FaultKind::UnknownWord)),
    }
}

// The byte of two hexadecimal digits, or None where there are more or fewer.
fn byte_of(digits: &[u8]) -> Option<u8>
    ensures { MatchOption result ((string : List ℕ) → decode_of digits.now ≡ Ok string → length string ≢ 1) (λ byte. decode_of digits.now ≡ Ok (byte ∷ [])) }
{
    let mut bytes = [0u8; 1];
    match hex::decode_to_slice(digits, &mut bytes) {
        Ok(()) => Some(bytes[0]),
        Err(_) => None,
    }
}
