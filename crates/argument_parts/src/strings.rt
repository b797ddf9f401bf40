ghost use Rattle.std.specs.Prelude.{◌≡◌, ◌<◌, ◌%◌, ◌↔◌, ℕ, List, IsTrue, length, true, get_or, IfOk, IfNone, OnErr, MatchOption, Ok};
ghost use Rattle.std.specs.Char.{is_ascii_hexdigit};
ghost use Rattle.std.specs.List.{list_all};
ghost use Rattle.hex.specs.Hex.{decode_of};
ghost use Rattle.argument_parts.specs.Strings.{IsDelimited, IsHexadecimal, IsUnclosed, is_delimiter};

use bstr::ByteSlice;
use pipe_model::{NoMemory, Rec};
use std::alloc::Global;

/// The string between two delimiters at the front of a text, and what stands after it; it may be empty.
pub fn delimited(text: &[u8]) -> Option<(&[u8], &[u8])>
    ensures cases { MatchOption result ((string rest : List ℕ) → ¬ IsDelimited text.now string rest) (λ parts. IsDelimited text.now parts.0.now parts.1.now) }
    ensures unclosed { IfNone result (is_delimiter (get_or text.now 0 32) ≡ true → IsUnclosed text.now) }
{
    let [delimiter, after @ ..] = text else {
        return None;
    };
    if *delimiter == b' ' || delimiter.is_ascii_alphanumeric() {
        return None;
    }
    let at = after.find_byte(*delimiter)?;
    Some((&after[..at], &after[at + 1..]))
}

/// The string that a word of `x` and hexadecimal digits stands for, or None for any other word.
pub fn hexadecimal(alloc: Global, word: &[u8]) -> Result<Option<Rec>, NoMemory>
    ensures read { IfOk result (λ found. MatchOption found ((string : List ℕ) → ¬ IsHexadecimal word.now string) (λ string. IsHexadecimal word.now string)) }
    ensures memory { OnErr result ((string : List ℕ) × IsHexadecimal word.now string) }
{
    let Some(digits) = hexadecimal_digits(word) else {
        return Ok(None);
    };
    Ok(Some(decoded(alloc, digits)?))
}

/// The string of pairs of hexadecimal digits.
pub(crate) fn decoded(alloc: Global, digits: &[u8]) -> Result<Rec, NoMemory>
    requires { (string : List ℕ) × (decode_of digits.now ≡ Ok string) }
    ensures { IfOk result (λ string. decode_of digits.now ≡ Ok string) }
{
    match hex::decode(alloc, digits) {
        Ok(bytes) => Ok(Rec::from_vec(bytes)),
        Err(_) => Err(NoMemory),
    }
}

/// The digits of such a word.
pub(crate) fn hexadecimal_digits(word: &[u8]) -> Option<&[u8]>
    ensures { MatchOption result ((string : List ℕ) → ¬ IsHexadecimal word.now string) (λ digits. (string : List ℕ) × (is : IsHexadecimal word.now string) × (is.digits ≡ digits.now)) }
{
    let [b'x', digits @ ..] = word else {
        return None;
    };
    if are_pairs(digits) {
        Some(digits)
    } else {
        None
    }
}

// Whether the bytes are pairs of hexadecimal digits, one pair at least.
fn are_pairs(bytes: &[u8]) -> bool
    ensures { IsTrue result ↔ (0 < length bytes.now) × (length bytes.now % 2 ≡ 0) × (list_all is_ascii_hexdigit bytes.now ≡ true) }
{
    !bytes.is_empty() && bytes.len() % 2 == 0 && are_digits(bytes)
}

// Whether the bytes are hexadecimal digits.
fn are_digits(bytes: &[u8]) -> bool
    ensures { result ≡ list_all is_ascii_hexdigit bytes.now }
{
    bytes.iter().all(|byte| byte.is_ascii_hexdigit())
}
