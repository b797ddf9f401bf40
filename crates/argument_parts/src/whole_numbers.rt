ghost use Rattle.std.specs.Prelude.{◌≡◌, ◌≢◌, ◌≤◌, ◌<◌, ◌^◌, ◌++◌, ℕ, List, length, drop, get_or, true, IfOk, IfErr, IfSome, MatchOption};
ghost use Rattle.std.specs.Str.{all_ascii_digits};
ghost use Rattle.pipe_model.specs.Numbers.{within_i64};
ghost use Rattle.argument_parts.specs.Numbers.{decimal};
ghost use Rattle.argument_parts.specs.WholeNumbers.{IsCounter, IsNoWhole, IsWholeIn, IsWholeMisfit, sign_of, signed};

use crate::digits::first_digits;
use crate::fault::FaultKind;
use crate::part::TextFault;
use pipe_model::first_word;

/// No number of 64 bits has more digits than this behind its zeros.
const MOST_DIGITS: usize = 19;

/// A whole number, and how many bytes spell it.
#[derive(Clone, Copy, Debug, PartialEq, Eq)]
pub struct SpelledWhole {
    pub value: i64,
    pub len: usize,
}

/// The whole number that is the first word of a text, or None where that word is none. It may have any number of digits.
pub fn whole(text: &[u8]) -> Result<Option<SpelledWhole>, TextFault>
    ensures within { IfOk result (λ found. IfSome found (λ spelled. spelled.len ≤ length text.now)) }
    ensures read { IfOk result (λ found. MatchOption found (IsNoWhole text.now) (λ spelled. IsWholeIn text.now spelled.value (drop spelled.len text.now))) }
    ensures refused { IfErr result (IsWholeMisfit text.now) }
{
    let (word, _rest) = first_word(text);
    let (minus, unsigned) = sign(word);
    let (digits, others) = first_digits(unsigned);
    if digits.is_empty() || !others.is_empty() {
        return Ok(None);
    }
    match value_of(minus, digits) {
        Some(value) => Ok(Some(SpelledWhole {
            value,
            len: word.len(),
        })),
        None => Err(TextFault {
            left: text.len(),
            kind: FaultKind::OutOfRange,
        }),
    }
}

/// The counter, 0 to 9, that the first word of a text names, or None where that word names none.
pub fn counter(text: &[u8]) -> Option<u8>
    ensures within { IfSome result (λ k. 2 ≤ length text.now) }
    ensures read { MatchOption result ((k : ℕ) (rest : List ℕ) → ¬ IsCounter text.now k rest) (λ k. IsCounter text.now k (drop 2 text.now)) }
{
    let (word, _rest) = first_word(text);
    let [mark, digit] = word else {
        return None;
    };
    if *mark == b'#' && digit.is_ascii_digit() {
        Some(*digit - b'0')
    } else {
        None
    }
}

// A word without the minus sign at its front, and whether there is one.
fn sign(word: &[u8]) -> (bool, &[u8])
    ensures spells { word.now ≡ sign_of result.0 ++ result.1.now }
    ensures signed { get_or word.now 0 0 ≡ 45 → result.0 ≡ true }
{
    match word {
        [b'-', digits @ ..] => (true, digits),
        digits => (false, digits),
    }
}

// The value of digits with or without a minus sign, where it has 64 bits.
fn value_of(minus: bool, digits: &[u8]) -> Option<i64>
    requires digits { all_ascii_digits digits.now ≡ true }
    ensures { result ≡ within_i64 (signed minus (decimal digits.now)) }
{
    let value = i128::from(unsigned_value(without_zeros(digits))?);
    within_i64(if minus { -value } else { value })
}

// The number, where it is one of 64 bits with a sign.
fn within_i64(number: i128) -> Option<i64>
    ensures { result ≡ within_i64 number }
{
    if number < i128::from(i64::MIN) || number > i128::from(i64::MAX) {
        return None;
    }
    Some(number as i64)
}

// The value of digits of which the first is no zero, or None where they are so many that it has more than 64 bits.
fn unsigned_value(digits: &[u8]) -> Option<u64>
    requires digits { all_ascii_digits digits.now ≡ true }
    requires front { get_or digits.now 0 0 ≢ 48 }
    ensures { MatchOption result (10 ^ 19 ≤ decimal digits.now) (λ value. value ≡ decimal digits.now) }
{
    if digits.len() > MOST_DIGITS {
        return None;
    }
    let mut value = 0u64;
    for digit in digits {
        value = 10 * value + u64::from(*digit - b'0');
    }
    Some(value)
}

// Digits without the zeros at their front.
fn without_zeros(digits: &[u8]) -> &[u8]
    requires digits { all_ascii_digits digits.now ≡ true }
    ensures digits { all_ascii_digits result.now ≡ true }
    ensures front { get_or result.now 0 0 ≢ 48 }
    ensures worth { decimal result.now ≡ decimal digits.now }
{
    let mut rest = digits;
    while let [b'0', behind @ ..] = rest {
        rest = behind;
    }
    rest
}
