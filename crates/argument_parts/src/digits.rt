ghost use Rattle.std.specs.Prelude.{◌≡◌, ℕ, MatchOption};
ghost use Rattle.argument_parts.specs.Numbers.{AreFirstDigits, AreFirstOthers, IsNumber};

/// The greatest number of digits.
const MOST_DIGITS: usize = 10;

/// The value of a word of one to ten decimal digits, or None for any other word.
pub fn number(word: &[u8]) -> Option<u64>
    ensures { MatchOption result ((value : ℕ) → ¬ IsNumber word.now value) (λ value. IsNumber word.now value) }
{
    if word.is_empty() || word.len() > MOST_DIGITS {
        return None;
    }
    let mut value: u64 = 0;
    let mut left = word;
    while let [digit, rest @ ..] = left {
        if !digit.is_ascii_digit() {
            return None;
        }
        value = value * 10 + u64::from(*digit - b'0');
        left = rest;
    }
    Some(value)
}

/// The decimal digits at the front of a word, and what stands after them.
pub fn first_digits(word: &[u8]) -> (&[u8], &[u8])
    ensures { AreFirstDigits word.now result.0.now result.1.now }
{
    let mut at = 0;
    while at < word.len() && word[at].is_ascii_digit() {
        at += 1;
    }
    (&word[..at], &word[at..])
}

/// What stands before the first decimal digit of a word, and the rest.
pub fn first_others(word: &[u8]) -> (&[u8], &[u8])
    ensures { AreFirstOthers word.now result.0.now result.1.now }
{
    let mut at = 0;
    while at < word.len() && !word[at].is_ascii_digit() {
        at += 1;
    }
    (&word[..at], &word[at..])
}
