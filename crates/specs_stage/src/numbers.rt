ghost use Rattle.std.specs.Prelude.{◌≡◌, ◌++◌, reverse, OnOk};
ghost use Rattle.std.specs.Fmt.{signed_decimal};
ghost use Rattle.pipe_model.specs.Numbers.{in_ten_places, within_i64, without_blanks, without_blanks_before, is_digit, spelled, spelled_signed, number_in};
ghost use Rattle.pipe_model.specs.SpecsRows.{counter_after};

use itoa::Buffer;
use pipe_model::{NoMemory, SetOp};

// A text without the blanks at its front.
fn without_blanks_before(text: &[u8]) -> &[u8]
    ensures { result.now ≡ without_blanks_before text.now }
{
    let mut rest = text;
    while let [b' ', behind @ ..] = rest {
        rest = behind;
    }
    rest
}

// A text without the blanks at its end.
fn without_blanks_behind(text: &[u8]) -> &[u8]
    ensures { result.now ≡ reverse (without_blanks_before (reverse text.now)) }
{
    let mut rest = text;
    while let [front @ .., b' '] = rest {
        rest = front;
    }
    rest
}

// A text without the blanks at both ends.
pub(crate) fn without_blanks(text: &[u8]) -> &[u8]
    ensures { result.now ≡ without_blanks text.now }
{
    without_blanks_behind(without_blanks_before(text))
}

// The number that 1 to 19 digits spell.
fn spelled(digits: &[u8]) -> Option<u64>
    ensures { result ≡ spelled digits.now }
{
    if digits.is_empty() || digits.len() > 19 {
        return None;
    }
    let mut number = 0u64;
    for byte in digits {
        if *byte < b'0' || *byte > b'9' {
            return None;
        }
        number = 10 * number + (*byte - b'0') as u64;
    }
    Some(number)
}

// The same, with a minus sign or without one.
fn spelled_signed(text: &[u8]) -> Option<i128>
    ensures { result ≡ spelled_signed text.now }
{
    match text {
        [b'-', digits @ ..] => Some(-(spelled(digits)? as i128)),
        digits => Some(spelled(digits)? as i128),
    }
}

// The number, where it is one of 64 bits with a sign.
fn within_i64(number: i128) -> Option<i64>
    ensures { result ≡ within_i64 number }
{
    if number < i64::MIN as i128 || number > i64::MAX as i128 {
        return None;
    }
    Some(number as i64)
}

// The number that a text spells, blanks at its ends left out.
pub(crate) fn number_in(text: &[u8]) -> Option<i64>
    ensures { result ≡ number_in text.now }
{
    within_i64(spelled_signed(without_blanks(text))?)
}

// What a value makes of a counter, where it stays within 64 bits.
pub(crate) fn counter_after(op: SetOp, old: i64, value: i64) -> Option<i64>
    ensures { result ≡ within_i64 (counter_after op old value) }
{
    let (old, value) = (old as i128, value as i128);
    match op {
        SetOp::Put => within_i64(value),
        SetOp::Add => within_i64(old + value),
        SetOp::Subtract => within_i64(old - value),
    }
}

// Adds a number in decimal, with blanks before it up to ten places.
pub(crate) fn add_in_ten_places(text: &mut Vec<u8>, number: u64) -> Result<(), NoMemory>
    ensures { OnOk result (text.new.items ≡ text.old.items ++ in_ten_places number) }
{
    let mut buffer = Buffer::new();
    let digits = buffer.format(number).as_bytes();
    let len = text.len() + 10usize.saturating_sub(digits.len());
    text.resize(len, b' ')?;
    text.extend_from_slice(digits)?;
    Ok(())
}

// Adds a number in decimal, with a minus sign where it is negative.
pub(crate) fn add_signed_decimal(text: &mut Vec<u8>, number: i64) -> Result<(), NoMemory>
    ensures { OnOk result (text.new.items ≡ text.old.items ++ signed_decimal number) }
{
    let mut buffer = Buffer::new();
    text.extend_from_slice(buffer.format(number).as_bytes())?;
    Ok(())
}
