//! What a text begins with.
ghost use Rattle.std.specs.Prelude.{◌≡◌, ℕ, ◌^◌, ◌<◌, ◌≤◌, List, ◌∷◌, ◌++◌, ◌↔◌, length, slice_index, decimal, MatchOption, IfNone, IfSome, IsTrue};
ghost use Rattle.pipe_model.specs.declared.step.Entry.{Entry};
ghost use Rattle.journal_file.specs.Faults.{LacksFront};
ghost use Rattle.journal_file.specs.Text.{end_line, entry_line, most_entries, IsEntry};

use crate::entries::MOST_ENTRIES;
use pipe_model::Entry;

/// What stands behind the front, where the text begins with it.
pub(crate) fn behind<'a>(text: &'a [u8], front: &[u8]) -> Option<&'a [u8]>
    ensures { MatchOption result (LacksFront text.now front.now) (λ rest. text.now ≡ front.now ++ rest.now) }
{
    text.strip_prefix(front)
}

// Whether there are digits, and no needless zero before them.
fn is_plain(digits: &[u8]) -> bool
    ensures { IsTrue result ↔ ((0 < length digits.now) × (slice_index digits.now 0 ≡ 48 → length digits.now ≡ 1)) }
{
    match digits {
        [] => false,
        [_] => true,
        [first, ..] => *first != b'0',
    }
}

/// The number that the text begins with, and what stands behind the byte after it: a number of at most `most`, in
/// decimal without leading zeros.
pub(crate) fn number_before(text: &[u8], end: u8, most: u64) -> Option<(u64, &[u8])>
    requires no_digit { end < 48 }
    requires short { most < 2 ^ 60 }
    ensures found { IfSome result (λ x. (x.0 ≤ most) × (text.now ≡ decimal x.0 ++ (end ∷ x.1.now))) }
    ensures none { IfNone result ((n : ℕ) (rest : List ℕ) → n ≤ most → ¬ (text.now ≡ decimal n ++ (end ∷ rest))) }
{
    let mut value: u64 = 0;
    let mut left = text;
    while let [byte, rest @ ..] = left {
        if *byte == end {
            let digits = &text[..text.len() - left.len()];
            return if is_plain(digits) {
                Some((value, rest))
            } else {
                None
            };
        }
        if !byte.is_ascii_digit() {
            return None;
        }
        value = value * 10 + u64::from(*byte - b'0');
        if value > most {
            return None;
        }
        left = rest;
    }
    None
}

// The entry whose line the text begins with, and what stands behind the line.
fn entry_before(text: &[u8]) -> Option<(Entry, &[u8])>
    ensures found { IfSome result (λ x. IsEntry x.0 × (text.now ≡ entry_line x.0 ++ x.1.now)) }
    ensures none { IfNone result ((entry : Entry) → IsEntry entry → LacksFront text.now (entry_line entry)) }
{
    let (strand, rest) = number_before(text, b' ', u32::MAX as u64)?;
    let (stream, rest) = number_before(rest, b'\n', u16::MAX as u64)?;
    let entry = Entry {
        strand: strand as u32,
        stream: stream as u16,
    };
    Some((entry, rest))
}

/// The entry whose line stands behind so many, and what stands behind it; none where there may be no more.
pub(crate) fn next_entry(text: &[u8], count: u64) -> Option<(Entry, &[u8])>
    ensures found { IfSome result (λ x. (count < most_entries) × IsEntry x.0 × (text.now ≡ entry_line x.0 ++ x.1.now)) }
    ensures none { IfNone result ((entry : Entry) → IsEntry entry → count < most_entries → LacksFront text.now (entry_line entry)) }
{
    if count < MOST_ENTRIES {
        entry_before(text)
    } else {
        None
    }
}

/// What stands behind the last line of so many entries, where the text begins with it.
pub(crate) fn behind_end(text: &[u8], count: u64) -> Option<&[u8]>
    requires { count ≤ most_entries }
    ensures { MatchOption result (LacksFront text.now (end_line count)) (λ rest. text.now ≡ end_line count ++ rest.now) }
{
    let number = behind(text, b"end ")?;
    let (told, rest) = number_before(number, b'\n', MOST_ENTRIES)?;
    if told == count { Some(rest) } else { None }
}
