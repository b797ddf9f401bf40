ghost use Rattle.std.specs.Prelude.{◌≡◌, ◌==◌, ◌+◌, ◌-◌, ◌<◌, Option, ℕ, List, drop, take, not};
ghost use Rattle.std.specs.List.{slice_split, join_with_byte, position_or_len};
ghost use Rattle.pipe_model.specs.Ranges.{between, cut_by, part_of, words_from, words_spanned};
ghost use Rattle.pipe_model.specs.declared.range.Span.TheVariants.{Words, Fields};
ghost use Rattle.stage_steps.specs.Parts.{AreBehind, WordsBehind};

use bstr::ByteSlice;
use pipe_model::{Range, Span, behind, first_word, front, without_blanks};

// How many members a range has, which may be more than there are.
fn width(first: u32, last: u32) -> usize
    ensures { result ≡ last + 1 - first }
{
    (last as usize + 1).saturating_sub(first as usize)
}

// The columns of a record.
#[inline(always)]
fn columns(rec: &[u8], first: u32, last: Option<u32>) -> &[u8]
    ensures { result.now ≡ between first last rec.now }
{
    // Most often a range is all of the record.
    let rest = if first <= 1 {
        rec
    } else {
        behind(rec, (first - 1) as usize)
    };
    match last {
        None => rest,
        Some(last) => front(rest, width(first, last)),
    }
}

// What stands behind the first fields.
fn behind_fields(rec: &[u8], count: usize) -> &[u8]
    ensures { AreBehind count rec.now result.now }
{
    let mut rest = rec;
    for _ in 0..count {
        match rest.find_byte(b'\t') {
            Some(tab) => rest = &rest[tab + 1..],
            None => return &[],
        }
    }
    rest
}

// The first fields, with the tabs between them.
fn front_fields(rec: &[u8], count: usize) -> &[u8]
    ensures { result.now ≡ join_with_byte 9 (take count (slice_split (λ b. b == 9) rec.now)) }
{
    let mut rest = rec;
    for _ in 0..count {
        match rest.find_byte(b'\t') {
            Some(tab) => rest = &rest[tab + 1..],
            None => return rec,
        }
    }
    if count == 0 {
        &[]
    } else {
        front(rec, rec.len() - rest.len() - 1)
    }
}

// The fields of a record.
fn fields(rec: &[u8], first: u32, last: Option<u32>) -> &[u8]
    ensures { result.now ≡ cut_by Fields first last rec.now }
{
    let rest = behind_fields(rec, first.saturating_sub(1) as usize);
    match last {
        None => rest,
        Some(last) => front_fields(rest, width(first, last)),
    }
}

// What stands behind the first words.
fn behind_words(rec: &[u8], count: usize) -> &[u8]
    ensures { WordsBehind count rec.now result.now }
{
    let mut rest = rec;
    for _ in 0..count {
        if rest.is_empty() {
            return rest;
        }
        rest = first_word(without_blanks(rest)).1;
    }
    rest
}

// From the front of a text, which is that of a word, to the end of its last word of so many.
fn front_words(text: &[u8], count: usize) -> &[u8]
    requires { position_or_len (λ b. not (b == 32)) text.now ≡ 0 }
    ensures { (at : ℕ) (rec : List ℕ) → text.now ≡ drop at rec → result.now ≡ words_spanned (take count (words_from at text.now)) rec }
{
    let mut rest = text;
    for _ in 0..count {
        let word = without_blanks(rest);
        if word.is_empty() {
            return front(text, text.len() - rest.len());
        }
        rest = first_word(word).1;
    }
    front(text, text.len() - rest.len())
}

// The words of a record.
fn words(rec: &[u8], first: u32, last: Option<u32>) -> &[u8]
    ensures { result.now ≡ cut_by Words first last rec.now }
{
    let text = without_blanks(behind_words(rec, first.saturating_sub(1) as usize));
    match last {
        None => front_words(text, text.len()),
        Some(last) => front_words(text, width(first, last)),
    }
}

/// The part of a record that a range names.
#[inline(always)]
pub fn part_of(range: Range, rec: &[u8]) -> &[u8]
    ensures { result.now ≡ part_of range rec.now }
{
    match range.span {
        Span::Columns => columns(rec, range.first, range.last),
        Span::Words => words(rec, range.first, range.last),
        Span::Fields => fields(rec, range.first, range.last),
    }
}
