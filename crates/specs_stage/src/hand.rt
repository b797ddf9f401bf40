ghost use Rattle.std.specs.Prelude.{◌≡◌, ◌≤◌, ◌+◌, ◌-◌, length, MatchOption, IfOk};
ghost use Rattle.pipe_model.specs.Ranges.{cut_by, part_of, words_spanned};
ghost use Rattle.pipe_model.specs.declared.range.Span.TheVariants.{Words};
ghost use Rattle.specs_stage.specs.Hands.{AreEnough, HasNoWord, IsNextWord};

use pipe_model::{NoMemory, Range, Span, behind, first_word, front, without_blanks};
use stage_steps::part_of;
use std::marker::Model;

/// A word of a record: where it begins, and the place behind it.
#[derive(Drop)]
pub(crate) struct Word {
    from: usize,
    to: usize,
}

impl Model for Word {
    ghost use Rattle.std.specs.Prelude.{ℕ};

    ghost Value = { ℕ × ℕ };

    ghost view = { λ word. (word.from, word.to) };
}

/// The record at hand, of which the first words were found so far. A word is looked for once, in whatever order ranges
/// ask for it.
#[derive(Drop)]
pub(crate) struct Hand<'a> {
    rec: &'a [u8],
    // What stands behind the words found.
    rest: &'a [u8],
    found: Vec<Word>,
}

impl<'a> Model for Hand<'a> {
    ghost use Rattle.std.specs.Prelude.{ℕ, List};
    ghost use Rattle.specs_stage.specs.Hands.{AreFound};

    ghost Value = { List ℕ };

    ghost view = { λ hand. hand.rec.now };

    ghost invariant = { λ hand. AreFound hand.rec.now hand.rest.now hand.found.items };
}

// How many words of a record of `len` bytes a range wants found, which may be more than there are.
#[inline]
fn wanted(len: usize, first: u32, last: Option<u32>) -> usize
    ensures { AreEnough len first last result }
{
    match last {
        None => len,
        Some(last) => {
            let (first, last) = (first as usize, last as usize);
            first.saturating_sub(1) + (last + 1).saturating_sub(first)
        }
    }
}

// The first word of what stands at the end of a record of `len` bytes, and what stands behind it.
#[inline]
fn next_word(len: usize, rest: &[u8]) -> Option<(Word, &[u8])>
    requires { length rest.now ≤ len }
    ensures { MatchOption result (HasNoWord len rest.now) (λ next. IsNextWord len rest.now next.0 next.1.now) }
{
    let text = without_blanks(rest);
    if text.is_empty() {
        return None;
    }
    let after = first_word(text).1;
    let word = Word {
        from: len - text.len(),
        to: len - after.len(),
    };
    Some((word, after))
}

// From the first of some words to the end of the last of them.
#[inline]
fn spanned<'a>(rec: &'a [u8], words: &[Word]) -> &'a [u8]
    ensures { result.now ≡ words_spanned words.now rec.now }
{
    if words.is_empty() {
        return &[];
    }
    let first = &words[0];
    let last = &words[words.len() - 1];
    front(behind(rec, first.from), last.to.saturating_sub(first.from))
}

impl<'a> Hand<'a> {
    /// A record of which no word was found so far. The words in `found` are dropped, and their room is used again.
    #[inline(always)]
    pub(crate) fn new(rec: &'a [u8], mut found: Vec<Word>) -> Hand<'a>
        ensures { result ≡ rec.now }
    {
        found.clear();
        Hand {
            rec,
            rest: rec,
            found,
        }
    }

    /// The room for words.
    #[inline(always)]
    pub(crate) fn into_found(self) -> Vec<Word> {
        self.found
    }

    // The part that words name. Those that weren't found so far are looked for; want of memory keeps those found.
    #[inline(never)]
    fn words(&mut self, first: u32, last: Option<u32>) -> Result<&'a [u8], NoMemory>
        ensures stays { self.new ≡ self.old }
        ensures part { IfOk result (λ part. part.now ≡ cut_by Words first last self.old) }
    {
        let rec = self.rec;
        let count = wanted(rec.len(), first, last);
        while self.found.len() < count {
            match next_word(rec.len(), self.rest) {
                Some((word, after)) => {
                    self.found.push(word)?;
                    self.rest = after;
                }
                None => {
                    // Blanks at the end are passed over once.
                    self.rest = &[];
                    break;
                }
            }
        }
        let end = count.min(self.found.len());
        let begin = end.min(first.saturating_sub(1) as usize);
        Ok(spanned(rec, &self.found[begin..end]))
    }

    /// The part that a range names. Want of memory leaves the record.
    #[inline(always)]
    pub(crate) fn part(&mut self, range: Range) -> Result<&'a [u8], NoMemory>
        ensures stays { self.new ≡ self.old }
        ensures part { IfOk result (λ part. part.now ≡ part_of range self.old) }
    {
        match range.span {
            Span::Words => self.words(range.first, range.last),
            Span::Columns | Span::Fields => Ok(part_of(range, self.rec)),
        }
    }
}
