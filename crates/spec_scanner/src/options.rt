ghost use Rattle.std.specs.Prelude.{◌≡◌, ◌+◌, ◌≤◌, [], List, MatchOption, length};
ghost use Rattle.pipe_model.specs.Words.{IsUnblanked};
ghost use Rattle.spec_scanner.specs.Faults.{IsLeastSo};
ghost use Rattle.spec_scanner.specs.Options as Options;
ghost use Rattle.spec_scanner.specs.OptionWords.{word_of};
ghost use Rattle.spec_scanner.specs.Settings.{IsReadOf};

use crate::fault::{Fault, SpecFaultKind};
use crate::option_words::OptionWord;
use crate::settings::{OptionsRead, least_with_clashes, nothing_read, read_pair, signs_of};
use crate::signs::Signs;
use bstr::ByteSlice;
use pipe_model::{first_word, without_blanks};

/// How a text begins: the characters in force, the place of its body, and the least fault of its options.
#[derive(Clone, Copy)]
pub(crate) struct Begun {
    pub signs: Signs,
    pub start: usize,
    pub fault: Option<Fault>,
}

// The first word of a text that begins at a place, and what stands after it.
fn next_word(text: &[u8], at: u32) -> Option<(OptionWord<'_>, &[u8])>
    requires { at + length text.now ≤ 65536 }
    ensures { MatchOption result (IsUnblanked text.now []) (λ next. Options.IsWordAt at text.now (word_of next.0) next.1.now) }
{
    let front = without_blanks(text);
    if front.is_empty() {
        return None;
    }
    let (bytes, rest) = first_word(front);
    let place = at + (text.len() - front.len()) as u32;
    Some((OptionWord { bytes, place }, rest))
}

// The place after a word.
fn after(word: OptionWord<'_>) -> u32
    requires { word.place + length word.bytes.now ≤ 65536 }
    ensures { result ≡ word.entry.place + length word.entry.bytes.now }
{
    word.place + word.bytes.len() as u32
}

// What the words say that stand between the parentheses, after a place.
fn read_words(inside: &[u8], start: u32) -> OptionsRead
    requires { start + length inside.now ≤ 65536 }
    ensures { (words : List Options.Word) × Options.AreWords start inside.now words × IsReadOf (start + length inside.now) (Options.pairs_of words) result }
{
    let close = start + inside.len() as u32;
    let mut read = nothing_read(close);
    let mut rest = inside;
    let mut at = start;
    while let Some((word, after_word)) = next_word(rest, at) {
        let Some((value, after_value)) = next_word(after_word, after(word)) else {
            return read_pair(read, word, None, close);
        };
        read = read_pair(read, word, Some(value), close);
        rest = after_value;
        at = after(value);
    }
    read
}

// How a text begins that has no options, with its body at a place.
fn without_options(start: usize, fault: Option<Fault>) -> Begun
    ensures { result ≡ record { signs = Options.no_signs; start = start; fault = fault } }
{
    Begun {
        signs: Signs {
            separator: b'|',
            end: None,
            escape: None,
        },
        start,
        fault,
    }
}

/// How a text begins.
pub(crate) fn begin(text: &[u8]) -> Begun
    requires short { length text.now ≤ 65536 }
    ensures begins { (outset : Options.Outset) × Options.BeginsAs text.now outset × (outset.signs ≡ result.signs) × (outset.start ≡ result.start) × IsLeastSo result.fault outset.faults }
    ensures within { result.start ≤ length text.now }
{
    let front = without_blanks(text);
    let blanks = text.len() - front.len();
    let [b'(', after_open @ ..] = front else {
        return without_options(blanks, None);
    };
    let Some(size) = after_open.find_byte(b')') else {
        let unclosed = SpecFaultKind::OpenOptions.at(blanks as u32);
        return without_options(text.len(), Some(unclosed));
    };
    let inside = &after_open[..size];
    let read = read_words(inside, blanks as u32 + 1);
    Begun {
        signs: signs_of(&read.settings),
        start: blanks + 1 + size + 1,
        fault: least_with_clashes(read.fault, &read.settings),
    }
}
