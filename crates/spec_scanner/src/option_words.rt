ghost use Rattle.std.specs.Prelude.{◌≡◌, option_map, option_to_list};
ghost use Rattle.std.specs.Str.{bytes_eq, str_to_ascii_lowercase};
ghost use Rattle.spec_scanner.specs.Options as Options;
ghost use Rattle.spec_scanner.specs.OptionWords.{word_of};

use crate::fault::{Fault, SpecFaultKind};
use crate::signs::{Choice, OptionName};

/// A word among the options, at its place.
#[derive(Clone, Copy)]
pub(crate) struct OptionWord<'a> {
    pub bytes: &'a [u8],
    pub place: u32,
}

// Whether the word is this name, in any case.
fn is_named(word: &[u8], name: &[u8]) -> bool
    ensures { result ≡ bytes_eq (str_to_ascii_lowercase word.now) (str_to_ascii_lowercase name.now) }
{
    word.eq_ignore_ascii_case(name)
}

// The option of a word.
pub(crate) fn named_option(word: &[u8]) -> Option<OptionName>
    ensures { result ≡ Options.option_of word.now }
{
    if is_named(word, b"stagesep") || is_named(word, b"sep") {
        Some(OptionName::Separator)
    } else if is_named(word, b"endchar") || is_named(word, b"end") {
        Some(OptionName::End)
    } else if is_named(word, b"escape") || is_named(word, b"esc") {
        Some(OptionName::Escape)
    } else if is_named(word, b"name") {
        Some(OptionName::Name)
    } else {
        None
    }
}

// Whether the byte may be chosen.
fn may_choose(byte: u8) -> bool
    ensures { result ≡ Options.may_be_chosen byte }
{
    byte > b' '
        && byte < 0x7f
        && !byte.is_ascii_alphanumeric()
        && byte != b'('
        && byte != b')'
        && byte != b'*'
        && byte != b'.'
        && byte != b':'
}

// Whether the word is one byte that may be chosen.
fn is_chosen(word: &[u8]) -> bool
    ensures { result ≡ Options.is_choice word.now }
{
    match word {
        [byte] => may_choose(*byte),
        _ => false,
    }
}

// What a value chooses, if it may be chosen.
pub(crate) fn choice_at(value: Option<OptionWord<'_>>) -> Option<Choice>
    ensures { result ≡ Options.chosen (option_map word_of value.entry) }
{
    match value {
        Some(word) if is_chosen(word.bytes) => Some(Choice {
            byte: word.bytes[0],
            place: word.place,
        }),
        _ => None,
    }
}

// Whether the value of an option must be a choice.
fn needs_choice(name: Option<OptionName>) -> bool
    ensures { result ≡ Options.must_choose name }
{
    match name {
        Some(OptionName::Separator | OptionName::End | OptionName::Escape) => true,
        Some(OptionName::Name) | None => false,
    }
}

// The fault of a value, which is missing, or isn't what its option needs.
pub(crate) fn value_fault(
    name: Option<OptionName>,
    value: Option<OptionWord<'_>>,
    close: u32,
) -> Option<Fault>
    ensures { option_to_list result ≡ Options.value_faults close name (option_map word_of value.entry) }
{
    match value {
        None => Some(SpecFaultKind::BadValue.at(close)),
        Some(word) if needs_choice(name) && !is_chosen(word.bytes) => {
            Some(SpecFaultKind::BadValue.at(word.place))
        }
        Some(_) => None,
    }
}
