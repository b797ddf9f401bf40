ghost use Rattle.std.specs.Prelude.{◌≡◌, ◌==◌, ◌&&◌, ◌++◌, ◌∷◌, List, [], if◌then◌else◌, nat_lt, option_to_list};
ghost use Rattle.std.specs.List.{flat_map, list_any};
ghost use Rattle.spec_scanner.specs.declared.fault.Fault.{Fault};
ghost use Rattle.spec_scanner.specs.declared.fault.SpecFaultKind.TheVariants.{BadOption};
ghost use Rattle.spec_scanner.specs.Faults.{IsLeastSo, fault};
ghost use Rattle.spec_scanner.specs.Options.{Pair, clash, clashes, listed};
ghost use Rattle.spec_scanner.specs.OptionWords.{pair_of};
ghost use Rattle.spec_scanner.specs.Settings as Specs;

use crate::fault::{Fault, SpecFaultKind, least};
use crate::option_words::{OptionWord, choice_at, named_option, value_fault};
use crate::signs::{Choice, OptionName, Signs};

/// Whether an option is given, and what its first pair chooses.
#[derive(Clone, Copy)]
pub(crate) struct Setting {
    pub is_given: bool,
    pub choice: Option<Choice>,
}

/// What the options say.
#[derive(Clone, Copy)]
pub(crate) struct Settings {
    pub separator: Setting,
    pub end: Setting,
    pub escape: Setting,
    pub name: Setting,
}

// The fault of an option's word, which is unknown or given already.
fn word_fault(is_new: bool, place: u32) -> Option<Fault>
    ensures { option_to_list result ≡ (if is_new then [] else fault BadOption place ∷ []) }
{
    if is_new {
        None
    } else {
        Some(SpecFaultKind::BadOption.at(place))
    }
}

// The least fault, where perhaps one more was found.
pub(crate) fn least_also(found: Option<Fault>, other: Option<Fault>) -> Option<Fault>
    ensures { (faults : List Fault) → IsLeastSo found faults → IsLeastSo result (faults ++ option_to_list other) }
{
    match other {
        Some(fault) => Some(least(found, fault)),
        None => found,
    }
}

// The setting of an option.
fn at_option(settings: &Settings, name: OptionName) -> Setting
    ensures { result ≡ Specs.setting_of settings.now name }
{
    match name {
        OptionName::Separator => settings.separator,
        OptionName::End => settings.end,
        OptionName::Escape => settings.escape,
        OptionName::Name => settings.name,
    }
}

// The settings with another one of this option.
fn with_option(mut settings: Settings, name: OptionName, setting: Setting) -> Settings
    ensures { result ≡ Specs.with_setting settings name setting }
{
    match name {
        OptionName::Separator => settings.separator = setting,
        OptionName::End => settings.end = setting,
        OptionName::Escape => settings.escape = setting,
        OptionName::Name => settings.name = setting,
    }
    settings
}

// Whether the option is known and not given yet.
fn is_fresh(settings: &Settings, name: Option<OptionName>) -> bool
    ensures { result ≡ Specs.is_new_in settings.now name }
{
    match name {
        Some(name) => !at_option(settings, name).is_given,
        None => false,
    }
}

// The settings after one more pair of this option, whose value chooses this.
fn settle(settings: Settings, name: Option<OptionName>, choice: Option<Choice>) -> Settings
    ensures { result ≡ Specs.settled settings name choice }
{
    match name {
        Some(name) if !at_option(&settings, name).is_given => with_option(
            settings,
            name,
            Setting {
                is_given: true,
                choice,
            },
        ),
        _ => settings,
    }
}

/// What was read of the options so far: what they say, and their least fault.
#[derive(Clone, Copy)]
pub(crate) struct OptionsRead {
    pub settings: Settings,
    pub fault: Option<Fault>,
}

/// What was read of no pairs.
pub(crate) fn nothing_read(close: u32) -> OptionsRead
    ensures { Specs.IsReadOf close [] result }
{
    let none = Setting {
        is_given: false,
        choice: None,
    };
    OptionsRead {
        settings: Settings {
            separator: none,
            end: none,
            escape: none,
            name: none,
        },
        fault: None,
    }
}

/// What was read of one pair more.
pub(crate) fn read_pair(
    read: OptionsRead,
    word: OptionWord<'_>,
    value: Option<OptionWord<'_>>,
    close: u32,
) -> OptionsRead
    ensures { (pairs : List Pair) → Specs.IsReadOf close pairs read → Specs.IsReadOf close (pairs ++ pair_of word.entry value.entry ∷ []) result }
{
    let name = named_option(word.bytes);
    let of_word = word_fault(is_fresh(&read.settings, name), word.place);
    let of_value = value_fault(name, value, close);
    OptionsRead {
        settings: settle(read.settings, name, choice_at(value)),
        fault: least_also(least_also(read.fault, of_word), of_value),
    }
}

// The separator that is in force.
fn separator(settings: &Settings) -> Choice
    ensures { result ≡ Specs.separator_in settings.now }
{
    settings.separator.choice.unwrap_or(Choice {
        byte: b'|',
        place: 0,
    })
}

// Whether the choice is of the same character as another one that stands before it.
fn is_chosen_again(other: Option<Choice>, choice: Choice) -> bool
    ensures { result ≡ list_any (λ first. first.byte == choice.byte && nat_lt first.place choice.place) (listed other) }
{
    match other {
        Some(first) => first.byte == choice.byte && first.place < choice.place,
        None => false,
    }
}

// The fault of a choice, if there is one.
fn clash_fault(settings: &Settings, choice: Option<Choice>) -> Option<Fault>
    ensures { option_to_list result ≡ flat_map (clash (Specs.all_in settings.now)) (listed choice) }
{
    let choice = choice?;
    if is_chosen_again(Some(separator(settings)), choice)
        || is_chosen_again(settings.end.choice, choice)
        || is_chosen_again(settings.escape.choice, choice)
    {
        Some(SpecFaultKind::BadValue.at(choice.place))
    } else {
        None
    }
}

/// The least fault, with those of characters that are chosen twice.
pub(crate) fn least_with_clashes(found: Option<Fault>, settings: &Settings) -> Option<Fault>
    ensures { (faults : List Fault) → IsLeastSo found faults → IsLeastSo result (faults ++ clashes (Specs.all_in settings.now)) }
{
    let of_separator = clash_fault(settings, Some(separator(settings)));
    let of_end = clash_fault(settings, settings.end.choice);
    let of_escape = clash_fault(settings, settings.escape.choice);
    least_also(
        least_also(least_also(found, of_separator), of_end),
        of_escape,
    )
}

/// The characters that are in force.
pub(crate) fn signs_of(settings: &Settings) -> Signs
    ensures { result ≡ Specs.signs_in settings.now }
{
    Signs {
        separator: separator(settings).byte,
        end: settings.end.choice.map(|choice| choice.byte),
        escape: settings.escape.choice.map(|choice| choice.byte),
    }
}
