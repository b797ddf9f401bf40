ghost use Rattle.std.specs.Prelude.{◌≡◌, ◌<◌, ◌≤◌, IfSome, option_map};
ghost use Rattle.call_words.specs.Command.{is_on, name_if, name_in, number_in, number_or, set_steps_in, steps_in, workers_in};
ghost use Rattle.call_words.specs.Gives.{Gives};

use crate::command::WordsFault;
use argument_parts::number;
use pipe_model::Rec;
use std::alloc::Global;

/// The most bytes of a name.
const MOST_NAME: usize = 255;

// The number of workers of a word, 4 where there is none.
pub fn workers_in(word: Option<&str>) -> Option<u32>
    ensures workers { result ≡ workers_in (option_map (λ word. word.now) word.entry) }
    ensures few { IfSome result (λ workers. (0 < workers) × (workers ≤ 64)) }
{
    let workers = number_or(4, 1, 64, word)?;
    Some(workers as u32)
}

// The number of steps of a word, 4,000,000 where there is none.
pub fn steps_in(word: Option<&str>) -> Option<u64>
    ensures steps { result ≡ steps_in (option_map (λ word. word.now) word.entry) }
    ensures few { IfSome result (λ steps. steps ≤ 50000000) }
{
    number_or(4_000_000, 1, 50_000_000, word)
}

// The number of steps of a set, 100,000 where there is no word.
pub fn set_steps_in(word: Option<&str>) -> Option<u64>
    ensures steps { result ≡ set_steps_in (option_map (λ word. word.now) word.entry) }
    ensures few { IfSome result (λ steps. (0 < steps) × (steps ≤ 50000000)) }
{
    number_or(100_000, 1, 50_000_000, word)
}

// The number of lines of the sample.
pub fn lines_in(word: &str) -> Option<u32>
    ensures { result ≡ number_in 1 200000 word.now }
{
    let lines = number_in(1, 200_000, word)?;
    Some(lines as u32)
}

// The number of a word, or the default where there is none.
fn number_or(default: u64, least: u64, most: u64, word: Option<&str>) -> Option<u64>
    ensures number { result ≡ number_or default least most (option_map (λ word. word.now) word.entry) }
    ensures least { least ≤ default → IfSome result (λ number. least ≤ number) }
    ensures most { default ≤ most → IfSome result (λ number. number ≤ most) }
{
    match word {
        None => Some(default),
        Some(word) => number_in(least, most, word),
    }
}

// The number of a word, from `least` to `most`.
fn number_in(least: u64, most: u64, word: &str) -> Option<u64>
    ensures number { result ≡ number_in least most word.now }
    ensures least { IfSome result (λ number. least ≤ number) }
    ensures most { IfSome result (λ number. number ≤ most) }
{
    match number(word.as_bytes()) {
        Some(number) if least <= number && number <= most => Some(number),
        _ => None,
    }
}

// The name that a word is.
pub fn name_in(alloc: Global, word: &str) -> Result<Rec, WordsFault>
    ensures { Gives (name_in word.now) result }
{
    if word.is_empty() || word.len() > MOST_NAME {
        return Err(WordsFault::Usage);
    }
    Ok(Rec::from_slice(alloc, word.as_bytes())?)
}

// The name that a word is, if there is one.
pub fn name_if(alloc: Global, word: Option<&str>) -> Result<Option<Rec>, WordsFault>
    ensures { Gives (name_if (option_map (λ word. word.now) word.entry)) result }
{
    match word {
        None => Ok(None),
        Some(word) => Ok(Some(name_in(alloc, word)?)),
    }
}

// Whether a flag is given, by its word.
pub fn is_on(word: Option<&str>) -> bool
    ensures { result ≡ is_on (option_map (λ word. word.now) word.entry) }
{
    match word {
        None => false,
        Some(word) => word == "true",
    }
}
