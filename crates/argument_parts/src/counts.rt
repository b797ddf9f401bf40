ghost use Rattle.std.specs.Prelude.{◌≤◌, ℕ, List, [], ◌∷◌, length, drop, IfOk, IfErr, IfSome, MatchOption};
ghost use Rattle.argument_parts.specs.NumberWords.{IsNoNumber, IsNumberMisfit};
ghost use Rattle.argument_parts.specs.Parts.{AreTimes, most_times};
ghost use Rattle.pipe_model.specs.Words.{IsFirstWord};

use crate::number_words::number_in;
use crate::part::TextFault;
use pipe_model::{Times, first_word};

/// The greatest count.
const MOST: u32 = 2_147_483_647;

/// A count, and how many bytes spell it.
#[derive(Clone, Copy)]
pub struct SpelledTimes {
    pub times: Times,
    pub len: usize,
}

/// The count that is the first word of a text, `*` or a number, or None where that word is neither.
pub fn times(text: &[u8]) -> Result<Option<SpelledTimes>, TextFault>
    ensures within { IfOk result (λ found. IfSome found (λ spelled. spelled.len ≤ length text.now)) }
    ensures read { IfOk result (λ found. MatchOption found (IsNoNumber text.now × ((rest : List ℕ) → ¬ IsFirstWord text.now (42 ∷ []) rest)) (λ spelled. AreTimes text.now spelled.times (drop spelled.len text.now))) }
    ensures refused { IfErr result (IsNumberMisfit text.now 0 most_times) }
{
    let (word, _rest) = first_word(text);
    if word == b"*".as_slice() {
        return Ok(Some(SpelledTimes {
            times: Times::All,
            len: word.len(),
        }));
    }
    match number_in(text, 0, u64::from(MOST))? {
        Some(spelled) => Ok(Some(SpelledTimes {
            times: Times::Only(spelled.value as u32),
            len: spelled.len,
        })),
        None => Ok(None),
    }
}
