ghost use Rattle.std.specs.Prelude.{◌≤◌, length, drop, IfOk, IfErr, IfSome, MatchOption};
ghost use Rattle.argument_parts.specs.NumberWords.{IsNoNumber, IsNumberIn, IsNumberMisfit};

use crate::digits::number;
use crate::fault::FaultKind;
use crate::part::TextFault;
use pipe_model::first_word;

/// A number, and how many bytes spell it.
#[derive(Clone, Copy, Debug, PartialEq, Eq)]
pub struct SpelledNumber {
    pub value: u64,
    pub len: usize,
}

/// The number, within these limits, that is the first word of a text, or None where that word is no number.
pub fn number_in(text: &[u8], least: u64, most: u64) -> Result<Option<SpelledNumber>, TextFault>
    ensures within { IfOk result (λ found. IfSome found (λ spelled. spelled.len ≤ length text.now)) }
    ensures read { IfOk result (λ found. MatchOption found (IsNoNumber text.now) (λ spelled. IsNumberIn text.now least most spelled.value (drop spelled.len text.now))) }
    ensures refused { IfErr result (IsNumberMisfit text.now least most) }
{
    let (word, _rest) = first_word(text);
    let Some(value) = number(word) else {
        return Ok(None);
    };
    if value < least || value > most {
        return Err(TextFault {
            left: text.len(),
            kind: FaultKind::OutOfRange,
        });
    }
    Ok(Some(SpelledNumber {
        value,
        len: word.len(),
    }))
}
