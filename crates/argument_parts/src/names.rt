ghost use Rattle.std.specs.Prelude.{◌≤◌, ℕ, List, length, drop, IfOk, IfErr};
ghost use Rattle.argument_parts.specs.NamesOfFiles.{IsName, IsNameMisfit};
ghost use Rattle.argument_parts.specs.Refusals.{Refuses, Wants};

use crate::fault::FaultKind;
use crate::refusal::Refusal;
use crate::text::Spelled;
use pipe_model::{Rec, first_word};
use std::alloc::Global;

/// The greatest length of a name.
const LONGEST: usize = 255;

/// The name that is the first word of a text.
pub fn name(alloc: Global, text: &[u8]) -> Result<Spelled, Refusal>
    ensures within { IfOk result (λ spelled. spelled.len ≤ length text.now) }
    ensures read { IfOk result (λ spelled. IsName text.now spelled.string (drop spelled.len text.now)) }
    ensures refused { IfErr result (Refuses (IsNameMisfit text.now)) }
    ensures memory { IfErr result (Wants ((name : List ℕ) × (rest : List ℕ) × IsName text.now name rest)) }
{
    let (word, _rest) = first_word(text);
    if word.len() > LONGEST {
        return Err(Refusal::at(text, FaultKind::OutOfRange));
    }
    Ok(Spelled {
        string: Rec::from_slice(alloc, word)?,
        len: word.len(),
    })
}
