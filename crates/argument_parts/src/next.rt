ghost use Rattle.std.specs.Prelude.{◌≡◌, ◌≢◌, ◌≤◌, ℕ, List, length, drop, get_or, IfOk, IfErr, IfSome, MatchOption};
ghost use Rattle.argument_parts.specs.declared.part.Value.{Value};
ghost use Rattle.argument_parts.specs.Parts.{IsAtEnd, IsFirstPart, IsMisfitOf, IsNext, IsNoNext, fault_of, fault_of_last};
ghost use Rattle.argument_parts.specs.Refusals.{Refuses, Wants};

use crate::fault::FaultKind;
use crate::part::{Part, TextFault, Value};
use crate::refusal::Refusal;
use crate::taken::{Taken, part_at};
use pipe_model::without_blanks;
use std::alloc::Global;

/// An argument that was read, how many bytes are left of the text where it begins, and how many spell it, with any blanks before it.
#[derive(Drop)]
pub struct Argument {
    pub value: Value,
    pub left: usize,
    pub len: usize,
}

/// The next argument of a text, which is the first of these parts that it fits, or None where nothing but blanks comes.
pub fn next_part(alloc: Global, parts: &[Part], text: &[u8]) -> Result<Option<Argument>, Refusal>
    ensures within { IfOk result (λ found. IfSome found (λ argument. argument.len ≤ length text.now)) }
    ensures read { IfOk result (λ found. MatchOption found (IsAtEnd text.now) (λ argument. (next : IsNext parts.now text.now argument.value (drop argument.len text.now)) × (argument.left ≡ length next.front))) }
    ensures refused { IfErr result (Refuses (IsNoNext parts.now text.now)) }
    ensures memory { IfErr result (Wants ((value : Value) × (rest : List ℕ) × IsNext parts.now text.now value rest)) }
{
    let front = without_blanks(text);
    if front.is_empty() {
        return Ok(None);
    }
    let taken = first_part(alloc, parts, front)?;
    Ok(Some(Argument {
        value: taken.value,
        left: front.len(),
        len: text.len() - front.len() + taken.len,
    }))
}

// The first of the parts that a text fits. Where it fits none, the first that it begins as tells the fault.
fn first_part(alloc: Global, parts: &[Part], text: &[u8]) -> Result<Taken, Refusal>
    requires begins { get_or text.now 0 32 ≢ 32 }
    ensures within { IfOk result (λ taken. taken.len ≤ length text.now) }
    ensures read { IfOk result (λ taken. IsFirstPart parts.now text.now taken.value (drop taken.len text.now)) }
    ensures refused { IfErr result (Refuses (IsMisfitOf parts.now text.now)) }
    ensures memory { IfErr result (Wants ((value : Value) × (rest : List ℕ) × IsFirstPart parts.now text.now value rest)) }
{
    let mut first: Option<TextFault> = None;
    for part in parts {
        match part_at(alloc, *part, text) {
            Ok(Some(taken)) => return Ok(taken),
            Ok(None) => {}
            Err(Refusal::Fault(fault)) => first = Some(first.unwrap_or(fault)),
            Err(Refusal::NoMemory) => return Err(Refusal::NoMemory),
        }
    }
    match first {
        Some(fault) => Err(Refusal::Fault(fault)),
        None => Err(Refusal::at(text, last_fault(parts))),
    }
}

// The fault of a word that begins as no part that may come.
fn last_fault(parts: &[Part]) -> FaultKind
    ensures { result ≡ fault_of_last parts.now }
{
    match parts.last() {
        None => FaultKind::Extra,
        Some(part) => other_fault(*part),
    }
}

// The fault of a word that doesn't begin as a part.
fn other_fault(part: Part) -> FaultKind
    ensures { result ≡ fault_of part }
{
    match part {
        Part::Range | Part::Columns | Part::Number { .. } | Part::Times | Part::Whole =>
            FaultKind::NotANumber,
        _ => FaultKind::UnknownWord,
    }
}
