//! The net of a specification, and those of the lines of a file.
ghost use Rattle.std.specs.Prelude.{◌≡◌, ℕ, List, IfOk, MatchResult};
ghost use Rattle.std.specs.List.{All, AllZip};
ghost use Rattle.pipe_model.specs.Records.{lines};
ghost use Rattle.pipe_model.specs.WellFormed.{IsWellFormed};
ghost use Rattle.spec_scanner.specs.declared.piece.Piece.{Piece};
ghost use Rattle.spec_scanner.specs.Reads.{Reads, Refuses as IsTextRefusedBy};
ghost use Rattle.net_graph.specs.Faults.{Refuses as AreRefusedBy};
ghost use Rattle.net_graph.specs.Fed.{AreUnfiled};
ghost use Rattle.call_meaning.specs.Calls.{IsSetOf, IsSoundSet};
ghost use Rattle.call_meaning.specs.Meaning.{IsNetOf};
ghost use Rattle.call_meaning.specs.Refusals.{IsTextOutcome};

use crate::status::Outcome;
use net_graph::{NetFault, build};
use pipe_model::{Lines, Net, NoMemory};
use spec_scanner::{SpecFault, scan};
use std::alloc::Global;

/// A line of a file of sets: the net of its specification, or its refusal.
#[derive(Drop)]
pub enum Set {
    Whole(Net),
    Refused(Outcome),
}

/// A set for each line of a text, in their order, whose stages are fed nothing yet.
///
/// # Errors
///
/// `NoMemory` where there is no memory for them.
pub fn sets_of(alloc: Global, text: &[u8]) -> Result<Vec<Set>, NoMemory>
    ensures sets { IfOk result (λ sets. AllZip IsSetOf (lines text.now) sets.items) }
    ensures whole { IfOk result (λ sets. All IsSoundSet sets.items) }
{
    let mut sets = Vec::new(alloc);
    for spec in Lines::new(text) {
        sets.push(set_of(alloc, spec)?)?;
    }
    Ok(sets)
}

// The set of a line.
fn set_of(alloc: Global, spec: &[u8]) -> Result<Set, NoMemory>
    ensures set { IfOk result (λ set. IsSetOf spec.now set) }
    ensures whole { IfOk result IsSoundSet }
{
    match net_of(alloc, spec) {
        Ok(net) => Ok(Set::Whole(net)),
        Err(Outcome::NoMemory) => Err(NoMemory),
        Err(outcome) => Ok(Set::Refused(outcome)),
    }
}

// The net of a specification's text, or the outcome of its refusal.
pub(crate) fn net_of(alloc: Global, spec: &[u8]) -> Result<Net, Outcome>
    ensures made { MatchResult result (λ net. IsNetOf spec.now net) (λ outcome. IsTextOutcome spec.now outcome) }
    ensures whole { IfOk result IsWellFormed }
    ensures unfiled { IfOk result AreUnfiled }
{
    let scanned = match scan(alloc, spec) {
        Ok(scanned) => scanned,
        Err(fault) => return Err(unread(fault)),
    };
    match build(alloc, scanned) {
        Ok(net) => Ok(net),
        Err(fault) => Err(unbuilt(fault)),
    }
}

// The outcome of a text that isn't read.
fn unread(fault: SpecFault) -> Outcome
    ensures { (spec : List ℕ) → IsTextRefusedBy spec fault → IsTextOutcome spec result }
{
    match fault {
        SpecFault::NoMemory => Outcome::NoMemory,
        SpecFault::Refused { number, place } => Outcome::SpecRefused {
            number,
            argument: 0,
            place,
        },
    }
}

// The outcome of pieces that make no net.
fn unbuilt(fault: NetFault) -> Outcome
    ensures { (spec : List ℕ) (pipelines : List (List Piece)) → Reads spec pipelines → AreRefusedBy pipelines fault → IsTextOutcome spec result }
{
    match fault {
        NetFault::NoMemory => Outcome::NoMemory,
        NetFault::Refused {
            number,
            argument,
            place,
        } => Outcome::SpecRefused {
            number,
            argument,
            place,
        },
    }
}
