ghost use Rattle.std.specs.Prelude.{◌≡◌, ◌≤◌, ◌++◌, ℕ, List, [], ◌∷◌, IfErr, IfOk, length, nat_lt};
ghost use Rattle.std.specs.List.{list_any};
ghost use Rattle.spec_scanner.specs.declared.fault.Fault.{Fault};
ghost use Rattle.spec_scanner.specs.declared.fault.SpecFault.{SpecFault};
ghost use Rattle.spec_scanner.specs.Faults.{IsLeastSo};
ghost use Rattle.spec_scanner.specs.Reads.{Reads, Refuses, body_faults, no_escaped, no_piece, read_items};

use crate::body::read_body;
use crate::fault::{Fault, SpecFault, SpecFaultKind, least};
use crate::findings::Findings;
use crate::item::Item;
use crate::labels::Labels;
use crate::options::begin;
use crate::scanned::{Pieces, Scanned};
use crate::stages::read_pipelines;
use pipe_model::NoMemory;
use std::alloc::Global;

/// The greatest length of a text, in bytes.
const LONGEST: usize = 65_536;

/// What a body reads as, with its least fault.
#[derive(Drop)]
struct BodyRead {
    pipelines: Vec<Pieces>,
    fault: Option<Fault>,
}

// Whether there is a piece in any pipeline.
fn has_piece(pipelines: &[Pieces]) -> bool
    ensures { result ≡ list_any (λ pieces. nat_lt 0 (length pieces)) pipelines.now }
{
    pipelines.iter().any(|pieces| pieces.as_slice().len() > 0)
}

// The least fault, with that of an escape character at the end of a text of so many bytes.
fn with_escaped(found: Option<Fault>, is_cut_short: bool, size: u32) -> Option<Fault>
    ensures { (tail : List ℕ) (faults : List Fault) → is_cut_short ≡ nat_lt 0 (length tail) → IsLeastSo found faults → IsLeastSo result (faults ++ no_escaped tail size) }
{
    if is_cut_short {
        let place = size.saturating_sub(1);
        Some(least(found, SpecFaultKind::LoneEscape.at(place)))
    } else {
        found
    }
}

// The least fault, with that of no piece at all in a text of so many bytes.
fn with_no_piece(found: Option<Fault>, pipelines: &[Pieces], size: u32) -> Option<Fault>
    ensures { (faults : List Fault) → IsLeastSo found faults → IsLeastSo result (faults ++ no_piece pipelines.now size) }
{
    if has_piece(pipelines) {
        found
    } else {
        Some(least(found, SpecFaultKind::NoPiece.at(size)))
    }
}

// What the items of a body of a text of so many bytes read as.
fn read_items(
    alloc: Global,
    items: &[Item],
    is_cut_short: bool,
    size: u32,
) -> Result<BodyRead, NoMemory>
    requires { length items.now ≤ 65536 }
    ensures pipelines { IfOk result (λ read. read.pipelines.items ≡ (read_items items.now size).pipelines) }
    ensures fault { IfOk result (λ read. (tail : List ℕ) → is_cut_short ≡ nat_lt 0 (length tail) → IsLeastSo read.fault (body_faults items.now tail size)) }
{
    let mut findings = Findings {
        labels: Labels::new(alloc),
        fault: None,
    };
    let mut pipelines = Vec::new(alloc);
    read_pipelines(alloc, &mut findings, &mut pipelines, size, items)?;
    let fault = with_escaped(findings.fault, is_cut_short, size);
    let fault = with_no_piece(fault, &pipelines, size);
    Ok(BodyRead { pipelines, fault })
}

// Why a text with this least fault isn't read.
fn refused(fault: Fault) -> SpecFault
    ensures { result ≡ SpecFault.Refused fault.number fault.place }
{
    SpecFault::Refused {
        number: fault.number,
        place: fault.place,
    }
}

/// Reads the text of a specification: its options, and its pipelines of stages, references and connectors.
pub fn scan(alloc: Global, text: &[u8]) -> Result<Scanned, SpecFault>
    ensures read { IfOk result (λ scanned. Reads text.now scanned) }
    ensures refused { IfErr result (Refuses text.now) }
{
    if text.len() > LONGEST {
        return Err(refused(SpecFaultKind::TooLong.at(LONGEST as u32)));
    }
    let begun = begin(text);
    if let Some(fault) = begun.fault {
        return Err(refused(fault));
    }
    let body = read_body(alloc, begun.signs, text, begun.start)?;
    let read = read_items(alloc, &body.items, body.is_cut_short, text.len() as u32)?;
    match read.fault {
        Some(fault) => Err(refused(fault)),
        None => Ok(Scanned::from_vec(read.pipelines)),
    }
}
