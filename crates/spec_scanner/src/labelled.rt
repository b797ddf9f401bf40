ghost use Rattle.std.specs.Prelude.{◌≡◌, ◌≤◌, [], ◌∷◌, IfOk};
ghost use Rattle.std.specs.Char.{is_ascii_alphanumeric};
ghost use Rattle.std.specs.List.{list_all};
ghost use Rattle.spec_scanner.specs.Additions.{AddsFound, load};
ghost use Rattle.spec_scanner.specs.Labels.{bad_label, define, good_label, labelled, number_of, refer};
ghost use Rattle.spec_scanner.specs.Pieces as Pieces;

use crate::fault::SpecFaultKind;
use crate::findings::Findings;
use crate::item::Item;
use crate::piece::{Piece, PieceKind};
use crate::pieces::{named_piece, reference_piece};
use pipe_model::NoMemory;
use std::alloc::Global;

// A use of a label.
fn refer(alloc: Global, findings: &mut Findings, name: &[u8], place: u32, end: u32) -> Piece
    requires { load findings.old.labels ≤ 32768 }
    ensures { AddsFound findings.old findings.new [] (result ∷ []) (refer findings.old.labels name.now place end (number_of findings.old.labels name.now)) }
{
    let Some(number) = findings.labels.number_of(name) else {
        findings.note(SpecFaultKind::UnknownLabel.at(place));
        return reference_piece(alloc, None, 0, place, end);
    };
    let uses = findings.labels.use_of(number);
    reference_piece(alloc, Some(number as u32), uses, place, end)
}

// A definition of a label, with its stage.
fn define(
    alloc: Global,
    findings: &mut Findings,
    name: Vec<u8>,
    place: u32,
    items: &[Item],
) -> Result<Piece, NoMemory>
    requires { load findings.old.labels ≤ 32768 }
    ensures { IfOk result (λ piece. AddsFound findings.old findings.new [] (piece ∷ []) (define findings.old.labels name.items place items.now (number_of findings.old.labels name.items))) }
{
    if findings.labels.number_of(&name).is_some() {
        findings.note(SpecFaultKind::LabelTwice.at(place));
        return named_piece(alloc, PieceKind::Stage, None, place, items);
    }
    let number = findings.labels.len() as u32;
    findings.labels.define(name)?;
    named_piece(alloc, PieceKind::Stage, Some(number), place, items)
}

// A bad label, with its stage or without one.
fn bad_label(
    alloc: Global,
    findings: &mut Findings,
    place: u32,
    end: u32,
    items: &[Item],
) -> Result<Piece, NoMemory>
    ensures { IfOk result (λ piece. AddsFound findings.old findings.new [] (piece ∷ []) (bad_label findings.old.labels place end items.now)) }
{
    findings.note(SpecFaultKind::BadLabel.at(place));
    if items.is_empty() {
        return Ok(reference_piece(alloc, None, 0, place, end));
    }
    named_piece(alloc, PieceKind::Stage, None, place, items)
}

// A good label, with its stage or without one.
fn good_label(
    alloc: Global,
    findings: &mut Findings,
    name: Vec<u8>,
    place: u32,
    end: u32,
    items: &[Item],
) -> Result<Piece, NoMemory>
    requires { load findings.old.labels ≤ 32768 }
    ensures { IfOk result (λ piece. AddsFound findings.old findings.new [] (piece ∷ []) (good_label findings.old.labels name.items place end items.now)) }
{
    if items.is_empty() {
        return Ok(refer(alloc, findings, &name, place, end));
    }
    define(alloc, findings, name, place, items)
}

// Whether the bytes are letters or digits.
fn are_alphanumeric(bytes: &[u8]) -> bool
    ensures { result ≡ list_all is_ascii_alphanumeric bytes.now }
{
    bytes.iter().all(|byte| byte.is_ascii_alphanumeric())
}

// Whether a label has 1 to 8 letters or digits.
fn is_good_label(label: &[u8]) -> bool
    ensures { result ≡ Pieces.is_good_label label.now }
{
    !label.is_empty() && label.len() < 9 && are_alphanumeric(label)
}

// A label, with its stage or without one.
pub(crate) fn labelled(
    alloc: Global,
    findings: &mut Findings,
    name: Vec<u8>,
    place: u32,
    end: u32,
    items: &[Item],
) -> Result<Piece, NoMemory>
    requires { load findings.old.labels ≤ 32768 }
    ensures { IfOk result (λ piece. AddsFound findings.old findings.new [] (piece ∷ []) (labelled findings.old.labels name.items place end items.now)) }
{
    if is_good_label(&name) {
        good_label(alloc, findings, name, place, end, items)
    } else {
        bad_label(alloc, findings, place, end, items)
    }
}
