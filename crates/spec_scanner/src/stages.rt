ghost use Rattle.std.specs.Prelude.{◌≡◌, ◌+◌, ◌*◌, ◌≤◌, [], ◌∷◌, length, IfOk, OnOk};
ghost use Rattle.spec_scanner.specs.Additions.{AddsFound, AddsRead, load};
ghost use Rattle.spec_scanner.specs.Labels.{read_pipelines, read_stage, read_stages, read_text};
ghost use Rattle.spec_scanner.specs.Pieces.{colon_of};
ghost use Rattle.spec_scanner.specs.Stretches.{cut, is_end, is_separator};

use crate::cuts::{split_pipeline, split_stage};
use crate::fault::SpecFaultKind;
use crate::findings::Findings;
use crate::item::Item;
use crate::labelled::labelled;
use crate::piece::Piece;
use crate::pieces::{bytes_of, plain_piece};
use crate::scanned::Pieces;
use crate::words::{colon_of, end_of, is_ignored, place_of, trimmed, without_front};
use pipe_model::NoMemory;
use std::alloc::Global;

// A stage's text that isn't empty.
fn read_text(alloc: Global, findings: &mut Findings, items: &[Item]) -> Result<Piece, NoMemory>
    requires { load findings.old.labels ≤ 32768 }
    ensures { IfOk result (λ piece. AddsFound findings.old findings.new [] (piece ∷ []) (read_text findings.old.labels items.now (colon_of items.now))) }
{
    let Some(colon) = colon_of(items) else {
        return plain_piece(alloc, items);
    };
    let name = bytes_of(alloc, &items[..colon])?;
    let rest = without_front(&items[colon + 1..]);
    labelled(
        alloc,
        findings,
        name,
        place_of(items, 0),
        end_of(items, 0),
        rest,
    )
}

// A stage's text, closed at a place; an empty one is a fault there.
pub(crate) fn read_stage(
    alloc: Global,
    findings: &mut Findings,
    pieces: &mut Vec<Piece>,
    closed: u32,
    items: &[Item],
) -> Result<(), NoMemory>
    requires { load findings.old.labels ≤ 32768 }
    ensures read { OnOk result (AddsFound findings.old findings.new pieces.old.items pieces.new.items (read_stage findings.old.labels closed items.now)) }
    ensures few { OnOk result (2 * load findings.new.labels ≤ 2 * load findings.old.labels + length items.now) }
{
    if items.is_empty() {
        findings.note(SpecFaultKind::EmptyStage.at(closed));
        return Ok(());
    }
    let piece = read_text(alloc, findings, items)?;
    pieces.push(piece)?;
    Ok(())
}

// The stages of a pipeline, which is closed at a place.
pub(crate) fn read_stages(
    alloc: Global,
    findings: &mut Findings,
    pieces: &mut Vec<Piece>,
    closed: u32,
    items: &[Item],
) -> Result<(), NoMemory>
    requires { 2 * load findings.old.labels + length items.now ≤ 65536 }
    ensures read { OnOk result (AddsFound findings.old findings.new pieces.old.items pieces.new.items (read_stages findings.old.labels (cut is_separator items.now closed))) }
    ensures few { OnOk result (2 * load findings.new.labels ≤ 2 * load findings.old.labels + length items.now) }
{
    let mut rest = items;
    while let Some((inside, place, after)) = split_stage(rest) {
        read_stage(alloc, findings, pieces, place, trimmed(inside))?;
        rest = after;
    }
    read_stage(alloc, findings, pieces, closed, trimmed(rest))
}

// A pipeline, which is closed at a place, unless it is ignored.
fn read_pipeline(
    alloc: Global,
    findings: &mut Findings,
    pipelines: &mut Vec<Pieces>,
    closed: u32,
    items: &[Item],
) -> Result<(), NoMemory>
    requires { 2 * load findings.old.labels + length items.now ≤ 65536 }
    ensures read { OnOk result (AddsRead findings.old findings.new pipelines.old.items pipelines.new.items (read_pipelines findings.old.labels (record { inside = items.now; closed = closed } ∷ []))) }
    ensures few { OnOk result (2 * load findings.new.labels ≤ 2 * load findings.old.labels + length items.now) }
{
    if is_ignored(items) {
        return Ok(());
    }
    let mut pieces = Vec::new(alloc);
    read_stages(alloc, findings, &mut pieces, closed, items)?;
    pipelines.push(Pieces::from_vec(pieces))?;
    Ok(())
}

// The pipelines of a specification, which is closed at a place.
pub(crate) fn read_pipelines(
    alloc: Global,
    findings: &mut Findings,
    pipelines: &mut Vec<Pieces>,
    closed: u32,
    items: &[Item],
) -> Result<(), NoMemory>
    requires { 2 * load findings.old.labels + length items.now ≤ 65536 }
    ensures { OnOk result (AddsRead findings.old findings.new pipelines.old.items pipelines.new.items (read_pipelines findings.old.labels (cut is_end items.now closed))) }
{
    let mut rest = items;
    while let Some((inside, place, after)) = split_pipeline(rest) {
        read_pipeline(alloc, findings, pipelines, place, inside)?;
        rest = after;
    }
    read_pipeline(alloc, findings, pipelines, closed, rest)
}
