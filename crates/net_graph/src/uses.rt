ghost use Rattle.std.specs.Prelude.{◌≡◌, [], ◌++◌, map, IfOk, OnOk};
ghost use Rattle.net_graph.specs.Numbered.{AreNumbered, AreScanned, IsNumbered, pieces_of, uses_after};
ghost use Rattle.net_graph.specs.Uses.{later_by, later_of, more_streams, uses_past};
ghost use Rattle.net_graph.specs.Stands.{stages_of, stands_of};

use pipe_model::NoMemory;
use spec_scanner::{Piece, PieceKind, Pieces};
use std::alloc::Global;

// One piece more, of which the numbers of later uses take note.
fn use_piece(uses: &mut Vec<u16>, piece: &Piece) -> Result<(), NoMemory>
    requires { IsNumbered uses.old.items piece.now piece.now.kind }
    ensures { OnOk result (uses.new.items ≡ uses_after uses.old.items piece.now.kind piece.now.label) }
{
    match (piece.kind, piece.label) {
        (PieceKind::Stage, Some(_)) => uses.push(0)?,
        (PieceKind::Reference, Some(label)) => {
            if let Some(count) = uses.get_mut(label as usize) {
                *count = piece.uses;
            }
        }
        _ => {}
    }
    Ok(())
}

// The pieces of a pipeline.
fn use_pieces(uses: &mut Vec<u16>, pieces: &[Piece]) -> Result<(), NoMemory>
    requires { AreNumbered uses.old.items pieces.now }
    ensures { OnOk result (uses.new.items ≡ uses_past uses.old.items pieces.now) }
{
    for piece in pieces {
        use_piece(uses, piece)?;
    }
    Ok(())
}

// How many later uses each label has.
fn uses_of(alloc: Global, pipelines: &[Pieces]) -> Result<Vec<u16>, NoMemory>
    requires { AreNumbered [] (pieces_of pipelines.now) }
    ensures { IfOk result (λ uses. uses.items ≡ uses_past [] (pieces_of pipelines.now)) }
{
    let mut uses = Vec::new(alloc);
    for pieces in pipelines {
        use_pieces(&mut uses, pieces.as_slice())?;
    }
    Ok(uses)
}

// The later uses of the stages of a pipeline.
fn count_later(later: &mut Vec<u16>, uses: &[u16], pieces: &[Piece]) -> Result<(), NoMemory>
    ensures { OnOk result (later.new.items ≡ later.old.items ++ later_by uses.now pieces.now) }
{
    for piece in pieces {
        if piece.kind == PieceKind::Stage {
            later.push(match piece.label {
                Some(label) => uses.get(label as usize).copied().unwrap_or(0),
                None => 0,
            })?;
        }
    }
    Ok(())
}

// How many later uses the label of each stage has, by those of the labels.
fn later_of(alloc: Global, uses: &[u16], pipelines: &[Pieces]) -> Result<Vec<u16>, NoMemory>
    ensures { IfOk result (λ later. later.items ≡ later_by uses.now (pieces_of pipelines.now)) }
{
    let mut later = Vec::new(alloc);
    for pieces in pipelines {
        count_later(&mut later, uses, pieces.as_slice())?;
    }
    Ok(later)
}

/// How many later uses the label of each stage has.
pub(crate) fn later_uses(alloc: Global, pipelines: &[Pieces]) -> Result<Vec<u16>, NoMemory>
    requires { AreScanned pipelines.now }
    ensures { IfOk result (λ later. later.items ≡ map (more_streams (stands_of pipelines.now)) (stages_of (stands_of pipelines.now))) }
{
    let uses = uses_of(alloc, pipelines)?;
    later_of(alloc, &uses, pipelines)
}
