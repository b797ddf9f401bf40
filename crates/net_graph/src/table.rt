ghost use Rattle.std.specs.Prelude.{◌≡◌, ◌<◌, ◌^◌, [], IfOk, OnOk};
ghost use Rattle.net_graph.specs.Joins.{counted_past};
ghost use Rattle.net_graph.specs.Nets.{counted_all};
ghost use Rattle.net_graph.specs.Numbered.{pieces_of};
ghost use Rattle.net_graph.specs.Outcomes.{tabled};

use crate::joins::counted;
use pipe_model::NoMemory;
use spec_scanner::{Piece, PieceKind, Pieces};
use std::alloc::Global;

// A pipeline's labels, and how many stages are defined after it.
fn add_labels(table: &mut Vec<usize>, before: usize, pieces: &[Piece]) -> Result<usize, NoMemory>
    requires { counted_all before pieces.now < 2 ^ 63 }
    ensures table { OnOk result (table.new.items ≡ tabled table.old.items before pieces.now) }
    ensures count { IfOk result (λ after. after ≡ counted_all before pieces.now) }
{
    let mut after = before;
    for piece in pieces {
        if piece.kind == PieceKind::Stage && piece.label.is_some() {
            table.push(after)?;
        }
        after = counted(after, piece);
    }
    Ok(after)
}

/// The numbers of the stages that the labels define, by the labels' numbers.
pub(crate) fn table_of(alloc: Global, pipelines: &[Pieces]) -> Result<Vec<usize>, NoMemory>
    requires { counted_past 0 pipelines.now < 2 ^ 63 }
    ensures { IfOk result (λ table. table.items ≡ tabled [] 0 (pieces_of pipelines.now)) }
{
    let mut table = Vec::new(alloc);
    let mut before = 0;
    for pieces in pipelines {
        before = add_labels(&mut table, before, pieces.as_slice())?;
    }
    Ok(table)
}
