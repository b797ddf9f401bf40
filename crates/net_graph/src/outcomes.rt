ghost use Rattle.std.specs.Prelude.{◌≡◌, true, IfOk, OnErr, OnOk};
ghost use Rattle.stage_syntax.specs.Kinds.{IsKnown};
ghost use Rattle.net_graph.specs.Nets.{AreOutcomes, IsOutcome};
ghost use Rattle.net_graph.specs.Outcomes.{AddsOutcomes};
ghost use Rattle.net_graph.specs.Searches.{stand};
ghost use Rattle.net_graph.specs.Stands.{is_of_stage, stages_of, stands_in, stands_of};

use pipe_model::{Kind, NoMemory};
use spec_scanner::{Piece, PieceKind, Pieces};
use stage_syntax::{KindFault, kind_of};
use std::alloc::Global;

// The outcome of a stage.
fn outcome(alloc: Global, piece: &Piece, first: bool) -> Result<Result<Kind, KindFault>, NoMemory>
    ensures read { IfOk result (λ outcome. IsOutcome (stand piece.now first true) outcome) }
    ensures memory { OnErr result (IsKnown piece.now.name first) }
{
    match kind_of(alloc, piece.name.bytes(), &piece.arg, first) {
        Ok(kind) => Ok(Ok(kind)),
        Err(KindFault::NoMemory) => Err(NoMemory),
        Err(fault) => Ok(Err(fault)),
    }
}

// Whether a piece defines a stage.
fn is_stage(piece: &Piece) -> bool
    ensures { result ≡ is_of_stage piece.now.kind }
{
    matches!(piece.kind, PieceKind::Stage)
}

// The outcomes of the stages of a pipeline.
fn add_outcomes(
    alloc: Global,
    outcomes: &mut Vec<Result<Kind, KindFault>>,
    pieces: &[Piece],
) -> Result<(), NoMemory>
    ensures { OnOk result (AddsOutcomes (stands_in true pieces.now) outcomes.old.items outcomes.new.items) }
{
    for (k, piece) in pieces.iter().enumerate() {
        if is_stage(piece) {
            outcomes.push(outcome(alloc, piece, k == 0)?)?;
        }
    }
    Ok(())
}

/// The outcomes of all stages: of each its kind, or why it has none.
pub(crate) fn outcomes_of(
    alloc: Global,
    pipelines: &[Pieces],
) -> Result<Vec<Result<Kind, KindFault>>, NoMemory>
    ensures { IfOk result (λ outcomes. AreOutcomes (stages_of (stands_of pipelines.now)) outcomes.items) }
{
    let mut outcomes = Vec::new(alloc);
    for pieces in pipelines {
        add_outcomes(alloc, &mut outcomes, pieces.as_slice())?;
    }
    Ok(outcomes)
}
