ghost use Rattle.std.specs.Prelude.{◌≡◌, ◌<◌, ◌≤◌, ◌+◌, ◌^◌, ℕ, Some, length, slice_get, true, []};
ghost use Rattle.net_graph.specs.Faults.{faults_of};
ghost use Rattle.net_graph.specs.Nets.{AreOutcomes};
ghost use Rattle.net_graph.specs.Searches as Searches;
ghost use Rattle.net_graph.specs.Searches.{stand};
ghost use Rattle.net_graph.specs.Stands.{stage_of, stages_of, stands_in, stands_of};
ghost use Rattle.spec_scanner.specs.Faults.{IsLeastSo};
ghost use Rattle.spec_scanner.specs.declared.piece.PieceKind.TheVariants.{Stage};

use crate::notes::{
    is_console, labelled_kind, note_file, note_first, note_kind, note_stage, note_stream, noted,
};
use pipe_model::Kind;
use spec_scanner::{Fault, Piece, PieceKind, Pieces, SpecFaultKind};
use stage_syntax::KindFault;

/// What is kept of the pieces that were passed: the least fault, how many stages they define, and whether a CONSOLE is among
/// them that reads, and one that writes.
#[derive(Clone, Copy, Drop)]
pub(crate) struct Search {
    pub found: Option<Fault>,
    pub stages: usize,
    pub reads: bool,
    pub writes: bool,
}

// The search after one piece.
fn after(
    search: Search,
    piece: &Piece,
    first: bool,
    last: bool,
    outcomes: &[Result<Kind, KindFault>],
    table: &[usize],
) -> Search
    requires { search.stages < 2 ^ 63 }
    ensures { result ≡ Searches.after table.now outcomes.now search (stand piece.now first last) piece.now.kind }
{
    match piece.kind {
        PieceKind::Stage => after_stage(search, piece, first, outcomes),
        PieceKind::Reference => Search {
            found: note_stream(
                search.found,
                piece,
                first,
                last,
                labelled_kind(table, outcomes, piece.label),
            ),
            ..search
        },
        PieceKind::Connector => Search {
            found: noted(search.found, SpecFaultKind::MisplacedConnector, piece.place),
            ..search
        },
    }
}

// The search after a stage.
fn after_stage(
    search: Search,
    piece: &Piece,
    first: bool,
    outcomes: &[Result<Kind, KindFault>],
) -> Search
    requires { search.stages < 2 ^ 63 }
    ensures { result ≡ Searches.after [] outcomes.now search (stand piece.now first true) Stage }
{
    let found = note_stage(search.found, piece, search.stages);
    let found = note_kind(found, piece, outcomes, search.stages);
    let found = note_first(found, piece, first);
    let console = is_console(piece);
    let second = console && if first { search.reads } else { search.writes };
    let found = if second {
        noted(found, SpecFaultKind::SecondConsole, piece.name_place)
    } else {
        found
    };
    Search {
        found: note_file(found, piece, outcomes, search.stages),
        stages: search.stages + 1,
        reads: search.reads || console && first,
        writes: search.writes || console && !first,
    }
}

// The search after a pipeline.
fn after_all(
    mut search: Search,
    pieces: &[Piece],
    outcomes: &[Result<Kind, KindFault>],
    table: &[usize],
) -> Search
    requires { search.stages + length (stages_of (stands_in true pieces.now)) ≤ length outcomes.now }
    ensures { result ≡ Searches.after_all table.now outcomes.now search (stands_in true pieces.now) }
{
    for (k, piece) in pieces.iter().enumerate() {
        search = after(
            search,
            piece,
            k == 0,
            k + 1 == pieces.len(),
            outcomes,
            table,
        );
    }
    search
}

/// The least fault of pipelines, where the stages have these outcomes and the labels are those of these stages.
pub(crate) fn find_faults(
    pipelines: &[Pieces],
    outcomes: &[Result<Kind, KindFault>],
    table: &[usize],
) -> Option<Fault>
    requires read { AreOutcomes (stages_of (stands_of pipelines.now)) outcomes.now }
    requires labelled { (label : ℕ) → slice_get table.now label ≡ stage_of (stands_of pipelines.now) (Some label) }
    ensures { IsLeastSo result (faults_of pipelines.now outcomes.now) }
{
    let mut search = Search {
        found: None,
        stages: 0,
        reads: false,
        writes: false,
    };
    for pieces in pipelines {
        search = after_all(search, pieces.as_slice(), outcomes, table);
    }
    search.found
}
