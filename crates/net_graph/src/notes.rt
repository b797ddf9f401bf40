ghost use Rattle.std.specs.Prelude.{◌≡◌, Some, None, slice_get, take, true, MatchOption};
ghost use Rattle.std.specs.List.{list_any};
ghost use Rattle.net_graph.specs.Faults as Faults;
ghost use Rattle.net_graph.specs.Searches as Searches;
ghost use Rattle.net_graph.specs.Searches.{labelled_kind, stand};
ghost use Rattle.spec_scanner.specs.Faults as Found;

use pipe_model::{Kind, most_inputs, most_outputs};
use spec_scanner::{Fault, Piece, SpecFaultKind, least};
use stage_syntax::KindFault;

/// The most stages of a specification.
const MOST_STAGES: usize = 1_024;

/// The most streams of a stage.
const MOST_STREAMS: u16 = 64;

// The first of a fault found before, if any, and another one.
pub(crate) fn noted(found: Option<Fault>, kind: SpecFaultKind, place: u32) -> Option<Fault>
    ensures { result ≡ Some (Found.least found (Found.fault kind place)) }
{
    Some(least(found, kind.at(place)))
}

// A stage past the 1,024th.
pub(crate) fn note_stage(found: Option<Fault>, piece: &Piece, stages: usize) -> Option<Fault>
    ensures { result ≡ Searches.noted found (Faults.stage_faults stages (stand piece.now true true)) }
{
    if stages < MOST_STAGES {
        found
    } else {
        noted(found, SpecFaultKind::TooManyStages, piece.place)
    }
}

// A name that is unknown, or arguments that aren't of its form.
pub(crate) fn note_kind(
    found: Option<Fault>,
    piece: &Piece,
    outcomes: &[Result<Kind, KindFault>],
    stages: usize,
) -> Option<Fault>
    ensures { result ≡ Searches.noted found (Faults.kind_faults (stand piece.now true true) (slice_get outcomes.now stages)) }
{
    match outcomes.get(stages) {
        Some(Err(KindFault::Unknown)) => {
            noted(found, SpecFaultKind::UnknownStage, piece.name_place)
        }
        Some(Err(KindFault::Argument(fault))) => Some(least(
            found,
            Fault {
                argument: fault.kind.number(),
                ..SpecFaultKind::BadArguments.at(fault.place)
            },
        )),
        _ => found,
    }
}

// `<` anywhere but first in its pipeline.
pub(crate) fn note_first(found: Option<Fault>, piece: &Piece, first: bool) -> Option<Fault>
    ensures { result ≡ Searches.noted found (Faults.first_faults (stand piece.now first true)) }
{
    if piece.name.bytes() == b"<".as_slice() && !first {
        noted(found, SpecFaultKind::NotFirst, piece.name_place)
    } else {
        found
    }
}

// The name of the file that a stage replaces.
fn replaced_by(outcome: &Result<Kind, KindFault>) -> Option<&[u8]>
    ensures { MatchOption result (Faults.replaced_by outcome.now ≡ None) (λ name. Faults.replaced_by outcome.now ≡ Some name.now) }
{
    match outcome {
        Ok(Kind::FileOut { name }) => Some(name.bytes()),
        _ => None,
    }
}

// Whether the stage replaces this file.
fn replaces(outcome: &Result<Kind, KindFault>, name: &[u8]) -> bool
    ensures { result ≡ Faults.replaces name.now outcome.now }
{
    match replaced_by(outcome) {
        Some(other) => other == name,
        None => false,
    }
}

// Whether one of these stages replaces this file.
fn any_replaces(outcomes: &[Result<Kind, KindFault>], name: &[u8]) -> bool
    ensures { result ≡ list_any (Faults.replaces name.now) outcomes.now }
{
    outcomes.iter().any(|outcome| replaces(outcome, name))
}

// `>` of a file that a stage before it replaces.
pub(crate) fn note_file(
    found: Option<Fault>,
    piece: &Piece,
    outcomes: &[Result<Kind, KindFault>],
    stages: usize,
) -> Option<Fault>
    ensures { result ≡ Searches.noted found (Faults.file_faults (take stages outcomes.now) (stand piece.now true true) (slice_get outcomes.now stages)) }
{
    let Some(outcome) = outcomes.get(stages) else {
        return found;
    };
    let Some(name) = replaced_by(outcome) else {
        return found;
    };
    if any_replaces(&outcomes[..stages], name) {
        noted(found, SpecFaultKind::SecondFile, piece.name_place)
    } else {
        found
    }
}

// Whether the piece is a CONSOLE.
pub(crate) fn is_console(piece: &Piece) -> bool
    ensures { result ≡ Faults.is_console piece.now }
{
    piece.name.bytes().eq_ignore_ascii_case(b"console")
}

// The kind of the stage that a label defines.
pub(crate) fn labelled_kind<'a>(
    table: &[usize],
    outcomes: &'a [Result<Kind, KindFault>],
    label: Option<u32>,
) -> Option<&'a Kind>
    ensures { MatchOption result (labelled_kind table.now outcomes.now label ≡ None) (λ kind. labelled_kind table.now outcomes.now label ≡ Some kind.now) }
{
    let stage = table.get(label? as usize)?;
    match outcomes.get(*stage) {
        Some(Ok(kind)) => Some(kind),
        _ => None,
    }
}

// A later use of a stream that there can't be.
pub(crate) fn note_stream(
    found: Option<Fault>,
    piece: &Piece,
    first: bool,
    last: bool,
    kind: Option<&Kind>,
) -> Option<Fault>
    ensures { MatchOption kind.entry (result ≡ Searches.noted found (Faults.stream_faults (stand piece.now first last) None)) (λ kind. result ≡ Searches.noted found (Faults.stream_faults (stand piece.now first last) (Some kind.now))) }
{
    let past = match kind {
        Some(kind) => {
            !first && piece.uses >= most_inputs(kind) || !last && piece.uses >= most_outputs(kind)
        }
        None => false,
    };
    if piece.uses >= MOST_STREAMS || past {
        noted(found, SpecFaultKind::NoSuchStream, piece.place)
    } else {
        found
    }
}
