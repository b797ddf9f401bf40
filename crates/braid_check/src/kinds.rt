ghost use Rattle.std.specs.Prelude.{◌≡◌, ◌==◌, List, Bool, not};
ghost use Rattle.pipe_model.specs.Form.{is_thin_by, meeting_by};
ghost use Rattle.pipe_model.specs.Settled.{is_thin};
ghost use Rattle.pipe_model.specs.SpecsRows.{reads};
ghost use Rattle.pipe_model.specs.Table.{line_of};
ghost use Rattle.braid_check.specs.Joins.{meets_by, takes_first_by};

use pipe_model::{Item, Keep, Kind, Strand};

/// Whether a strand writes only what the record at hand causes, and has one input place.
pub fn is_thin(strand: &Strand) -> bool
    ensures { result ≡ is_thin strand.now }
{
    is_thin_kind(&strand.kind) && strand.ports.inputs == 1
}

// Whether a strand of this kind writes only what the record at hand causes, whatever its outputs are.
fn is_thin_kind(kind: &Kind) -> bool
    ensures { (outputs : List Bool) → result ≡ is_thin_by outputs (line_of kind.now).shape }
{
    match kind {
        Kind::ConsoleOut
        | Kind::FileOut { .. }
        | Kind::Hole
        | Kind::Locate { .. }
        | Kind::Nlocate { .. }
        | Kind::Find { .. }
        | Kind::Nfind { .. }
        | Kind::TakeFirst(_)
        | Kind::DropFirst(_)
        | Kind::Between { .. }
        | Kind::Inside { .. }
        | Kind::ToLabel { .. }
        | Kind::FrLabel { .. }
        | Kind::Change { .. }
        | Kind::Strip { .. }
        | Kind::Chop(_)
        | Kind::Pad { .. }
        | Kind::Split { .. }
        | Kind::Xlate(_)
        | Kind::Reverse
        | Kind::Duplicate(_)
        | Kind::FanOut
        | Kind::Deal => true,
        Kind::Unique { keep, .. } => matches!(keep, Keep::First),
        Kind::Specs { items, eof } => eof.is_none() && !has_read(items.as_slice()),
        Kind::ConsoleIn { .. }
        | Kind::FileIn { .. }
        | Kind::Literal { .. }
        | Kind::TakeLast(_)
        | Kind::DropLast(_)
        | Kind::Join { .. }
        | Kind::Sort(_)
        | Kind::Count(_)
        | Kind::Lookup { .. }
        | Kind::Collate { .. }
        | Kind::Merge(_)
        | Kind::FanIn
        | Kind::FanInAny
        | Kind::Gather
        | Kind::Overlay(_)
        | Kind::Synchronise
        | Kind::Juxtapose
        | Kind::Gate
        | Kind::Dam
        | Kind::Elastic
        | Kind::Buffer
        | Kind::Copy
        | Kind::Fblock { .. }
        | Kind::Block { .. }
        | Kind::Deblock(_) => false,
    }
}

// Whether there is a READ among the items.
fn has_read(items: &[Item]) -> bool
    ensures { result ≡ not (reads items.now == 0) }
{
    for item in items {
        if let Item::Read = item {
            return true;
        }
    }
    false
}

// Whether a strand of this kind takes what comes first.
pub(crate) fn takes_first(kind: &Kind) -> bool
    ensures { result ≡ takes_first_by (meeting_by (line_of kind.now).shape) }
{
    matches!(kind, Kind::FanInAny | Kind::Juxtapose)
}

// Whether a strand of this kind meets what it owes in a settled net, by whether it is braided.
pub(crate) fn meets(kind: &Kind, is_braided: bool) -> bool
    ensures { result ≡ meets_by (meeting_by (line_of kind.now).shape) is_braided }
{
    match kind {
        Kind::FanInAny | Kind::Juxtapose => is_braided,
        Kind::Gate => false,
        _ => true,
    }
}
