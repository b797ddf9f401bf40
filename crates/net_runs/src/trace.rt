//! The file of a run's journal.
ghost use Rattle.std.specs.Prelude.{◌≡◌, IfOk, IfSome, MatchResult, option_copied};
ghost use Rattle.std.specs.Option.{option_map_or};
ghost use Rattle.call_meaning.specs.Devices.{store};
ghost use Rattle.call_meaning.specs.Effects.{no_effect, traced};
ghost use Rattle.call_streams.specs.Texts.{IsTelling};
ghost use Rattle.net_runs.specs.Traces.{IsTrace, IsTraceStored, IsTraceTorn, trace_file};

use call_meaning::Outcome;
use call_streams::{Text, Told, no_memory, shelf_fault};
use core_machine::Core;
use journal_file::text_of;
use outside::{Replaced, Shelf};
use pipe_model::{NoMemory, Rec};
use stage_steps::Stage;
use std::alloc::Global;

// A file that is to be replaced by a journal's text, and the text of its fault.
#[derive(Drop)]
pub(crate) struct Trace {
    pub name: Rec,
    pub text: Rec,
    pub fault: Rec,
}

// The journal's text for the file of this name, if one is named.
pub(crate) fn trace_of<S: Stage>(
    alloc: Global,
    name: Option<Rec>,
    core: &Core<S>,
) -> Result<Option<Trace>, NoMemory>
    ensures file { IfOk result (λ trace. trace_file trace ≡ (traced name core.now.journal no_effect).trace) }
    ensures fault { IfOk result (λ trace. IfSome trace IsTrace) }
{
    match name {
        None => Ok(None),
        Some(name) => {
            let text = text_of(alloc, &core.entries(alloc)?)?;
            let fault = Rec::from_vec(shelf_fault(alloc, name.bytes())?);
            Ok(Some(Trace { name, text, fault }))
        }
    }
}

// Replaces the file, if there is one. An error is its fault, or want of memory, with its text.
pub(crate) fn replace_trace<F: Shelf>(
    alloc: Global,
    shelf: &mut F,
    trace: Option<Trace>,
) -> Result<(), Told>
    requires { IfSome trace IsTrace }
    ensures stored { let old = store (F.files shelf.old) (F.faults shelf.old) (F.wants shelf.old) in let new = store (F.files shelf.new) (F.faults shelf.new) (F.wants shelf.new) in
        MatchResult result (λ _. IsTraceStored (trace_file trace) old new) (λ told. IsTraceTorn (trace_file trace) old new told.outcome) }
    ensures text { MatchResult result (λ _. Unit {0}) IsTelling }
{
    let Some(trace) = trace else {
        return Ok(());
    };
    match shelf.replace(alloc, trace.name.bytes(), trace.text.bytes()) {
        Replaced::Stored => Ok(()),
        Replaced::Failed => Err(Told {
            outcome: Outcome::ShelfFault(trace.name),
            text: Text::Made(trace.fault),
        }),
        Replaced::NoMemory => Err(no_memory()),
    }
}
