//! A run is made ready to be written, and then written.
ghost use Rattle.std.specs.Prelude.{◌≡◌, ◌<◌, ◌≤◌, ℕ, List, [], Option, length, IfOk, MatchResult};
ghost use Rattle.pipe_model.specs.declared.net.Net.{Net as NetIs};
ghost use Rattle.outside.specs.Device.{device};
ghost use Rattle.pipe_model.specs.WellFormed.{IsWellFormed};
ghost use Rattle.call_meaning.specs.Devices.{store};
ghost use Rattle.call_meaning.specs.Meaning.{RunMeans};
ghost use Rattle.call_streams.specs.Texts.{IsTelling};
ghost use Rattle.call_streams.specs.Written.{IsPartWritten, IsWritten};
ghost use Rattle.net_runs.specs.Ran.{EndsAs, IsRun, run_effect};
ghost use Rattle.net_runs.specs.ReadyRuns.{CarriesOut, IsReady, PutsOut, ready_effect};

use crate::maker::Maker;
use crate::net_run::{Ran, run_net, write_kept};
use crate::replace::{Put, files_of, replace_files};
use crate::trace::{Trace, replace_trace, trace_of};
use call_meaning::Outcome;
use call_streams::{Told, no_memory, with_text, write_fault};
use core_machine::Core;
use outside::{Gate, Shelf, Sink};
use pipe_model::{Net, NoMemory, Rec};
use stage_steps::Stage;
use std::alloc::Global;
use std::sync::Wait;
use std::thread::Threads;

// A run of which nothing has been written: its core keeps the text for the output and those of the files.
#[derive(Drop)]
pub(crate) struct Ready<S: Stage> {
    pub core: Core<S>,
    pub told: Told,
    pub puts: Vec<Put>,
    pub trace: Option<Trace>,
}

/// Runs the net, with stages that the maker makes, and makes all texts; then writes the output, and then replaces the files and, if one is
/// named, that of the journal. Where too few steps are allowed, there is nothing to write but the journal. Where there is no memory for the
/// stages, the run or a text, that is told and nothing is written.
pub fn carry_out<
    S: Stage + Send,
    M: Maker<S>,
    Rt: Threads + Wait + Sync,
    O: Sink,
    F: Shelf,
    G: Gate + Sync,
>(
    rt: &Rt,
    alloc: Global,
    net: Net,
    maker: &M,
    steps: u64,
    workers: u32,
    trace: Option<Rec>,
    output: &mut O,
    shelf: &mut F,
    gate: &G,
) -> Told
    requires whole { IsWellFormed net }
    requires few { steps ≤ 50000000 }
    requires workers { (0 < workers) × (workers ≤ 64) }
    ensures carries { let old = device (O.written output.old) (O.faults output.old) in let new = device (O.written output.new) (O.faults output.new) in
        CarriesOut (RunMeans net steps workers trace) old new (store (F.files shelf.old) (F.faults shelf.old) (F.wants shelf.old)) (store (F.files shelf.new) (F.faults shelf.new) (F.wants shelf.new)) result.outcome }
    ensures text { IsTelling result }
{
    match make_ready(rt, alloc, net, maker, steps, workers, trace, gate) {
        Ok(ready) => put_out(alloc, ready, output, shelf),
        Err(NoMemory) => no_memory(),
    }
}

// Runs the net and makes all texts.
fn make_ready<S: Stage + Send, M: Maker<S>, Rt: Threads + Wait + Sync, G: Gate + Sync>(
    rt: &Rt,
    alloc: Global,
    net: Net,
    maker: &M,
    steps: u64,
    workers: u32,
    trace: Option<Rec>,
    gate: &G,
) -> Result<Ready<S>, NoMemory>
    requires whole { IsWellFormed net }
    requires few { steps ≤ 50000000 }
    requires workers { (0 < workers) × (workers ≤ 64) }
    ensures { IfOk result (λ ready. IsReady net steps workers trace ready) }
{
    let ran = run_net(rt, alloc, net, maker, steps, workers, gate)?;
    ready_of(alloc, ran, trace)
}

// Makes all texts of a run.
pub(crate) fn ready_of<S: Stage>(
    alloc: Global,
    ran: Ran<S>,
    trace: Option<Rec>,
) -> Result<Ready<S>, NoMemory>
    requires few { length ran.core.net.strands ≤ 65536 }
    requires ends { (steps : ℕ) × EndsAs steps ran.core ran.outcome }
    ensures { (net : NetIs) (steps workers : ℕ) → IsRun net steps workers ran.core ran.outcome → IfOk result (λ ready. IsReady net steps workers trace ready) }
{
    let puts = files_of(alloc, &ran.core, &ran.outcome)?;
    let trace = trace_of(alloc, trace, &ran.core)?;
    let told = with_text(alloc, ran.outcome)?;
    Ok(Ready {
        core: ran.core,
        told,
        puts,
        trace,
    })
}

// Writes the output, and then replaces the files. Where too few steps are allowed, there is nothing to write but the journal.
fn put_out<S: Stage, O: Sink, F: Shelf>(
    alloc: Global,
    ready: Ready<S>,
    output: &mut O,
    shelf: &mut F,
) -> Told
    requires { (net : NetIs) × (steps : ℕ) × (workers : ℕ) × (trace : Option (List ℕ)) × IsReady net steps workers trace ready }
    ensures puts { let old = device (O.written output.old) (O.faults output.old) in let new = device (O.written output.new) (O.faults output.new) in
        PutsOut (ready_effect ready) old new (store (F.files shelf.old) (F.faults shelf.old) (F.wants shelf.old)) (store (F.files shelf.new) (F.faults shelf.new) (F.wants shelf.new)) ready.told.outcome result.outcome }
    ensures text { IsTelling result }
{
    let Ready {
        core,
        told,
        puts,
        trace,
    } = ready;
    if write_output(output, &core, &told.outcome).is_err() {
        return write_fault();
    }
    if let Err(fault) = replace_files(alloc, shelf, &core, puts) {
        return fault;
    }
    match replace_trace(alloc, shelf, trace) {
        Ok(()) => told,
        Err(fault) => fault,
    }
}

// Writes what the run writes: nothing, where too few steps are allowed, and else what its CONSOLE kept. The only error is a write fault.
pub(crate) fn write_output<S: Stage, O: Sink>(
    output: &mut O,
    core: &Core<S>,
    outcome: &Outcome,
) -> Result<(), Outcome>
    requires home { core.now.out ≡ [] }
    requires few { length core.now.net.strands ≤ 65536 }
    ensures { let old = device (O.written output.old) (O.faults output.old) in let new = device (O.written output.new) (O.faults output.new) in
        MatchResult result (λ _. IsWritten (run_effect core.now outcome.now).output old new) (λ fault. IsPartWritten (run_effect core.now outcome.now).output old new fault) }
{
    match outcome {
        Outcome::Spent(_) => Ok(()),
        _ => write_kept(output, core),
    }
}
