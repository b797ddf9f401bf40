//! The sets of a file are run by the same workers, and what comes of them is put out.
ghost use Rattle.std.specs.Prelude.{◌≡◌, ◌<◌, ◌≤◌, ℕ, List, ◌∷◌, Option, length, map, IfOk};
ghost use Rattle.std.specs.List.{All, AllZip};
ghost use Rattle.std.specs.Vec.Iter.{into_iter_items};
ghost use Rattle.outside.specs.Device.{device};
ghost use Rattle.call_meaning.specs.declared.nets.Set.{Set as SetIs};
ghost use Rattle.call_meaning.specs.Devices.{store};
ghost use Rattle.call_meaning.specs.Sets.{outcome_of_sets};
ghost use Rattle.call_streams.specs.declared.text.Told.{Told as ToldIs};
ghost use Rattle.call_streams.specs.Feeding.{IsWholeSet};
ghost use Rattle.call_streams.specs.Texts.{IsTelling};
ghost use Rattle.net_runs.specs.ReadyRuns.{CarriesOut};
ghost use Rattle.net_runs.specs.SetRuns.{AreLeft, HasBegun, HasEnded, SetsMean, end_of};

use crate::maker::{Maker, start_net};
use crate::net_run::ran_to;
use crate::ready_run::ready_of;
use crate::sets_run::{Ended, Sets, put_sets_out, tell_sets};
use call_meaning::Set;
use call_streams::{Told, no_memory, with_text};
use core_machine::{Core, RunEnd};
use many_sets::drive_sets;
use outside::{Gate, Shelf, Sink};
use pipe_model::NoMemory;
use stage_steps::Stage;
use std::alloc::Global;
use std::sync::Wait;
use std::thread::Threads;
use std::vec::IntoIter;

/// Runs the net of each set that isn't refused, all by the same workers, in so many steps at most each, with stages that the maker makes, and
/// makes all texts; then writes the output of each set, one after another, and replaces the files of each. Where there is no memory for the
/// stages, a run or a text, that is told and nothing is written.
pub fn carry_out_sets<
    S: Stage + Send,
    M: Maker<S>,
    Rt: Threads + Wait + Sync,
    O: Sink,
    F: Shelf,
    G: Gate + Sync,
>(
    rt: &Rt,
    alloc: Global,
    sets: Vec<Set>,
    maker: &M,
    steps: u64,
    workers: u32,
    output: &mut O,
    shelf: &mut F,
    gate: &G,
) -> Told
    requires whole { All IsWholeSet sets.items }
    requires few { length sets.items ≤ 256 }
    requires steps { steps ≤ 50000000 }
    requires workers { (0 < workers) × (workers ≤ 64) }
    ensures carries { let old = device (O.written output.old) (O.faults output.old) in let new = device (O.written output.new) (O.faults output.new) in
        CarriesOut (SetsMean steps workers sets.items) old new (store (F.files shelf.old) (F.faults shelf.old) (F.wants shelf.old)) (store (F.files shelf.new) (F.faults shelf.new) (F.wants shelf.new)) result.outcome }
    ensures text { IsTelling result }
{
    match run_sets(rt, alloc, sets, maker, steps, workers, gate) {
        Ok(ready) => put_sets_out(alloc, ready, output, shelf),
        Err(NoMemory) => no_memory(),
    }
}

// Runs the nets and makes all texts.
fn run_sets<S: Stage + Send, M: Maker<S>, Rt: Threads + Wait + Sync, G: Gate + Sync>(
    rt: &Rt,
    alloc: Global,
    sets: Vec<Set>,
    maker: &M,
    steps: u64,
    workers: u32,
    gate: &G,
) -> Result<Sets<S>, NoMemory>
    requires whole { All IsWholeSet sets.items }
    requires few { length sets.items ≤ 256 }
    requires steps { steps ≤ 50000000 }
    requires workers { (0 < workers) × (workers ≤ 64) }
    ensures ended { IfOk result (λ ready. AllZip (λ set one. HasEnded steps workers set one) sets.items ready.ended.items) }
    ensures outcome { IfOk result (λ ready. ready.told.outcome ≡ outcome_of_sets (map (λ ended. end_of ended) ready.ended.items)) }
    ensures text { IfOk result (λ ready. IsTelling ready.told) }
{
    let mut cores = Vec::new(alloc);
    let mut begun = Vec::new(alloc);
    for set in sets {
        begun.push(begin_set(alloc, set, maker, steps, &mut cores)?)?;
    }
    let mut ran = drive_sets(rt, alloc, cores, workers, gate)?.into_iter();
    let mut ended = Vec::new(alloc);
    for told in begun {
        ended.push(end_set(alloc, told, &mut ran, steps)?)?;
    }
    let told = tell_sets(alloc, &ended)?;
    Ok(Sets { ended, told })
}

// Puts the core of a set behind those before it, or makes the text of its refusal.
fn begin_set<S: Stage, M: Maker<S>>(
    alloc: Global,
    set: Set,
    maker: &M,
    steps: u64,
    cores: &mut Vec<Core<S>>,
) -> Result<Option<Told>, NoMemory>
    requires whole { IsWholeSet set }
    requires few { steps ≤ 50000000 }
    ensures { IfOk result (λ told. HasBegun steps set told cores.old.items cores.new.items) }
{
    match set {
        Set::Whole(net) => {
            cores.push(start_net(alloc, net, maker, steps)?)?;
            Ok(None)
        }
        Set::Refused(outcome) => Ok(Some(with_text(alloc, outcome)?)),
    }
}

// Makes all texts of a set: of the next core that was run, where nothing is told of it yet.
fn end_set<S: Stage>(
    alloc: Global,
    told: Option<Told>,
    ran: &mut IntoIter<(Core<S>, RunEnd)>,
    steps: u64,
) -> Result<Ended<S>, NoMemory>
    requires left { (workers : ℕ) × (set : SetIs) × (sets : List SetIs) × (begun : List (Option ToldIs)) × AreLeft steps workers (set ∷ sets) (told ∷ begun) (into_iter_items ran.old) }
    ensures ended { (workers : ℕ) (set : SetIs) (sets : List SetIs) (begun : List (Option ToldIs)) → AreLeft steps workers (set ∷ sets) (told ∷ begun) (into_iter_items ran.old) →
        IfOk result (λ one. HasEnded steps workers set one × AreLeft steps workers sets begun (into_iter_items ran.new)) }
{
    if let Some(told) = told {
        return Ok(Ended::Unread(told));
    }
    let (core, end) = ran.next().unwrap();
    let ran = ran_to(alloc, core, end, steps)?;
    Ok(Ended::Ran(ready_of(alloc, ran, None)?))
}
