ghost use Rattle.std.specs.Prelude.{◌≡◌, ◌<◌, ◌≤◌, All, [], false, length, IfOk, vec_len};
ghost use Rattle.std.specs.List.{AllZip};
ghost use Rattle.core_machine.specs.Machine.{IsLawful};
ghost use Rattle.core_machine.specs.Answered.{HasRun, Ends};
ghost use Rattle.workers.specs.Driven.{HasAdvanced, LeftByWorkers};

use crate::closing::close_all;
use crate::finishing::run_all;
use crate::founding::found_all;
use crate::hands::make_hands;
use crate::numbers::stealers_of;
use crate::working::work_all;
use core_machine::{Core, RunEnd};
use outside::Gate;
use pipe_model::NoMemory;
use stage_steps::Stage;
use std::alloc::Global;
use std::snapshot::Snapshot;
use std::sync::Wait;
use std::thread::Threads;
use workers::drive;

/// Runs each of these cores as `workers::drive` runs one, with so many workers, 1 to 64, for all: each until no strand of
/// its own may have an event or its journal has as many entries as its own budget allows. The answer has them in their
/// order. One worker makes the least event that may be, each time, of one core after another. More work in threads of their
/// own, at most one for each core, each on one core after another, and what they leave is done by the caller's thread.
/// Without memory for them, or without threads, the caller's thread does all. On a single core all workers work. A gate that
/// isn't always open is entered before the work on each record that a strand saw, with the strand's number in its own net.
/// The error is that a stage, a core or the answer wanted memory: all cores are given up then.
pub fn drive_sets<S: Stage + Send, R: Threads + Wait + Sync, G: Gate + Sync>(
    rt: &R,
    alloc: Global,
    cores: Vec<Core<S>>,
    workers: u32,
    gate: &G,
) -> Result<Vec<(Core<S>, RunEnd)>, NoMemory>
    requires workers { (0 < workers) × (workers ≤ 64) }
    requires few { length cores.items ≤ 256 }
    requires home { All (λ core. core.out ≡ []) cores.items }
    requires whole { All (λ core. core.is_broken ≡ false) cores.items }
    ensures ran { IfOk result (λ ran. AllZip (λ core one. HasAdvanced core one.0 × Ends one.1 one.0 × IsLawful one.0) cores.items ran.items) }
    ensures alone { workers ≡ 1 → IfOk result (λ ran. AllZip (λ core one. HasRun core one.0) cores.items ran.items) }
{
    let sets = cores.len() as u32;
    if sets == 1 {
        return drive_one(rt, alloc, cores, workers, gate);
    }
    let workers = workers.min(sets);
    let cores = if workers < 2 {
        cores
    } else {
        work_together(rt, alloc, cores, workers, gate)
    };
    run_all(alloc, cores, gate)
}

// Of a single core all workers are on the one board.
fn drive_one<S: Stage + Send, R: Threads + Wait + Sync, G: Gate + Sync>(
    rt: &R,
    alloc: Global,
    mut cores: Vec<Core<S>>,
    workers: u32,
    gate: &G,
) -> Result<Vec<(Core<S>, RunEnd)>, NoMemory>
    requires workers { (0 < workers) × (workers ≤ 64) }
    requires single { vec_len cores ≡ 1 }
    requires home { All (λ core. core.out ≡ []) cores.items }
    requires whole { All (λ core. core.is_broken ≡ false) cores.items }
    ensures ran { IfOk result (λ ran. AllZip (λ core one. HasAdvanced core one.0 × Ends one.1 one.0 × IsLawful one.0) cores.items ran.items) }
    ensures alone { workers ≡ 1 → IfOk result (λ ran. AllZip (λ core one. HasRun core one.0) cores.items ran.items) }
{
    let mut ran = Vec::with_capacity(alloc, 1)?;
    let core = cores.pop().unwrap();
    ran.push_reserved(drive(rt, alloc, core, workers, gate)?);
    Ok(ran)
}

// The cores after so many workers worked on them. Those for which there is no memory come back as they are.
fn work_together<S: Stage + Send, R: Threads + Wait + Sync, G: Gate + Sync>(
    rt: &R,
    alloc: Global,
    mut cores: Vec<Core<S>>,
    workers: u32,
    gate: &G,
) -> Vec<Core<S>>
    requires workers { (0 < workers) × (workers ≤ 64) }
    requires few { length cores.items ≤ 256 }
    requires home { All (λ core. core.out ≡ []) cores.items }
    requires whole { All (λ core. core.is_broken ≡ false) cores.items }
    ensures { AllZip LeftByWorkers cores.items result.items }
{
    let sets = cores.len();
    let Ok(mut hands) = make_hands(alloc, workers, sets as u32) else {
        return cores;
    };
    let Ok(stealers) = stealers_of(alloc, hands.as_slice()) else {
        return cores;
    };
    let Ok(mut boards) = Vec::with_capacity(alloc, sets) else {
        return cores;
    };
    let origin = Snapshot::of(&cores);
    let hands = hands.as_mut_slice();
    found_all(alloc, &mut cores, &mut boards, hands);
    work_all(
        rt,
        alloc,
        boards.as_slice(),
        stealers.as_slice(),
        hands,
        gate,
    );
    close_all(rt, boards, hands, cores, &origin)
}
