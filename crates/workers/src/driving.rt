ghost use Rattle.std.specs.Prelude.{◌≡◌, ◌<◌, ◌≤◌, [], None, true, false, IfOk, IfSome, MatchOption};
ghost use Rattle.core_machine.specs.Machine.{IsLawful};
ghost use Rattle.core_machine.specs.Answered.{HasRun, HasBrokenLeast, Ends};
ghost use Rattle.workers.specs.Driven.{HasAdvanced, HasFallenShort, LeftByWorkers};

use crate::hands::{deal, meet_all, work_all};
use board::Board;
use core_machine::{Core, RunEnd};
use outside::Gate;
use pipe_model::NoMemory;
use stage_steps::Stage;
use std::alloc::Global;
use std::sync::Wait;
use std::thread::Threads;

/// Runs a core with so many workers, 1 to 64, until no strand may have an event or the journal has as many entries as
/// the budget allows. One worker makes the least event that may be, each time. More work in threads of their own, each
/// on whatever strand may go on, and what they leave is done by the caller's thread. Without memory for them, or without
/// threads, the caller's thread does all. A gate that isn't always open is entered before the work on each record that a
/// strand saw. The error is that a stage or the core wanted memory: the core is given up then.
pub fn drive<S: Stage + Send, R: Threads + Wait + Sync, G: Gate + Sync>(
    rt: &R,
    alloc: Global,
    core: Core<S>,
    workers: u32,
    gate: &G,
) -> Result<(Core<S>, RunEnd), NoMemory>
    requires workers { (0 < workers) × (workers ≤ 64) }
    requires home { core.out ≡ [] }
    requires whole { core.is_broken ≡ false }
    ensures advances { IfOk result (λ ran. HasAdvanced core ran.0) }
    ensures ends { IfOk result (λ ran. Ends ran.1 ran.0) }
    ensures alone { workers ≡ 1 → IfOk result (λ ran. HasRun core ran.0) }
    ensures lawful { IfOk result (λ ran. IsLawful ran.0) }
{
    let (core, end) = drive_kept(rt, alloc, core, workers, gate);
    match end {
        Some(end) => Ok((core, end)),
        None => {
            core.drain();
            Err(NoMemory)
        }
    }
}

/// Runs a core as `drive` does, and hands it back whatever comes. None says that a stage or the core wanted memory, and
/// nothing else: the core is broken then, its journal has the entries made so far, and the strands of the jobs that
/// wanted memory are out.
pub fn drive_kept<S: Stage + Send, R: Threads + Wait + Sync, G: Gate + Sync>(
    rt: &R,
    alloc: Global,
    core: Core<S>,
    workers: u32,
    gate: &G,
) -> (Core<S>, Option<RunEnd>)
    requires workers { (0 < workers) × (workers ≤ 64) }
    requires home { core.out ≡ [] }
    requires whole { core.is_broken ≡ false }
    ensures lacks { result.1 ≡ None → HasFallenShort core result.0 }
    ensures advances { IfSome result.1 (λ _. HasAdvanced core result.0) }
    ensures ends { IfSome result.1 (λ end. Ends end result.0) }
    ensures alone { workers ≡ 1 → MatchOption result.1 (HasBrokenLeast core result.0) (λ _. HasRun core result.0) }
    ensures lawful { IsLawful result.0 }
{
    let mut core = if workers == 1 {
        core
    } else {
        work_together(rt, alloc, core, workers, gate)
    };
    if core.is_broken() {
        return (core, None);
    }
    match core.run_one_thread(alloc, gate) {
        Ok(end) => (core, Some(end)),
        Err(NoMemory) => (core, None),
    }
}

// The core after so many workers worked on it. Without memory for them it comes back as it is.
fn work_together<S: Stage + Send, R: Threads + Wait + Sync, G: Gate + Sync>(
    rt: &R,
    alloc: Global,
    core: Core<S>,
    workers: u32,
    gate: &G,
) -> Core<S>
    requires workers { (0 < workers) × (workers ≤ 64) }
    requires home { core.out ≡ [] }
    requires whole { core.is_broken ≡ false }
    ensures left { LeftByWorkers core result }
    ensures lawful { result.is_broken ≡ true → IsLawful result }
{
    let (board, pass) = match Board::new(alloc, core) {
        Ok(made) => made,
        Err(core) => return core,
    };
    let mut hands = match deal(alloc, &board, pass, workers) {
        Ok(hands) => hands,
        Err(pass) => return board.close(rt, pass),
    };
    work_all(rt, alloc, &board, hands.as_mut_slice(), gate);
    let pass = meet_all(&board, hands);
    board.close(rt, pass)
}
