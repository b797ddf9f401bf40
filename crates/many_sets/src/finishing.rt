//! Cores that are run to their end by the caller's thread.
ghost use Rattle.std.specs.Prelude.{◌≡◌, ◌⊎◌, All, [], true, IfOk};
ghost use Rattle.std.specs.List.{AllZip};
ghost use Rattle.many_sets.specs.Finished.{IsFinished};

use core_machine::{Core, RunEnd};
use outside::Gate;
use pipe_model::NoMemory;
use stage_steps::Stage;
use std::alloc::Global;

// Runs each, one after another. The error is want of memory: all are given up then.
pub(crate) fn run_all<S: Stage, G: Gate>(
    alloc: Global,
    cores: Vec<Core<S>>,
    gate: &G,
) -> Result<Vec<(Core<S>, RunEnd)>, NoMemory>
    requires { All (λ core. (core.out ≡ []) ⊎ (core.is_broken ≡ true)) cores.items }
    ensures { IfOk result (λ ran. AllZip (λ core one. IsFinished core one.0 one.1) cores.items ran.items) }
{
    let mut ran = Vec::with_capacity(alloc, cores.len())?;
    for core in cores {
        ran.push_reserved(run_one(alloc, core, gate)?);
    }
    Ok(ran)
}

// A core that is broken already wanted memory.
fn run_one<S: Stage, G: Gate>(
    alloc: Global,
    mut core: Core<S>,
    gate: &G,
) -> Result<(Core<S>, RunEnd), NoMemory>
    requires { (core.out ≡ []) ⊎ (core.is_broken ≡ true) }
    ensures { IfOk result (λ one. IsFinished core one.0 one.1) }
{
    if core.is_broken() {
        core.drain();
        return Err(NoMemory);
    }
    match core.run_one_thread(alloc, gate) {
        Ok(end) => Ok((core, end)),
        Err(NoMemory) => {
            core.drain();
            Err(NoMemory)
        }
    }
}
