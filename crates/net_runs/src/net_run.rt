//! A net is run, and what comes of it is told.
ghost use Rattle.std.specs.Prelude.{◌≡◌, ◌<◌, ◌≤◌, List, [], ◌∷◌, length, IfOk, MatchOption, MatchResult};
ghost use Rattle.pipe_model.specs.Reply.{WaitLine, reply, console_from};
ghost use Rattle.pipe_model.specs.WellFormed.{IsWellFormed};
ghost use Rattle.core_machine.specs.Answered.{Ends};
ghost use Rattle.core_machine.specs.Machine.{HasStopped, state_of};
ghost use Rattle.pipe_model.specs.Form.{is_shown};
ghost use Rattle.net_runs.specs.Kept.{keeping_of};
ghost use Rattle.outside.specs.Device.{device};
ghost use Rattle.call_meaning.specs.Meaning.{outcome_of};
ghost use Rattle.net_runs.specs.Ran.{EndsAs, IsRun};
ghost use Rattle.call_streams.specs.Written.{IsWritten, IsPartWritten};

use crate::maker::{Maker, start_net};
use call_meaning::Outcome;
use call_streams::write_all;
use core_machine::{Core, RunEnd};
use outside::{Gate, Sink};
use pipe_model::{Net, NoMemory, is_shown, worst};
use stage_steps::Stage;
use stall_report::{report, text};
use std::alloc::Global;
use std::sync::Wait;
use std::thread::Threads;
use workers::drive_kept;

// A core that ran a net to its end, or as far as the steps allow, and how that ended.
#[derive(Drop)]
pub(crate) struct Ran<S: Stage> {
    pub core: Core<S>,
    pub outcome: Outcome,
}

// The net's core, with stages that the maker makes, after so many workers ran it so.
pub(crate) fn run_net<S: Stage + Send, M: Maker<S>, Rt: Threads + Wait + Sync, G: Gate + Sync>(
    rt: &Rt,
    alloc: Global,
    net: Net,
    maker: &M,
    steps: u64,
    workers: u32,
    gate: &G,
) -> Result<Ran<S>, NoMemory>
    requires whole { IsWellFormed net }
    requires few { steps ≤ 50000000 }
    requires workers { (0 < workers) × (workers ≤ 64) }
    ensures run { IfOk result (λ ran. IsRun net steps workers ran.core ran.outcome) }
    ensures few { IfOk result (λ ran. length ran.core.net.strands ≤ 65536) }
{
    let core = start_net(alloc, net, maker, steps)?;
    let (core, end) = drive_kept(rt, alloc, core, workers, gate);
    let Some(end) = end else {
        return Err(NoMemory);
    };
    ran_to(alloc, core, end, steps)
}

// A core whose run ended so, in so many steps at most, and its outcome.
pub(crate) fn ran_to<S: Stage>(
    alloc: Global,
    core: Core<S>,
    end: RunEnd,
    steps: u64,
) -> Result<Ran<S>, NoMemory>
    requires few { length core.net.strands ≤ 65536 }
    requires home { core.out ≡ [] }
    requires budget { core.budget ≡ steps }
    requires ends { Ends end core }
    ensures core { IfOk result (λ ran. ran.core ≡ core) }
    ensures ends { IfOk result (λ ran. EndsAs steps ran.core ran.outcome) }
{
    let outcome = match end {
        RunEnd::Complete => outcome_of(alloc, &core)?,
        RunEnd::Spent => Outcome::Spent(steps),
    };
    Ok(Ran { core, outcome })
}

// How a run that is complete ended.
fn outcome_of<S: Stage>(alloc: Global, core: &Core<S>) -> Result<Outcome, NoMemory>
    requires few { length core.now.net.strands ≤ 65536 }
    requires stopped { HasStopped core.now }
    ensures { IfOk result (λ outcome. outcome ≡ outcome_of core.now.net (reply core.now.net (state_of core.now))) }
{
    match worst_code(core) {
        Some(0) => Ok(Outcome::Done),
        Some(code) => Ok(Outcome::Coded(code)),
        None => {
            let waits = report(alloc, core)?;
            Ok(Outcome::Stalled(text(alloc, core.net(), &waits)?))
        }
    }
}

// The worst code of the strands, once all have ended.
fn worst_code<S: Stage>(core: &Core<S>) -> Option<i32>
    requires few { length core.now.net.strands ≤ 65536 }
    ensures { MatchOption result
        ((first : WaitLine) × (rest : List WaitLine) × ((reply core.now.net (state_of core.now)).waits ≡ first ∷ rest))
        (λ code. ((reply core.now.net (state_of core.now)).waits ≡ []) × ((reply core.now.net (state_of core.now)).code ≡ code)) }
{
    let mut code = 0;
    let mut strand = core.net().strands.as_slice().len() as u32;
    while strand > 0 {
        strand -= 1;
        code = worst(core.end_of(strand)?, code);
    }
    Some(code)
}

// Writes what the writing CONSOLE kept. The only error is a write fault.
pub(crate) fn write_kept<S: Stage, O: Sink>(output: &mut O, core: &Core<S>) -> Result<(), Outcome>
    requires home { core.now.out ≡ [] }
    requires few { length core.now.net.strands ≤ 65536 }
    ensures { let old = device (O.written output.old) (O.faults output.old) in let new = device (O.written output.new) (O.faults output.new) in
        MatchResult result (λ _. IsWritten (console_from (state_of core.now) 0 core.now.net.strands) old new) (λ outcome. IsPartWritten (console_from (state_of core.now) 0 core.now.net.strands) old new outcome) }
{
    let strands = core.net().strands.as_slice();
    for k in 0..strands.len() {
        if is_shown(&strands[k].kind) {
            write_all(output, core.kept(k as u32))?;
        }
    }
    Ok(())
}

// What the writing CONSOLE kept, in a text.
pub(crate) fn console_text<S: Stage>(alloc: Global, core: &Core<S>) -> Result<Vec<u8>, NoMemory>
    requires home { core.now.out ≡ [] }
    requires few { length core.now.net.strands ≤ 65536 }
    ensures { IfOk result (λ text. text.items ≡ console_from (state_of core.now) 0 core.now.net.strands) }
{
    let mut text = Vec::new(alloc);
    let strands = core.net().strands.as_slice();
    for k in 0..strands.len() {
        if is_shown(&strands[k].kind) {
            text.extend_from_slice(core.kept(k as u32))?;
        }
    }
    Ok(text)
}
