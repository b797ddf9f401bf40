//! The sample is run and summed up.
ghost use Rattle.std.specs.Prelude.{◌≡◌, ◌<◌, ◌≤◌, [], length, IfOk};
ghost use Rattle.pipe_model.specs.Reply.{console_from};
ghost use Rattle.pipe_model.specs.WellFormed.{IsWellFormed};
ghost use Rattle.core_machine.specs.Machine.{state_of};
ghost use Rattle.call_meaning.specs.Effects.{output_of};
ghost use Rattle.call_meaning.specs.Meaning.{SampleMeans};
ghost use Rattle.call_meaning.specs.Sample.{line_count, summary};
ghost use Rattle.call_streams.specs.Texts.{IsTelling};

use crate::maker::Maker;
use crate::net_run::{console_text, run_net};
use call_meaning::Outcome;
use call_streams::{Answer, add, add_number, with_text};
use core_machine::Core;
use outside::Gate;
use pipe_model::{Net, NoMemory};
use stage_steps::Stage;
use std::alloc::Global;
use std::sync::Wait;
use std::thread::Threads;

/// Runs a net that is fed the sample's input of so many lines, with stages that the maker makes, and makes all texts.
///
/// # Errors
///
/// `NoMemory` where there is no memory for the stages, the run or a text.
pub fn summed_up<S: Stage + Send, M: Maker<S>, Rt: Threads + Wait + Sync, G: Gate + Sync>(
    rt: &Rt,
    alloc: Global,
    net: Net,
    maker: &M,
    count: u32,
    steps: u64,
    workers: u32,
    gate: &G,
) -> Result<Answer, NoMemory>
    requires whole { IsWellFormed net }
    requires few { steps ≤ 50000000 }
    requires workers { (0 < workers) × (workers ≤ 64) }
    ensures means { IfOk result (λ answer. SampleMeans count net steps workers answer.told.outcome (output_of answer.text.items)) }
    ensures text { IfOk result (λ answer. IsTelling answer.told) }
{
    let ran = run_net(rt, alloc, net, maker, steps, workers, gate)?;
    let text = match ran.outcome {
        Outcome::Done => summary(alloc, count, &ran.core)?,
        _ => Vec::new(alloc),
    };
    let told = with_text(alloc, ran.outcome)?;
    Ok(Answer { text, told })
}

// The line that sums up the sample of so many lines.
fn summary<S: Stage>(alloc: Global, count: u32, core: &Core<S>) -> Result<Vec<u8>, NoMemory>
    requires home { core.now.out ≡ [] }
    requires few { length core.now.net.strands ≤ 65536 }
    ensures { IfOk result (λ text. text.items ≡ summary count (console_from (state_of core.now) 0 core.now.net.strands) (length core.now.journal)) }
{
    let console = console_text(alloc, core)?;
    let mut text = Vec::new(alloc);
    add(&mut text, "sample ")?;
    add_number(&mut text, count)?;
    add(&mut text, " lines ")?;
    add_number(&mut text, line_count(&console))?;
    add(&mut text, " bytes ")?;
    add_number(&mut text, console.len())?;
    add(&mut text, " steps ")?;
    add_number(&mut text, core.len())?;
    add(&mut text, "\n")?;
    Ok(text)
}

// How many lines a text has, each of which ends with a line feed.
fn line_count(text: &[u8]) -> usize
    ensures { result ≡ line_count text.now }
{
    text.iter().filter(|byte| **byte == b'\n').count()
}
