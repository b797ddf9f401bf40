//! The sample is run and summed up.
ghost use Rattle.std.specs.Prelude.{◌≡◌, ◌<◌, ◌≤◌, ℕ, List, IfOk};
ghost use Rattle.outside.specs.Device.{Device, device};
ghost use Rattle.pipe_model.specs.WellFormed.{IsWellFormed};
ghost use Rattle.net_graph.specs.Fed.{with_input};
ghost use Rattle.call_meaning.specs.Answer.{Decides};
ghost use Rattle.call_meaning.specs.Devices.{Store, outside};
ghost use Rattle.call_meaning.specs.Effects.{output_of};
ghost use Rattle.call_meaning.specs.Meaning.{SampleMeans, SamplesNet};
ghost use Rattle.call_meaning.specs.Sample.{sample_text};
ghost use Rattle.call_streams.specs.Texts.{IsTelling};

use crate::stages::BuiltInMaker;
use call_streams::{Answer, Told, feed_input, give, no_memory, sample_input};
use net_runs::summed_up;
use outside::{Gate, Sink};
use pipe_model::{Net, NoMemory};
use std::alloc::Global;
use std::sync::Wait;
use std::thread::Threads;

// Runs the sample's net on so many lines, and writes its summary where it ends with code 0.
pub(crate) fn sample_call<Rt: Threads + Wait + Sync, O: Sink, G: Gate + Sync>(
    rt: &Rt,
    alloc: Global,
    net: Net,
    count: u32,
    steps: u64,
    workers: u32,
    output: &mut O,
    gate: &G,
) -> Told
    requires whole { IsWellFormed net }
    requires few { steps ≤ 50000000 }
    requires workers { (0 < workers) × (workers ≤ 64) }
    ensures decides { (words : List (List ℕ)) (input : Device) (shelf : Store) (samples : SamplesNet words net count steps) → samples.workers ≡ workers → Decides words
        (outside input (device (O.written output.old) (O.faults output.old)) shelf)
        (outside input (device (O.written output.new) (O.faults output.new)) shelf)
        result.outcome }
    ensures text { IsTelling result }
{
    match run_sample(rt, alloc, net, count, steps, workers, gate) {
        Ok(answer) => give(answer, output),
        Err(NoMemory) => no_memory(),
    }
}

// Feeds the net and runs it, and makes all texts.
fn run_sample<Rt: Threads + Wait + Sync, G: Gate + Sync>(
    rt: &Rt,
    alloc: Global,
    net: Net,
    count: u32,
    steps: u64,
    workers: u32,
    gate: &G,
) -> Result<Answer, NoMemory>
    requires whole { IsWellFormed net }
    requires few { steps ≤ 50000000 }
    requires workers { (0 < workers) × (workers ≤ 64) }
    ensures means { IfOk result (λ answer. SampleMeans count (with_input (sample_text count) net) steps workers answer.told.outcome (output_of answer.text.items)) }
    ensures text { IfOk result (λ answer. IsTelling answer.told) }
{
    let bytes = sample_input(alloc, count)?;
    let mut net = net;
    feed_input(alloc, &mut net, bytes)?;
    summed_up(rt, alloc, net, &BuiltInMaker, count, steps, workers, gate)
}
