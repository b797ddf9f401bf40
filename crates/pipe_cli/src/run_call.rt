//! A run of a specification.
ghost use Rattle.std.specs.Prelude.{◌≡◌, ◌<◌, ◌≤◌, ℕ, List};
ghost use Rattle.outside.specs.Device.{device};
ghost use Rattle.pipe_model.specs.WellFormed.{IsWellFormed};
ghost use Rattle.net_graph.specs.Fed.{AreUnfiled};
ghost use Rattle.call_meaning.specs.Answer.{Decides};
ghost use Rattle.call_meaning.specs.Devices.{outside, store};
ghost use Rattle.call_meaning.specs.Meaning.{RunsNet};
ghost use Rattle.call_streams.specs.Texts.{IsTelling};

use crate::stages::BuiltInMaker;
use call_streams::{Told, feed_net};
use net_runs::carry_out;
use outside::{Gate, Shelf, Sink, Source};
use pipe_model::{Net, Rec};
use std::alloc::Global;
use std::sync::Wait;
use std::thread::Threads;

// Feeds the net and runs it, and then writes the output, replaces the files and, if one is named, that of the journal. All texts are made
// before the first byte is written.
pub(crate) fn run_call<Rt: Threads + Wait + Sync, I: Source, O: Sink, F: Shelf, G: Gate + Sync>(
    rt: &Rt,
    alloc: Global,
    net: Net,
    steps: u64,
    workers: u32,
    trace: Option<Rec>,
    input: &mut I,
    output: &mut O,
    shelf: &mut F,
    gate: &G,
) -> Told
    requires whole { IsWellFormed net }
    requires unfiled { AreUnfiled net }
    requires few { steps ≤ 50000000 }
    requires workers { (0 < workers) × (workers ≤ 64) }
    ensures decides { (words : List (List ℕ)) (runs : RunsNet words net steps trace) → runs.run.workers ≡ workers → Decides words
        (outside (device (I.left input.old) (I.faults input.old)) (device (O.written output.old) (O.faults output.old)) (store (F.files shelf.old) (F.faults shelf.old) (F.wants shelf.old)))
        (outside (device (I.left input.new) (I.faults input.new)) (device (O.written output.new) (O.faults output.new)) (store (F.files shelf.new) (F.faults shelf.new) (F.wants shelf.new)))
        result.outcome }
    ensures text { IsTelling result }
{
    let net = match feed_net(alloc, net, Vec::new(alloc), input, shelf) {
        Ok(net) => net,
        Err(told) => return told,
    };
    carry_out(
        rt,
        alloc,
        net,
        &BuiltInMaker,
        steps,
        workers,
        trace,
        output,
        shelf,
        gate,
    )
}
