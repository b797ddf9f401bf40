//! Many sets: each line of a file is a specification of its own.
ghost use Rattle.std.specs.Prelude.{◌≡◌, ◌<◌, ◌≤◌, ℕ, List};
ghost use Rattle.std.specs.declared.option.Option.TheVariants.{Some};
ghost use Rattle.outside.specs.Device.{device};
ghost use Rattle.call_words.specs.Command.{command_of};
ghost use Rattle.call_words.specs.declared.command.Command.TheVariants.{Sets};
ghost use Rattle.call_meaning.specs.Answer.{Decides};
ghost use Rattle.call_meaning.specs.Devices.{outside, store};
ghost use Rattle.call_streams.specs.Texts.{IsTelling};

use crate::stages::BuiltInMaker;
use call_meaning::sets_of;
use call_streams::{Listed, Told, feed_sets, fetch_sets, no_memory};
use net_runs::carry_out_sets;
use outside::{Gate, Shelf, Sink, Source};
use pipe_model::Rec;
use std::alloc::Global;
use std::sync::Wait;
use std::thread::Threads;

// Fetches the file of sets, feeds and runs all of them, and then writes the output of all and replaces their files. All texts are made before
// the first byte is written.
pub(crate) fn sets_call<Rt: Threads + Wait + Sync, I: Source, O: Sink, F: Shelf, G: Gate + Sync>(
    rt: &Rt,
    alloc: Global,
    name: Rec,
    steps: u64,
    workers: u32,
    input: &mut I,
    output: &mut O,
    shelf: &mut F,
    gate: &G,
) -> Told
    requires steps { (0 < steps) × (steps ≤ 50000000) }
    requires workers { (0 < workers) × (workers ≤ 64) }
    ensures decides { (words : List (List ℕ)) → command_of words ≡ Some (Sets name workers steps) → Decides words
        (outside (device (I.left input.old) (I.faults input.old)) (device (O.written output.old) (O.faults output.old)) (store (F.files shelf.old) (F.faults shelf.old) (F.wants shelf.old)))
        (outside (device (I.left input.new) (I.faults input.new)) (device (O.written output.new) (O.faults output.new)) (store (F.files shelf.new) (F.faults shelf.new) (F.wants shelf.new)))
        result.outcome }
    ensures text { IsTelling result }
{
    let Listed { text, found } = match fetch_sets(alloc, &name, steps, shelf) {
        Ok(listed) => listed,
        Err(told) => return told,
    };
    let Ok(sets) = sets_of(alloc, text.bytes()) else {
        return no_memory();
    };
    let sets = match feed_sets(alloc, sets, found, input, shelf) {
        Ok(sets) => sets,
        Err(told) => return told,
    };
    carry_out_sets(
        rt,
        alloc,
        sets,
        &BuiltInMaker,
        steps,
        workers,
        output,
        shelf,
        gate,
    )
}
