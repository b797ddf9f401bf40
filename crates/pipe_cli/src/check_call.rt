//! A check of a journal on a specification.
ghost use Rattle.std.specs.Prelude.{ℕ, List};
ghost use Rattle.outside.specs.Device.{device};
ghost use Rattle.pipe_model.specs.WellFormed.{IsWellFormed};
ghost use Rattle.net_graph.specs.Fed.{AreUnfiled};
ghost use Rattle.call_meaning.specs.Answer.{Decides};
ghost use Rattle.call_meaning.specs.Devices.{outside, store};
ghost use Rattle.call_meaning.specs.Meaning.{ChecksNet};
ghost use Rattle.call_streams.specs.Texts.{IsTelling};

use crate::stages::BuiltInMaker;
use call_streams::{Stored, Told, feed_net, fetch_journal, give, no_memory};
use net_runs::judged;
use outside::{Shelf, Sink, Source};
use pipe_model::{Net, NoMemory, Rec};
use std::alloc::Global;

// Fetches the journal and feeds the net, plays the journal on it, and writes what it is where it is legal.
pub(crate) fn check_call<I: Source, O: Sink, F: Shelf>(
    alloc: Global,
    net: Net,
    name: Rec,
    input: &mut I,
    output: &mut O,
    shelf: &mut F,
) -> Told
    requires whole { IsWellFormed net }
    requires unfiled { AreUnfiled net }
    ensures decides { (words : List (List ℕ)) → ChecksNet words net name → Decides words
        (outside (device (I.left input.old) (I.faults input.old)) (device (O.written output.old) (O.faults output.old)) (store (F.files shelf.old) (F.faults shelf.old) (F.wants shelf.old)))
        (outside (device (I.left input.new) (I.faults input.new)) (device (O.written output.new) (O.faults output.new)) (store (F.files shelf.new) (F.faults shelf.new) (F.wants shelf.new)))
        result.outcome }
    ensures text { IsTelling result }
{
    let Stored { journal, found } = match fetch_journal(alloc, name, shelf) {
        Ok(stored) => stored,
        Err(told) => return told,
    };
    let net = match feed_net(alloc, net, found, input, shelf) {
        Ok(net) => net,
        Err(told) => return told,
    };
    match judged(alloc, net, &BuiltInMaker, &journal) {
        Ok(answer) => give(answer, output),
        Err(NoMemory) => no_memory(),
    }
}
