//! What the stages of a net are fed: the files that they read, and then the input.
ghost use Rattle.std.specs.Prelude.{IfErr, IfOk, MatchResult};
ghost use Rattle.outside.specs.Device.{Device, device};
ghost use Rattle.pipe_model.specs.WellFormed.{IsWellFormed};
ghost use Rattle.net_graph.specs.Fed.{AreUnfiled};
ghost use Rattle.call_meaning.specs.Devices.{outside, store};
ghost use Rattle.call_streams.specs.Fetched.{AreOf, files_known};
ghost use Rattle.call_streams.specs.Feeding.{IsFed, IsFedPart};
ghost use Rattle.call_streams.specs.Texts.{IsTelling};

use crate::fetch::{Found, fetch_files};
use crate::input::take_input;
use crate::read::INPUT_LIMIT;
use crate::text::{Told, tell};
use outside::{Shelf, Source};
use pipe_model::Net;
use std::alloc::Global;

/// The net with what its stages are fed: each `<` its file, in the order of the strands, and each reading CONSOLE the input. The files that
/// were found before aren't fetched again. An error is a fault of the shelf or of the input, too many bytes or want of memory, with its text.
pub fn feed_net<I: Source, F: Shelf>(
    alloc: Global,
    net: Net,
    found: Vec<Found>,
    input: &mut I,
    shelf: &mut F,
) -> Result<Net, Told>
    requires whole { IsWellFormed net }
    requires unfiled { AreUnfiled net }
    requires known { AreOf (files_known (F.files shelf.old) found.items) found.items }
    ensures fed { (output : Device) →
        let old = outside (device (I.left input.old) (I.faults input.old)) output (store (F.files shelf.old) (F.faults shelf.old) (F.wants shelf.old)) in
        let new = outside (device (I.left input.new) (I.faults input.new)) output (store (F.files shelf.new) (F.faults shelf.new) (F.wants shelf.new)) in
        MatchResult result (λ after. IsFed net found.items old new after) (λ told. IsFedPart net found.items old new told.outcome) }
    ensures whole { IfOk result (λ after. IsWellFormed after) }
    ensures text { IfErr result IsTelling }
{
    let mut net = net;
    let mut found = found;
    let size = fetch_files(alloc, &mut net, &mut found, 0, shelf)?;
    match take_input(alloc, net, input, INPUT_LIMIT - size) {
        Ok(net) => Ok(net),
        Err(outcome) => Err(tell(alloc, outcome)),
    }
}
