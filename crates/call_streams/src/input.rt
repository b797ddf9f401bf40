ghost use Rattle.std.specs.Prelude.{◌≡◌, ℕ, List, MatchResult, IfOk, OnOk};
ghost use Rattle.pipe_model.specs.WellFormed.{IsWellFormed};
ghost use Rattle.net_graph.specs.Fed.{reads_any, reads_input, with_input};
ghost use Rattle.outside.specs.Device.{device};
ghost use Rattle.call_streams.specs.Taken.{IsTaken, IsTakenPart};

use crate::read::read_all;
use call_meaning::Outcome;
use net_graph::feed;
use outside::Source;
use pipe_model::{Net, NoMemory, Rec, Strand, reads_input};
use std::alloc::Global;

// Reads the input to its end, `limit` bytes at most, where a CONSOLE of the net reads it, and gives it to that, which will hold it together
// with its stage. An error is a read fault, too much input or want of memory.
pub(crate) fn take_input<I: Source>(
    alloc: Global,
    net: Net,
    input: &mut I,
    limit: usize,
) -> Result<Net, Outcome>
    requires whole { IsWellFormed net }
    ensures taken { let old = device (I.left input.old) (I.faults input.old) in let new = device (I.left input.new) (I.faults input.new) in
        MatchResult result (λ after. (bytes : List ℕ) × IsTaken limit net old new bytes × (after ≡ with_input bytes net)) (λ outcome. IsTakenPart limit net old new outcome) }
    ensures whole { IfOk result IsWellFormed }
{
    if !net_reads(&net) {
        return Ok(net);
    }
    let bytes = read_all(alloc, input, limit)?;
    let mut net = net;
    match feed_input(alloc, &mut net, bytes) {
        Ok(()) => Ok(net),
        Err(NoMemory) => Err(Outcome::NoMemory),
    }
}

/// Gives the bytes of the input to all that read it, which hold them once among them.
pub fn feed_input(alloc: Global, net: &mut Net, bytes: Vec<u8>) -> Result<(), NoMemory>
    requires { IsWellFormed net.old }
    ensures fed { OnOk result (net.new ≡ with_input bytes.items net.old) }
    ensures whole { OnOk result (IsWellFormed net.new) }
{
    let input = Rec::shared(alloc, bytes)?;
    give_input(alloc, net, &input)
}

// Gives the bytes of the input to all that read it.
pub(crate) fn give_input(alloc: Global, net: &mut Net, input: &Rec) -> Result<(), NoMemory>
    requires { IsWellFormed net.old }
    ensures fed { OnOk result (net.new ≡ with_input input.now net.old) }
    ensures whole { OnOk result (IsWellFormed net.new) }
{
    for strand in 0..net.strands.as_slice().len() {
        if reads(&net.strands.as_slice()[strand]) {
            feed(net, strand as u32, input.copy(alloc)?);
        }
    }
    Ok(())
}

// A CONSOLE of the net reads the input.
pub(crate) fn net_reads(net: &Net) -> bool
    ensures { result ≡ reads_any net.now }
{
    net.strands.as_slice().iter().any(reads)
}

// The strand is a CONSOLE that reads.
fn reads(strand: &Strand) -> bool
    ensures { result ≡ reads_input strand.now.kind }
{
    reads_input(&strand.kind)
}
