ghost use Rattle.std.specs.Prelude.{◌≡◌, IfOk};
ghost use Rattle.pipe_model.specs.WellFormed.{IsWellFormed};
ghost use Rattle.confluence_laws.specs.Examples.{prefixing};

use crate::braids::{BraidStage, MadeForStrand, core_of};
use crate::joins::{located, nesting_net};
use crate::runs::work;
use core_machine::Core;
use pipe_model::{Kind, Link, Net, NoMemory, Rec, Strand};
use stage_steps::Stage;
use std::alloc::Global;
use std::test::Fail;

// A small generator of numbers, that of the C standard's example.
#[derive(Drop)]
struct Numbers {
    last: u32,
}

impl Numbers {
    fn next(&mut self) -> usize {
        self.last = self.last.wrapping_mul(1_103_515_245).wrapping_add(12_345);
        (self.last >> 16) as usize
    }
}

// The strands that may have an event, each with its least stream.
fn ready<S: Stage>(core: &Core<S>, alloc: Global) -> Result<Vec<(u32, u16)>, NoMemory> {
    let mut ready = Vec::new(alloc);
    for strand in 0..core.strand_count() {
        if let Some(stream) = core.ready_stream(strand) {
            ready.push((strand, stream))?;
        }
    }
    Ok(ready)
}

// Draws one of the strands that may have an event, again and again, and makes its event with its work, until there is none.
fn run_in_an_order<S: Stage>(
    core: &mut Core<S>,
    alloc: Global,
    numbers: &mut Numbers,
) -> Result<(), NoMemory> {
    let mut room = Vec::with_capacity(alloc, 16)?;
    for _ in 0..1_000 {
        let ready = ready(core, alloc)?;
        if ready.is_empty() {
            break;
        }
        let (strand, stream) = ready[numbers.next() % ready.len()];
        work(core, alloc, strand, stream, &mut room)?;
    }
    Ok(())
}

// Whether a run is complete and a strand kept this text.
fn has_kept<S: Stage>(core: &Core<S>, strand: u32, text: &[u8]) -> bool {
    strand < core.strand_count() && core.is_complete() && core.kept(strand) == text
}

// How many steps a run of the net takes in the order of this seed, and whether the strand then kept this text.
fn outcome<S: MadeForStrand>(
    alloc: Global,
    net: Net,
    seed: u32,
    strand: u32,
    text: &[u8],
) -> Result<(u64, bool), NoMemory>
    requires { IsWellFormed net }
{
    let mut core: Core<S> = core_of(alloc, net, 1_000)?;
    run_in_an_order(&mut core, alloc, &mut Numbers { last: seed })?;
    Ok((core.len(), has_kept(&core, strand, text)))
}

// (endchar ?) console | a: locate /h/ | j: juxtapose | console ? a: | j:
fn prefixing_net(alloc: Global) -> Result<Net, NoMemory>
    ensures { IfOk result (λ net. net ≡ prefixing) }
{
    let pair = [true, true];
    let mut strands = Vec::new(alloc);
    let bytes = Rec::from_slice(alloc, b"h1\nx\ny\nh2\nz\n")?;
    strands.push(Strand::of_stage(alloc, 0, Kind::ConsoleIn { bytes }, &[], &[true])?)?;
    strands.push(Strand::of_stage(alloc, 1, located(alloc, b"h")?, &[true], &pair)?)?;
    strands.push(Strand::of_stage(alloc, 2, Kind::Juxtapose, &pair, &[true])?)?;
    strands.push(Strand::of_stage(alloc, 3, Kind::ConsoleOut, &[true], &[false])?)?;
    let links = vec![in alloc;
        Link::rendezvous(0, 0, 1, 0),
        Link::rendezvous(1, 0, 2, 0),
        Link::rendezvous(2, 0, 3, 0),
        Link::rendezvous(1, 1, 2, 1),
    ]?;
    Ok(Net::new(strands, links))
}

#[test]
fn headings_come_before_the_same_lines_in_each_order(rt: HostRuntime) -> Result<(), Fail> {
    let alloc = rt.alloc();
    for seed in 1..=64 {
        let net = prefixing_net(alloc)?;
        let came = outcome::<BraidStage>(alloc, net, seed, 3, b"h1x\nh1y\nh2z\n")?;
        assert_eq!(rt; came, (54, true));
    }
    Ok(())
}

#[test]
fn a_braid_in_a_braid_gives_the_same_in_each_order(rt: HostRuntime) -> Result<(), Fail> {
    let alloc = rt.alloc();
    for seed in 1..=64 {
        let net = nesting_net(alloc)?;
        let came = outcome::<BraidStage>(alloc, net, seed, 5, b"xy\nx\nz\n")?;
        assert_eq!(rt; came, (62, true));
    }
    Ok(())
}
