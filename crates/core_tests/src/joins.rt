ghost use Rattle.std.specs.Prelude.{◌≡◌, IfOk};
ghost use Rattle.braid_check.specs.Examples.{apart};
ghost use Rattle.confluence_laws.specs.Examples.{locate, nesting, nesting_delayed};

use braid_check::{Settled, forks, settled};
use pipe_model::{Kind, Link, Net, NoMemory, Range, Rec, Span, Strand};
use std::alloc::Global;
use std::test::Fail;

// A FANINANY, a JUXTAPOSE and a GATE that nothing joins.
fn apart_net(alloc: Global) -> Result<Net, NoMemory>
    ensures { IfOk result (λ net. net ≡ apart) }
{
    let pair = [false, false];
    let mut strands = Vec::new(alloc);
    strands.push(Strand::of_stage(alloc, 0, Kind::FanInAny, &pair, &[false])?)?;
    strands.push(Strand::of_stage(alloc, 1, Kind::Juxtapose, &pair, &[false])?)?;
    strands.push(Strand::of_stage(alloc, 2, Kind::Gate, &pair, &pair)?)?;
    Ok(Net::new(strands, Vec::new(alloc)))
}

// A FANINANY and a JUXTAPOSE without links are no reason, and a GATE is.
#[test]
fn the_least_reason_is_told(rt: HostRuntime) -> Result<(), Fail> {
    let alloc = rt.alloc();
    let net = apart_net(alloc)?;
    assert!(rt; settled(alloc, &net)? == Settled::Loose(2));
    Ok(())
}

/// LOCATE of a string in the whole record.
pub(crate) fn located(alloc: Global, text: &[u8]) -> Result<Kind, NoMemory>
    ensures { IfOk result (λ kind. kind ≡ locate text.now) }
{
    let range = Range {
        span: Span::Columns,
        first: 1,
        last: None,
    };
    let text = Some(Rec::from_slice(alloc, text)?);
    Ok(Kind::Locate { range, text })
}

/// (endchar ?) console | a: locate /x/ | b: locate /y/ | c: faninany | d: faninany | console ? a: | d: ? b: | c:
pub(crate) fn nesting_net(alloc: Global) -> Result<Net, NoMemory>
    ensures { IfOk result (λ net. net ≡ nesting) }
{
    let pair = [true, true];
    let mut strands = Vec::new(alloc);
    let bytes = Rec::from_slice(alloc, b"xy\nx\nz\n")?;
    strands.push(Strand::of_stage(alloc, 0, Kind::ConsoleIn { bytes }, &[], &[true])?)?;
    strands.push(Strand::of_stage(alloc, 1, located(alloc, b"x")?, &[true], &pair)?)?;
    strands.push(Strand::of_stage(alloc, 2, located(alloc, b"y")?, &[true], &pair)?)?;
    strands.push(Strand::of_stage(alloc, 3, Kind::FanInAny, &pair, &[true])?)?;
    strands.push(Strand::of_stage(alloc, 4, Kind::FanInAny, &pair, &[true])?)?;
    strands.push(Strand::of_stage(alloc, 5, Kind::ConsoleOut, &[true], &[false])?)?;
    let links = vec![in alloc;
        Link::rendezvous(0, 0, 1, 0),
        Link::rendezvous(1, 0, 2, 0),
        Link::rendezvous(2, 0, 3, 0),
        Link::rendezvous(3, 0, 4, 0),
        Link::rendezvous(4, 0, 5, 0),
        Link::rendezvous(1, 1, 4, 1),
        Link::rendezvous(2, 1, 3, 1),
    ]?;
    Ok(Net::new(strands, links))
}

// The same with a COPY before the outer FANINANY.
fn delayed_net(alloc: Global) -> Result<Net, NoMemory>
    ensures { IfOk result (λ net. net ≡ nesting_delayed) }
{
    let pair = [true, true];
    let mut strands = Vec::new(alloc);
    let bytes = Rec::from_slice(alloc, b"")?;
    strands.push(Strand::of_stage(alloc, 0, Kind::ConsoleIn { bytes }, &[], &[true])?)?;
    strands.push(Strand::of_stage(alloc, 1, located(alloc, b"x")?, &[true], &pair)?)?;
    strands.push(Strand::of_stage(alloc, 2, located(alloc, b"y")?, &[true], &pair)?)?;
    strands.push(Strand::of_stage(alloc, 3, Kind::FanInAny, &pair, &[true])?)?;
    strands.push(Strand::of_stage(alloc, 4, Kind::Copy, &[true], &[true])?)?;
    strands.push(Strand::of_stage(alloc, 5, Kind::FanInAny, &pair, &[true])?)?;
    strands.push(Strand::of_stage(alloc, 6, Kind::ConsoleOut, &[true], &[false])?)?;
    let links = vec![in alloc;
        Link::rendezvous(0, 0, 1, 0),
        Link::rendezvous(1, 0, 2, 0),
        Link::rendezvous(2, 0, 3, 0),
        Link::rendezvous(3, 0, 4, 0),
        Link::rendezvous(4, 0, 5, 0),
        Link::rendezvous(5, 0, 6, 0),
        Link::rendezvous(1, 1, 5, 1),
        Link::rendezvous(2, 1, 3, 1),
    ]?;
    Ok(Net::new(strands, links))
}

// Each FANINANY has the LOCATE where its ways part.
#[test]
fn a_braid_may_contain_a_braid(rt: HostRuntime) -> Result<(), Fail> {
    let alloc = rt.alloc();
    let net = nesting_net(alloc)?;
    assert!(rt; settled(alloc, &net)? == Settled::Yes);
    let forks = forks(alloc, &net)?;
    assert!(rt; forks.as_slice() == [None, None, None, Some(2), Some(1), None].as_slice());
    Ok(())
}

#[test]
fn a_copy_on_one_way_is_the_reason(rt: HostRuntime) -> Result<(), Fail> {
    let alloc = rt.alloc();
    let net = delayed_net(alloc)?;
    assert!(rt; settled(alloc, &net)? == Settled::Loose(5));
    Ok(())
}
