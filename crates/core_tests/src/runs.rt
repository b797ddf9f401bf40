use crate::consoles::passing_core;
use core_machine::{Core, Ready, RunEnd, Turned};
use outside::OpenGate;
use pipe_model::NoMemory;
use stage_steps::Stage;
use std::alloc::Global;
use std::test::Fail;

// A CONSOLE that isn't first keeps each record that it took.
#[test]
fn a_run_keeps_what_was_taken(rt: HostRuntime) -> Result<(), Fail> {
    let alloc = rt.alloc();
    let mut core = passing_core(alloc, 29)?;
    let end = core.run_one_thread(alloc, &OpenGate)?;
    assert_eq!(rt; (end, core.len()), (RunEnd::Complete, 29));
    assert!(rt; core.kept(2) == b"ab\ncd\nb\n".as_slice());
    Ok(())
}

/// A strand's event on a stream, where it may have one, with its work.
pub(crate) fn work<S: Stage>(
    core: &mut Core<S>,
    alloc: Global,
    strand: u32,
    stream: u16,
    room: &mut Vec<u8>,
) -> Result<(), NoMemory> {
    let Turned::Work(job) = core.turn(strand, stream, room) else {
        return Ok(());
    };
    let done = job.run(alloc, room);
    core.finish(done)
}

// After the last CONSOLE saw a record, it and the others take it and have put it, until the next one is seen. With sights
// they go on until the records end.
#[test]
fn records_are_taken_and_put_in_a_row(rt: HostRuntime) -> Result<(), Fail> {
    let alloc = rt.alloc();
    let mut core = passing_core(alloc, 40)?;
    let mut room = Vec::with_capacity(alloc, 2)?;
    for strand in [0, 1, 2, 0, 1, 1, 2, 2] {
        work(&mut core, alloc, strand, 0, &mut room)?;
    }
    if core.is_broken() {
        return Err(NoMemory.into());
    }
    assert_eq!(rt;
        (core.len(), core.run_on_records(alloc, false, 16)?),
        (8, 4)
    );
    assert_eq!(rt;
        (core.run_on_records(alloc, true, 16)?, core.len()),
        (12, 24)
    );
    Ok(())
}

// Beyond the words of one word of the summary, and beyond the strands of any net.
#[test]
fn a_set_of_strands_is_as_large_as_it_is_made(rt: HostRuntime) -> Result<(), Fail> {
    let mut ready = Ready::new(rt.alloc(), 300_000)?;
    ready.insert(299_999);
    ready.insert(65_536);
    let first = ready.least();
    ready.remove(65_536);
    assert_eq!(rt; [first, ready.least()], [Some(65_536), Some(299_999)]);
    Ok(())
}
