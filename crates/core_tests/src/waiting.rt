use connectors::Wire;
use pipe_model::NoMemory;
use record_pool::Pool;
use std::alloc::Global;
use std::test::Fail;

// Whether a record is at hand once it was put into a queue, and after it was taken, and the blocks in use between.
fn go_through(alloc: Global, pool: &mut Pool) -> Result<([bool; 2], u64), NoMemory> {
    let grip = pool.put(b"three")?;
    let mut wire = Wire::new(alloc, true);
    let Ok(()) = wire.reserve(pool) else {
        pool.give(grip);
        wire.drain(pool);
        return Err(NoMemory);
    };
    wire.offer(grip);
    wire.settle(pool);
    let put = wire.at_hand().is_some();
    let used = pool.in_use();
    wire.take(pool);
    let taken = wire.at_hand().is_some();
    wire.drain(pool);
    Ok(([put, taken], used))
}

#[test]
fn a_record_waits_in_a_queue(rt: HostRuntime) -> Result<(), Fail> {
    let mut pool = Pool::new(rt.alloc());
    let went = go_through(rt.alloc(), &mut pool);
    assert_eq!(rt; pool.in_use(), 0);
    pool.close();
    assert_eq!(rt; went?, ([true, false], 2));
    Ok(())
}
