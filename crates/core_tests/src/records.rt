use pipe_model::{NoMemory, Rec};
use record_pool::Pool;
use std::alloc::Global;
use std::test::Fail;

// Whether a record that is copied and one that is moved are read as they were put, and whether the latter was left
// empty.
fn are_apart(
    alloc: Global,
    pool: &mut Pool,
    first: &[u8],
    second: &[u8],
) -> Result<[bool; 3], NoMemory> {
    let mut moved = Rec::from_slice(alloc, second)?;
    let grip = pool.put(first)?;
    let Ok(other) = pool.take_in(&mut moved) else {
        pool.give(grip);
        return Err(NoMemory);
    };
    let is_put = pool.bytes_of(&grip) == first;
    let is_moved = pool.bytes_of(&other) == second;
    pool.give(grip);
    pool.give(other);
    Ok([is_put, is_moved, moved.bytes().is_empty()])
}

#[test]
fn a_pool_keeps_the_bytes_of_each(rt: HostRuntime) -> Result<(), Fail> {
    let mut pool = Pool::new(rt.alloc());
    let told = are_apart(rt.alloc(), &mut pool, b"one", b"other");
    assert_eq!(rt; pool.in_use(), 0);
    pool.close();
    assert_eq!(rt; told?, [true; 3]);
    Ok(())
}
