//! The numbers of the sets that the workers go on with. No clause says where one is: each is tested where it is used, and
//! what no worker finds is left to the caller's thread.
ghost use Rattle.std.specs.Prelude.{◌<◌};

use crate::hands::Hand;
use crossbeam_deque::{Steal, Stealer, Worker};
use pipe_model::NoMemory;
use std::alloc::Global;
use std::hint::spin_loop;

// How often one tries to steal from a deque where others were faster.
const MOST_TRIES: u32 = 64;

// The numbers below `sets` that this worker begins with: those of so many workers are dealt in turn.
pub(crate) fn deal_numbers(
    alloc: Global,
    own: u32,
    workers: u32,
    sets: u32,
) -> Result<Worker<u32>, NoMemory>
    requires { 0 < workers }
{
    let mut numbers = Worker::new_fifo(alloc, sets.div_ceil(workers) as usize)?;
    for number in 0..sets {
        if number % workers == own {
            let _ = numbers.push(number);
        }
    }
    Ok(numbers)
}

// By these each worker steals from the others.
pub(crate) fn stealers_of(alloc: Global, hands: &[Hand]) -> Result<Vec<Stealer<u32>>, NoMemory> {
    let mut stealers = Vec::new(alloc);
    for hand in hands {
        stealers.push(hand.numbers.stealer()?)?;
    }
    Ok(stealers)
}

// The next number of one's own, or else one that is stolen from another.
pub(crate) fn next_number(
    numbers: &mut Worker<u32>,
    stealers: &[Stealer<u32>],
    own: usize,
) -> Option<u32> {
    if let Some(number) = numbers.pop() {
        return Some(number);
    }
    let workers = stealers.len();
    for step in 1..workers {
        let other = own.wrapping_add(step) % workers;
        if let Some(number) = steal(&stealers[other]) {
            return Some(number);
        }
    }
    None
}

fn steal(stealer: &Stealer<u32>) -> Option<u32> {
    for _ in 0..MOST_TRIES {
        match stealer.steal() {
            Steal::Success(number) => return Some(number),
            Steal::Empty => return None,
            Steal::Retry => spin_loop(),
        }
    }
    None
}
