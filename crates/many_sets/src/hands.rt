//! The workers of many boards.
ghost use Rattle.std.specs.Prelude.{◌≡◌, ◌<◌, ◌≤◌, All, [], IfOk, vec_len, vec_capacity};

use crate::numbers::deal_numbers;
use board::Pass;
use crossbeam_deque::Worker;
use pipe_model::NoMemory;
use std::alloc::Global;

/// What a worker has: a pass for each board, a room for the records that it looks at, and numbers of sets to go on with.
#[derive(Drop)]
pub(crate) struct Hand {
    pub passes: Vec<Pass>,
    pub room: Vec<u8>,
    pub numbers: Worker<u32>,
}

impl Hand {
    fn new(alloc: Global, sets: u32, numbers: Worker<u32>) -> Result<Hand, NoMemory>
        ensures none { IfOk result (λ hand. hand.passes.items ≡ []) }
        ensures room { IfOk result (λ hand. sets ≤ vec_capacity hand.passes) }
    {
        let passes = Vec::with_capacity(alloc, sets as usize)?;
        Ok(Hand {
            passes,
            room: Vec::new(alloc),
            numbers,
        })
    }
}

// So many workers with their parts of the numbers of so many sets, each with space for as many passes.
pub(crate) fn make_hands(alloc: Global, workers: u32, sets: u32) -> Result<Vec<Hand>, NoMemory>
    requires { 0 < workers }
    ensures some { IfOk result (λ hands. vec_len hands ≡ workers) }
    ensures none { IfOk result (λ hands. All (λ h. h.passes.items ≡ []) hands.items) }
    ensures room { IfOk result (λ hands. All (λ h. sets ≤ vec_capacity h.passes) hands.items) }
{
    let mut hands = Vec::with_capacity(alloc, workers as usize)?;
    for own in 0..workers {
        let numbers = deal_numbers(alloc, own, workers, sets)?;
        hands.push_reserved(Hand::new(alloc, sets, numbers)?);
    }
    Ok(hands)
}
