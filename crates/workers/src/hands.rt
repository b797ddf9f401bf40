//! The workers of a board: each has a pass of its own.
ghost use Rattle.std.specs.Prelude.{◌≡◌, ℕ, ◌<◌, ◌≤◌, All, length, slice_index_or, IfOk, IfErr, vec_len};
ghost use Rattle.board.specs.Names.{view, board_of, board_id};
ghost use Rattle.board.specs.Counts.{all_tries};
ghost use Rattle.board.specs.declared.view.View.{View};
ghost use Rattle.workers.specs.Work.{IsSettled};
ghost use Rattle.workers.specs.Hands.{MayWork, LeftTo, IsWorker, shares_of, tries_of, worker_tries};

use crate::working::{WorkEnd, work};
use board::{Board, Pass};
use outside::Gate;
use stage_steps::Stage;
use std::alloc::Global;
use std::sync::Wait;
use std::thread;
use std::thread::Threads;

/// What a worker has: its pass, a room for the records that it looks at, and how its work ended, once it did.
#[derive(Drop)]
pub(crate) struct Hand {
    pub pass: Pass,
    pub room: Vec<u8>,
    pub end: Option<WorkEnd>,
}

/// The tries of each worker's pass; of so many, 64 workers have all.
pub const WORKER_TRIES: u64 = 1 << 57;

impl Hand {
    fn new(alloc: Global, pass: Pass) -> Hand
        ensures { result.pass ≡ pass }
    {
        Hand {
            pass,
            room: Vec::new(alloc),
            end: None,
        }
    }
}

// A hand for each worker; together they have what the pass had. Without memory for them the pass is handed back.
pub(crate) fn deal<S: Stage>(
    alloc: Global,
    board: &Board<S>,
    pass: Pass,
    workers: u32,
) -> Result<Vec<Hand>, Pass>
    requires board { board_of pass ≡ board_id board.now }
    requires workers { (0 < workers) × (workers ≤ 64) }
    requires shares { 64 ≤ (view pass).shares }
    requires tries { all_tries ≤ (view pass).tries }
    requires settled { IsSettled (view pass) }
    ensures hands { IfOk result (λ hands. All (λ h. IsWorker (board_id board.now) (view pass) h.pass) hands.items) }
    ensures shares { IfOk result (λ hands. shares_of hands.items ≡ (view pass).shares) }
    ensures tries { IfOk result (λ hands. All (λ h. worker_tries ≤ (view h.pass).tries) hands.items) }
    ensures all_tries { IfOk result (λ hands. tries_of hands.items ≡ (view pass).tries) }
    ensures some { IfOk result (λ hands. vec_len hands ≡ workers) }
    ensures back { IfErr result (λ back. back ≡ pass) }
{
    let Ok(mut hands) = Vec::with_capacity(alloc, workers as usize) else {
        return Err(pass);
    };
    let mut rest = pass;
    for _ in 1..workers {
        let (left, right) = board.split(rest, WORKER_TRIES);
        rest = left;
        hands.push_reserved(Hand::new(alloc, right));
    }
    hands.push_reserved(Hand::new(alloc, rest));
    Ok(hands)
}

// Each works in a thread of its own, where one can be had.
pub(crate) fn work_all<S: Stage + Send, R: Threads + Wait + Sync, G: Gate + Sync>(
    rt: &R,
    alloc: Global,
    board: &Board<S>,
    hands: &mut [Hand],
    gate: &G,
)
    requires passes { All (λ h. MayWork (board_id board.now) h.pass) hands.old }
    ensures passes { (i : ℕ) (d : _) → i < length hands.old → LeftTo (slice_index_or hands.old i d).pass (slice_index_or hands.new i d).pass }
    ensures len { length hands.new ≡ length hands.old }
{
    let threads = hands.len().max(1);
    thread::for_each_mut(
        rt,
        hands,
        threads,
        &|_, hand: &mut Hand|
            requires { MayWork (board_id board.now) hand.old.pass }
            ensures { LeftTo hand.old.pass hand.new.pass }
        { work_one(rt, alloc, board, hand, gate) },
    );
}

fn work_one<S: Stage + Send, R: Wait, G: Gate + Sync>(
    rt: &R,
    alloc: Global,
    board: &Board<S>,
    hand: &mut Hand,
    gate: &G,
)
    requires { MayWork (board_id board.now) hand.old.pass }
    ensures { LeftTo hand.old.pass hand.new.pass }
{
    let end = work(rt, alloc, board, &mut hand.pass, &mut hand.room, gate);
    hand.end = Some(end);
}

// All passes as one.
pub(crate) fn meet_all<S: Stage>(board: &Board<S>, mut hands: Vec<Hand>) -> Pass
    requires some { 0 < vec_len hands }
    requires boards { All (λ h. board_of h.pass ≡ board_id board.now) hands.items }
    ensures board { board_of result ≡ board_id board.now }
    ensures passes { (v : View) → All (λ h. IsWorker (board_id board.now) v h.pass) hands.items → IsWorker (board_id board.now) v result }
    ensures shares { (view result).shares ≡ shares_of hands.items }
{
    let mut all = hands.pop().unwrap().pass;
    while let Some(hand) = hands.pop() {
        all = board.meet(all, hand.pass);
    }
    all
}
