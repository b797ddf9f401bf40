//! Boards for cores, with a pass of each for each worker.
ghost use Rattle.std.specs.Prelude.{◌≡◌, ◌+◌, ◌<◌, ◌≤◌, All, [], false, length, take, vec_len, vec_capacity};
ghost use Rattle.board.specs.Counts.{all_tries};
ghost use Rattle.board.specs.Names.{view, board_of, board_id};
ghost use Rattle.workers.specs.Work.{IsSettled};
ghost use Rattle.many_sets.specs.Hands.{IsFounded, WereGiven};

use crate::hands::Hand;
use board::{Board, Pass};
use core_machine::Core;
use stage_steps::Stage;
use std::alloc::Global;
use workers::WORKER_TRIES;

// Founds a board for each core, from the last on, as long as there is memory, and deals its passes. The cores that are left
// have none.
pub(crate) fn found_all<S: Stage>(
    alloc: Global,
    cores: &mut Vec<Core<S>>,
    boards: &mut Vec<Board<S>>,
    hands: &mut [Hand],
)
    requires home { All (λ core. core.out ≡ []) cores.old.items }
    requires whole { All (λ core. core.is_broken ≡ false) cores.old.items }
    requires workers { (0 < length hands.old) × (length hands.old ≤ 64) }
    requires none { (boards.old.items ≡ []) × All (λ h. h.passes.items ≡ []) hands.old }
    requires room { (vec_len cores.old ≤ vec_capacity boards.old) × All (λ h. vec_len cores.old ≤ vec_capacity h.passes) hands.old }
    ensures founded { IsFounded cores.old.items boards.new.items hands.new }
    ensures left { cores.new.items ≡ take (vec_len cores.new) cores.old.items }
    ensures count { vec_len cores.new + vec_len boards.new ≡ vec_len cores.old }
    ensures capacity { vec_capacity cores.new ≡ vec_capacity cores.old }
    ensures len { length hands.new ≡ length hands.old }
{
    while let Some(core) = cores.pop() {
        match Board::new(alloc, core) {
            Ok((board, pass)) => {
                deal(&board, pass, hands);
                boards.push_reserved(board);
            }
            Err(core) => {
                cores.push_reserved(core);
                return;
            }
        }
    }
}

// Gives each worker a part of the pass.
fn deal<S: Stage>(board: &Board<S>, pass: Pass, hands: &mut [Hand])
    requires board { board_of pass ≡ board_id board.now }
    requires workers { (0 < length hands.old) × (length hands.old ≤ 64) }
    requires room { All (λ h. vec_len h.passes < vec_capacity h.passes) hands.old }
    requires shares { 64 ≤ (view pass).shares }
    requires tries { all_tries ≤ (view pass).tries }
    requires settled { IsSettled (view pass) }
    ensures { WereGiven board.now (view pass) hands.old hands.new }
{
    let last = hands.len() - 1;
    let mut rest = pass;
    for at in 0..last {
        let (left, right) = board.split(rest, WORKER_TRIES);
        rest = left;
        hands[at].passes.push_reserved(right);
    }
    hands[last].passes.push_reserved(rest);
}
