//! Boards that are closed after the work.
ghost use Rattle.std.specs.Prelude.{◌≡◌, ℕ, ◌+◌, ◌-◌, ◌<◌, ◌≤◌, All, length, take, slice_index_or, vec_len, vec_capacity};
ghost use Rattle.std.specs.List.{AllZip};
ghost use Rattle.board.specs.Names.{view, board_of, board_id};
ghost use Rattle.board.specs.declared.view.View.{View};
ghost use Rattle.workers.specs.Hands.{IsWorker};
ghost use Rattle.workers.specs.Driven.{LeftByWorkers};
ghost use Rattle.many_sets.specs.Hands.{IsFounded, last_pass, last_shares};

use crate::hands::Hand;
use board::{Board, Pass};
use core_machine::Core;
use stage_steps::Stage;
use std::snapshot::Snapshot;
use std::sync::Wait;

// Brings the core of each board back to where it came from, behind those that never had one.
pub(crate) fn close_all<S: Stage, R: Wait>(
    rt: &R,
    mut boards: Vec<Board<S>>,
    hands: &mut [Hand],
    mut cores: Vec<Core<S>>,
    origin: &Snapshot<Vec<Core<S>>>,
) -> Vec<Core<S>>
    requires some { 0 < length hands.old }
    requires founded { IsFounded origin.now.value.items boards.items hands.old }
    requires left { AllZip LeftByWorkers (take (vec_len cores) origin.now.value.items) cores.items }
    requires count { vec_len cores + vec_len boards ≡ vec_len origin.now.value }
    requires capacity { vec_len origin.now.value ≤ vec_capacity cores }
    ensures { AllZip LeftByWorkers origin.now.value.items result.items }
{
    while let Some(board) = boards.pop() {
        let pass = meet_last(&board, hands);
        cores.push_reserved(board.close(rt, pass));
    }
    cores
}

// The last passes of all as one.
fn meet_last<S: Stage>(board: &Board<S>, hands: &mut [Hand]) -> Pass
    requires some { 0 < length hands.old }
    requires passes { All (λ h. 0 < length h.passes.items) hands.old }
    requires boards { (d : Pass) → All (λ h. board_of (last_pass d h) ≡ board_id board.now) hands.old }
    ensures board { board_of result ≡ board_id board.now }
    ensures workers { (v : View) → ((d : Pass) → All (λ h. IsWorker (board_id board.now) v (last_pass d h)) hands.old) → IsWorker (board_id board.now) v result }
    ensures shares { (d : Pass) → (view result).shares ≡ last_shares d hands.old }
    ensures len { length hands.new ≡ length hands.old }
    ensures left { (i : ℕ) (h : Hand) → i < length hands.old → (slice_index_or hands.new i h).passes.items ≡ take (length (slice_index_or hands.old i h).passes.items - 1) (slice_index_or hands.old i h).passes.items }
{
    let workers = hands.len();
    let mut all = hands[0].passes.pop().unwrap();
    for at in 1..workers {
        let pass = hands[at].passes.pop().unwrap();
        all = board.meet(all, pass);
    }
    all
}
