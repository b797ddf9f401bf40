ghost use Rattle.std.specs.Prelude.{◌≡◌, ◌<◌, vec_capacity};
ghost use Rattle.board.specs.Names.{view, board_of, board_id};
ghost use Rattle.workers.specs.Work.{IsSettled, HasWorked, EndsSo};

use crate::turns::{AfterTurn, FEWEST_TRIES, take_turn};
use crate::waits::Waits;
use board::{Board, Pass};
use outside::Gate;
use stage_steps::Stage;
use std::alloc::Global;
use std::sync::Wait;

/// How a worker's work ended.
#[derive(Clone, Copy, Debug, PartialEq, Eq)]
pub enum WorkEnd {
    /// No strand may have an event, and none is out.
    Complete,
    /// The journal has as many entries as the budget allows, and a strand may have an event.
    Spent,
    /// An earlier finish wanted memory.
    Broken,
    /// It wanted memory itself, for its room, for a job or to bring one home.
    NoMemory,
    /// Its pass has fewer than three tries.
    Tired,
}

/// Makes the least event that may be, enters the gate where a record was seen, goes on with the coroutine and brings it
/// home, with the steps on records that follow and are short, again and again, until there is nothing left to do for anyone.
/// Where the gate isn't always open, no record is seen by these. While others have what is left, it waits. The room is for
/// the records that are looked at, and grows where one is longer.
pub fn work<S: Stage + Send, R: Wait, G: Gate + Sync>(
    rt: &R,
    alloc: Global,
    board: &Board<S>,
    pass: &mut Pass,
    room: &mut Vec<u8>,
    gate: &G,
) -> WorkEnd
    requires board { board_of pass.old ≡ board_id board.now }
    requires tries { 0 < (view pass.old).tries }
    requires settled { IsSettled (view pass.old) }
    ensures board { board_of pass.new ≡ board_of pass.old }
    ensures tries { 0 < (view pass.new).tries }
    ensures settled { IsSettled (view pass.new) }
    ensures worked { HasWorked (view pass.old) (view pass.new) }
    ensures ends { EndsSo result (view pass.new) (vec_capacity room.new) }
{
    let mut waits = Waits::new();
    for _ in rt.forever() {
        if pass.tries() < FEWEST_TRIES {
            return WorkEnd::Tired;
        }
        match take_turn(rt, alloc, board, pass, room, gate) {
            AfterTurn::Done => waits.note_job(),
            AfterTurn::Idle => waits.wait(rt, board),
            AfterTurn::Ended(end) => {
                match end {
                    WorkEnd::Complete | WorkEnd::Spent | WorkEnd::Broken => board.end_rest(),
                    WorkEnd::NoMemory | WorkEnd::Tired => board.wake_rest(),
                }
                return end;
            }
        }
    }
    unreachable!()
}
