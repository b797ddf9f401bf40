//! One turn of a worker.
ghost use Rattle.std.specs.Prelude.{◌≡◌, ◌<◌, ◌≤◌, take, IfOk, vec_capacity};
ghost use Rattle.stage_steps.specs.Coroutine.{CanResume, Resumes};
ghost use Rattle.core_machine.specs.Jobs.{DoneStands};
ghost use Rattle.board.specs.Calls.{CanFinish};
ghost use Rattle.board.specs.Names.{view, board_of, board_id};
ghost use Rattle.workers.specs.Work.{IsSettled, Owes, HasWorked, TurnsSo, ComesSo, GrowsSo};

use crate::working::WorkEnd;
use board::{AtOnce, Board, Pass, TryAny, TryFinish};
use core_machine::{Finished, Job};
use outside::Gate;
use pipe_model::Seen;
use stage_steps::Stage;
use std::alloc::Global;
use std::sync::Wait;

/// What came of a turn.
#[derive(Clone, Copy, Debug, PartialEq, Eq)]
pub enum AfterTurn {
    /// A job was run and is home, or the room has grown.
    Done,
    /// No strand may have an event, and others have jobs that are out.
    Idle,
    /// There is nothing left to do for anyone, or this worker can do no more.
    Ended(WorkEnd),
}

/// The fewest tries with which a turn is begun, so that one is left after the finish.
pub const FEWEST_TRIES: u64 = 3;

/// Makes the least event that may be, enters the gate where a record was seen, goes on with the coroutine and brings it
/// home, with the steps on records that follow and are short. Where the gate isn't always open, no record is seen by these.
/// The room is for the record that is looked at, and grows where it is longer: then no event is made.
pub fn take_turn<S: Stage, R: Wait, G: Gate>(
    rt: &R,
    alloc: Global,
    board: &Board<S>,
    pass: &mut Pass,
    room: &mut Vec<u8>,
    gate: &G,
) -> AfterTurn
    requires board { board_of pass.old ≡ board_id board.now }
    requires tries { 3 ≤ (view pass.old).tries }
    requires settled { IsSettled (view pass.old) }
    ensures board { board_of pass.new ≡ board_of pass.old }
    ensures tries { 0 < (view pass.new).tries }
    ensures settled { IsSettled (view pass.new) }
    ensures worked { HasWorked (view pass.old) (view pass.new) }
    ensures turns { TurnsSo (G.is_open gate.now) result (view pass.old) (vec_capacity room.old) (view pass.new) (vec_capacity room.new) }
{
    match board.any(rt, pass, room) {
        TryAny::Work(job, _) => {
            let done = run_job(alloc, job, room.as_slice(), gate);
            bring_home(rt, alloc, board, pass, done, gate)
        }
        TryAny::Idle { out: 0 } => AfterTurn::Ended(WorkEnd::Complete),
        TryAny::Idle { .. } => AfterTurn::Idle,
        TryAny::Spent => AfterTurn::Ended(WorkEnd::Spent),
        TryAny::Room(size) => grow(room, size),
        TryAny::Broken => AfterTurn::Ended(WorkEnd::Broken),
        TryAny::Busy => unreachable!(),
    }
}

// Goes on with a coroutine, behind the gate where it saw a record.
fn run_job<S: Stage, G: Gate>(alloc: Global, job: Job<S>, bytes: &[u8], gate: &G) -> Finished<S>
    requires { CanResume S.stands job.stage job.seen bytes.now }
    ensures strand { result.strand ≡ job.strand }
    ensures place { result.place ≡ job.place }
    ensures resumes { IfOk result.want (λ want. Resumes S.stands job.stage result.stage job.seen bytes.now want) }
{
    if let Seen::Saw(_) = job.seen() {
        gate.enter(job.strand());
    }
    job.run(alloc, bytes)
}

// So many steps on records at most are made at once, after a job is home. Where no other job is out they take some
// milliseconds, since nobody has one to bring home meanwhile.
const AT_ONCE: AtOnce = AtOnce {
    alone: 65_536,
    beside: 256,
};

// Brings home what the pass had out.
fn bring_home<S: Stage, R: Wait, G: Gate>(
    rt: &R,
    alloc: Global,
    board: &Board<S>,
    pass: &mut Pass,
    done: Finished<S>,
    gate: &G,
) -> AfterTurn
    requires board { board_of pass.old ≡ board_id board.now }
    requires tries { 2 ≤ (view pass.old).tries }
    requires can { CanFinish (view pass.old) done.place }
    requires stands { DoneStands S.stands (view pass.old).net (take done.place (view pass.old).seen) done }
    requires owes { Owes (view pass.old) done.place }
    ensures board { board_of pass.new ≡ board_of pass.old }
    ensures tries { 0 < (view pass.new).tries }
    ensures settled { IsSettled (view pass.new) }
    ensures worked { HasWorked (view pass.old) (view pass.new) }
    ensures comes { ComesSo (G.is_open gate.now) done.place result (view pass.old) (view pass.new) }
{
    match board.finish_and_go_on(rt, alloc, pass, done, gate, AT_ONCE) {
        TryFinish::Home => AfterTurn::Done,
        TryFinish::NoMemory => AfterTurn::Ended(WorkEnd::NoMemory),
        TryFinish::Busy(_) => unreachable!(),
    }
}

// Makes the room large enough for so many bytes. What it holds isn't wanted any more.
fn grow(room: &mut Vec<u8>, size: usize) -> AfterTurn
    ensures { GrowsSo result size (vec_capacity room.old) (vec_capacity room.new) }
{
    room.clear();
    match room.reserve(size) {
        Ok(()) => AfterTurn::Done,
        Err(_) => AfterTurn::Ended(WorkEnd::NoMemory),
    }
}
