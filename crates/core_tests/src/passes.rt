ghost use Rattle.std.specs.Prelude.{◌≡◌, ◌+◌, ◌≤◌, false};
ghost use Rattle.board.specs.Names.{view, board_of, board_id};

use crate::consoles::{Console, passing_core};
use board::{AtOnce, Board, Pass, TryAny, TryFinish, TryTurn};
use core_machine::{Core, Finished, Job, Turned};
use outside::Gate;
use pipe_model::{NoMemory, Seen};
use stage_steps::Stage;
use std::alloc::Global;
use std::sync::Wait;
use std::test::Fail;

fn is_send<T: Send>() {}

fn is_sync<T: Sync>() {}

fn all_may_cross<S: Stage + Send>() {
    is_send::<Core<S>>();
    is_send::<Job<S>>();
    is_send::<Finished<S>>();
    is_send::<Turned<S>>();
    is_send::<Board<S>>();
    is_sync::<Board<S>>();
    is_send::<Pass>();
}

// A core, its jobs and the passes of a board may go to another thread, and a board may be shared, where the coroutines may go.
#[test]
fn a_core_and_a_board_may_go_to_other_threads() {
    all_may_cross::<Console>();
}

// How many steps follow a job that is home.
const AT_ONCE: AtOnce = AtOnce {
    alone: 16,
    beside: 4,
};

// A gate behind which no record is seen in a hold.
struct Shut;

impl Gate for Shut {
    ghost is_open = { λ _. false };

    fn enter(&self, _strand: u32) {}

    fn is_open(&self) -> bool {
        false
    }
}

// The event of the least strand that may have one, with its work: what its coroutine was told. The core goes on then, or
// it doesn't.
fn work<S: Stage, R: Wait>(
    rt: &R,
    board: &Board<S>,
    pass: &mut Pass,
    alloc: Global,
    room: &mut Vec<u8>,
    goes_on: bool,
) -> Result<Option<Seen>, NoMemory>
    requires board { board_of pass.old ≡ board_id board.now }
    requires tries { 2 ≤ (view pass.old).tries }
    ensures board { board_of pass.new ≡ board_of pass.old }
    ensures tries { (view pass.old).tries ≤ (view pass.new).tries + 2 }
    ensures shares { (view pass.new).shares ≡ (view pass.old).shares }
{
    let TryAny::Work(job, _) = board.try_any(pass, room) else {
        return Ok(None);
    };
    let seen = job.seen();
    let done = job.run(alloc, room);
    let answer = if goes_on {
        board.finish_and_go_on(rt, alloc, pass, done, &Shut, AT_ONCE)
    } else {
        board.try_finish(pass, done)
    };
    let TryFinish::Home = answer else {
        return Err(NoMemory);
    };
    Ok(Some(seen))
}

#[test]
fn passes_make_events_and_meet(rt: HostRuntime) -> Result<(), Fail> {
    let alloc = rt.alloc();
    let core = passing_core(alloc, 3)?;
    let Ok((board, mut pass)) = Board::new(alloc, core) else {
        return Err(NoMemory.into());
    };
    let mut room = Vec::new(alloc);
    let first = work(&rt, &board, &mut pass, alloc, &mut room, false)?;
    let second = work(&rt, &board, &mut pass, alloc, &mut room, true)?;
    assert_eq!(rt; [first, second], [Some(Seen::Up(-1, 0)); 2]);
    let (mut a, mut b) = board.split(pass, 1_000);
    let TryTurn::NotReady = board.turn(&rt, &mut b, 0, 7, &mut room) else {
        panic!(rt; "an event on a stream that isn't there")
    };
    let TryTurn::Work(_, receipt) = board.try_turn(&mut a, 2, 0, &mut room) else {
        panic!(rt; "no event")
    };
    assert_eq!(rt; receipt.place, 3);
    let TryAny::Idle { out: 1 } = board.any(&rt, &mut b, &mut room) else {
        panic!(rt; "an event while all wait for the strand that is out")
    };
    let all = board.meet(a, b);
    let core = board.close(&rt, all);
    assert_eq!(rt; (core.len(), core.out_count()), (3, 1));
    Ok(())
}
