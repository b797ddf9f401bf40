//! Jobs that come home.
use crate::answers::TryFinish;
use crate::bell::Bell;
use crate::board::Board;
use crate::change::Change;
use crate::pass::Pass;
use crate::taking::{Awake, Once};
use crate::task::Task;
use core_machine::{Core, Finished};
use stage_steps::Stage;
use std::sync::Wait;

/// A job is brought home.
#[derive(Drop)]
struct Finishing<S: Stage> {
    done: Finished<S>,
}

impl<S: Stage> Task<S> for Finishing<S> {
    ghost use Rattle.board.specs.declared.answers.TryFinish.TheVariants.{Busy};
    ghost use Rattle.board.specs.Tasks.{MayFinish, FinishDid};

    type Room = ();

    type Answer = TryFinish<S>;

    ghost may = { λ t m. MayFinish S.stands t.done m };

    ghost did = { λ t _ m answer n _ c. FinishDid m t.done.place answer n c };

    ghost left = { λ t. Busy t.done };

    fn run(
        self,
        _bell: &Bell,
        core: &mut Core<S>,
        _room: &mut (),
        change: &mut Change,
    ) -> TryFinish<S> {
        let Finishing { done } = self;
        let place = done.place();
        if core.finish(done).is_ok() {
            let len = core.len();
            *change = Change::Home {
                place,
                made: 0,
                len,
            };
            TryFinish::Home
        } else {
            *change = Change::Lost { place };
            TryFinish::NoMemory
        }
    }

    fn leave(self) -> TryFinish<S> {
        let Finishing { done } = self;
        TryFinish::Busy(done)
    }
}

// The calls.
impl<S: Stage> Board<S> {
    ghost use Rattle.std.specs.Prelude.{◌≡◌, ◌<◌, take};
    ghost use Rattle.core_machine.specs.Jobs.{DoneStands};
    ghost use Rattle.board.specs.Calls.{CanFinish, FinishTold, TryFinishTold, GoesOn};
    ghost use Rattle.board.specs.Names.{view, board_of, board_id};

    /// Takes back a job that was run, of an entry that the pass made, or one that it met. `Home` says that its strand is
    /// home again. After `NoMemory` the core is broken, and the job's strand stays out. It waits for nobody: `Busy` says
    /// that this call's one try found the slot in another pass's hand, and hands the job back. Each answer uses one try.
    pub fn try_finish(&self, pass: &mut Pass, done: Finished<S>) -> TryFinish<S>
        requires board { board_of pass.old ≡ board_id self.now }
        requires tries { 0 < (view pass.old).tries }
        requires can { CanFinish (view pass.old) done.place }
        requires stands { DoneStands S.stands (view pass.old).net (take done.place (view pass.old).seen) done }
        ensures board { board_of pass.new ≡ board_of pass.old }
        ensures told { TryFinishTold (view pass.old) done result (view pass.new) }
        ensures goes { GoesOn (view pass.old) (view pass.new) }
        ensures made { (view pass.new).mine ≡ (view pass.old).mine }
    {
        self.call(Once, pass, Finishing { done }, &mut ())
    }

    /// The same, but it waits where the slot is out, and never answers `Busy`.
    pub fn finish<R: Wait>(&self, rt: &R, pass: &mut Pass, done: Finished<S>) -> TryFinish<S>
        requires board { board_of pass.old ≡ board_id self.now }
        requires tries { 0 < (view pass.old).tries }
        requires can { CanFinish (view pass.old) done.place }
        requires stands { DoneStands S.stands (view pass.old).net (take done.place (view pass.old).seen) done }
        ensures board { board_of pass.new ≡ board_of pass.old }
        ensures told { FinishTold (view pass.old) done.place result (view pass.new) }
        ensures goes { GoesOn (view pass.old) (view pass.new) }
        ensures made { (view pass.new).mine ≡ (view pass.old).mine }
    {
        self.call(Awake(rt), pass, Finishing { done }, &mut ())
    }
}
