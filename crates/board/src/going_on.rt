//! Jobs that come home to a core that goes on.
use crate::answers::{AtOnce, TryFinish};
use crate::bell::Bell;
use crate::board::Board;
use crate::change::Change;
use crate::pass::Pass;
use crate::taking::Awake;
use crate::task::Task;
use core_machine::{Core, Finished};
use outside::Gate;
use stage_steps::Stage;
use std::alloc::Global;
use std::sync::Wait;

/// A job is brought home, and the core goes on by steps by which a record is taken or put, or, where the gate is open, seen.
#[derive(Drop)]
struct GoingOn<'a, S: Stage, G: Gate> {
    alloc: Global,
    done: Finished<S>,
    gate: &'a G,
    at_once: AtOnce,
}

impl<'a, S: Stage, G: Gate> Task<S> for GoingOn<'a, S, G> {
    ghost use Rattle.board.specs.declared.answers.TryFinish.TheVariants.{Busy};
    ghost use Rattle.board.specs.Calls.{most_after};
    ghost use Rattle.board.specs.Tasks.{MayFinish, GoOnDid};

    type Room = ();

    type Answer = TryFinish<S>;

    ghost may = { λ t m. MayFinish S.stands t.done m };

    ghost did = { λ t _ m answer n _ c. GoOnDid (G.is_open t.gate.now) (most_after t.at_once m t.done.place) m t.done.place answer n c };

    ghost left = { λ t. Busy t.done };

    fn run(
        self,
        bell: &Bell,
        core: &mut Core<S>,
        _room: &mut (),
        change: &mut Change,
    ) -> TryFinish<S> {
        let GoingOn {
            alloc,
            done,
            gate,
            at_once,
        } = self;
        let place = done.place();
        if core.finish(done).is_err() {
            *change = Change::Lost { place };
            return TryFinish::NoMemory;
        }
        let most = at_once.most_beside(core.out_count());
        let start = core.len();
        match core.run_on_records(alloc, gate.is_open(), most) {
            Ok(made) => {
                bell.note_steps(made == 0 || made != at_once.beside);
                let len = core.len();
                *change = Change::Home { place, made, len };
                TryFinish::Home
            }
            Err(_) => {
                let len = core.len();
                let made = len - start;
                *change = Change::Short { place, made, len };
                TryFinish::NoMemory
            }
        }
    }

    fn leave(self) -> TryFinish<S> {
        let GoingOn { done, .. } = self;
        TryFinish::Busy(done)
    }
}

// The call.
impl<S: Stage> Board<S> {
    ghost use Rattle.std.specs.Prelude.{◌≡◌, ◌<◌, take};
    ghost use Rattle.core_machine.specs.Jobs.{DoneStands};
    ghost use Rattle.board.specs.Calls.{CanFinish, FinishOnTold, GoesOn};
    ghost use Rattle.board.specs.Names.{view, board_of, board_id};

    /// Takes back a job as `finish` does. Then it makes the least event that may be, at most so many times as `at_once` says, as long as by
    /// it a record is taken or put, or, where the gate is always open, seen, but for sights that may take more than some five
    /// microseconds; no job of these is out afterwards, and the gate isn't entered for them. `NoMemory` says that
    /// the job, the core or a stage that went on wanted memory: the core is broken, and the strand of the job, or of the
    /// last entry, stays out. It uses one try, waits where the slot is out, and never answers `Busy`.
    pub fn finish_and_go_on<R: Wait, G: Gate>(
        &self,
        rt: &R,
        alloc: Global,
        pass: &mut Pass,
        done: Finished<S>,
        gate: &G,
        at_once: AtOnce,
    ) -> TryFinish<S>
        requires board { board_of pass.old ≡ board_id self.now }
        requires tries { 0 < (view pass.old).tries }
        requires can { CanFinish (view pass.old) done.place }
        requires stands { DoneStands S.stands (view pass.old).net (take done.place (view pass.old).seen) done }
        ensures board { board_of pass.new ≡ board_of pass.old }
        ensures told { FinishOnTold (view pass.old) done.place (G.is_open gate.now) at_once result (view pass.new) }
        ensures goes { GoesOn (view pass.old) (view pass.new) }
    {
        let task = GoingOn {
            alloc,
            done,
            gate,
            at_once,
        };
        self.call(Awake(rt), pass, task, &mut ())
    }
}
