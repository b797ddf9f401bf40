//! Turns of the least strand that may have an event.
use crate::answers::{Receipt, TryAny};
use crate::bell::Bell;
use crate::board::Board;
use crate::change::Change;
use crate::pass::Pass;
use crate::taking::{Napping, Once};
use crate::task::Task;
use core_machine::{Core, Turned};
use stage_steps::Stage;
use std::sync::Wait;

/// A turn of the least strand that may have an event.
#[derive(Drop)]
struct Seeking;

impl<S: Stage> Task<S> for Seeking {
    ghost use Rattle.std.specs.Prelude.{vec_capacity};
    ghost use Rattle.board.specs.declared.answers.TryAny.TheVariants.{Busy};
    ghost use Rattle.board.specs.Calls.{HasNone};
    ghost use Rattle.board.specs.Tasks.{AnyDid, KeepsRoom};

    type Room = Vec<u8>;

    type Answer = TryAny<S>;

    ghost may = { λ _ _. Unit {0} };

    ghost did = { λ _ room m answer n room' c. AnyDid S.stands m (vec_capacity room) answer n room'.items c × KeepsRoom (HasNone answer) room.items (vec_capacity room) room'.items (vec_capacity room') };

    ghost left = { λ _. Busy };

    fn run(
        self,
        bell: &Bell,
        core: &mut Core<S>,
        room: &mut Vec<u8>,
        change: &mut Change,
    ) -> TryAny<S> {
        match core.turn_least(room) {
            Turned::Work(job) => {
                bell.note_job();
                *change = Change::Step;
                let place = job.place();
                TryAny::Work(job, Receipt { place })
            }
            Turned::NotReady => TryAny::Idle {
                out: core.out_count(),
            },
            Turned::Spent => TryAny::Spent,
            Turned::Room(size) => TryAny::Room(size),
            Turned::Broken => TryAny::Broken,
        }
    }

    fn leave(self) -> TryAny<S> {
        TryAny::Busy
    }
}

// The calls.
impl<S: Stage> Board<S> {
    ghost use Rattle.std.specs.Prelude.{◌≡◌, ◌<◌, ◌≤◌, vec_capacity};
    ghost use Rattle.board.specs.Calls.{AnyTold, TryAnyTold, HasNone, GoesOn};
    ghost use Rattle.board.specs.Names.{view, board_of, board_id};

    /// Makes the event of the least strand that may have one, on its least stream. `Idle` says that no strand may have
    /// one, and how many are out: where none is, the journal is complete. It waits for nobody: `Busy` says that this
    /// call's one try found the slot in another pass's hand. Each answer uses one try. `room` is as for a turn of one
    /// strand. It takes no memory.
    pub fn try_any(&self, pass: &mut Pass, room: &mut Vec<u8>) -> TryAny<S>
        requires board { board_of pass.old ≡ board_id self.now }
        requires tries { 0 < (view pass.old).tries }
        ensures board { board_of pass.new ≡ board_of pass.old }
        ensures told { TryAnyTold S.stands (view pass.old) (vec_capacity room.old) result (view pass.new) room.new.items }
        ensures goes { GoesOn (view pass.old) (view pass.new) }
        ensures made { HasNone result → (view pass.new).mine ≡ (view pass.old).mine }
        ensures others { ((view pass.new).home ≡ (view pass.old).home) × ((view pass.new).lost ≡ (view pass.old).lost) }
        ensures room { HasNone result → (room.new.items ≡ room.old.items) × (vec_capacity room.new ≡ vec_capacity room.old) }
        ensures capacity { vec_capacity room.old ≤ vec_capacity room.new }
    {
        self.call(Once, pass, Seeking, room)
    }

    /// The same, but it waits where the slot is out, and never answers `Busy`.
    pub fn any<R: Wait>(&self, rt: &R, pass: &mut Pass, room: &mut Vec<u8>) -> TryAny<S>
        requires board { board_of pass.old ≡ board_id self.now }
        requires tries { 0 < (view pass.old).tries }
        ensures board { board_of pass.new ≡ board_of pass.old }
        ensures told { AnyTold S.stands (view pass.old) (vec_capacity room.old) result (view pass.new) room.new.items }
        ensures goes { GoesOn (view pass.old) (view pass.new) }
        ensures made { HasNone result → (view pass.new).mine ≡ (view pass.old).mine }
        ensures others { ((view pass.new).home ≡ (view pass.old).home) × ((view pass.new).lost ≡ (view pass.old).lost) }
        ensures room { HasNone result → (room.new.items ≡ room.old.items) × (vec_capacity room.new ≡ vec_capacity room.old) }
        ensures capacity { vec_capacity room.old ≤ vec_capacity room.new }
    {
        self.call(Napping(rt), pass, Seeking, room)
    }
}
