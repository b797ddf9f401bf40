//! Turns of one strand.
use crate::answers::{Receipt, TryTurn};
use crate::bell::Bell;
use crate::board::Board;
use crate::change::Change;
use crate::pass::Pass;
use crate::taking::{Napping, Once};
use crate::task::Task;
use core_machine::{Core, Turned};
use stage_steps::Stage;
use std::sync::Wait;

/// A turn of this strand on this stream.
#[derive(Drop)]
struct Turning {
    strand: u32,
    stream: u16,
}

impl<S: Stage> Task<S> for Turning {
    ghost use Rattle.std.specs.Prelude.{vec_capacity};
    ghost use Rattle.board.specs.declared.answers.TryTurn.TheVariants.{Busy};
    ghost use Rattle.board.specs.Calls.{HasNoJob};
    ghost use Rattle.board.specs.Tasks.{TurnDid, KeepsRoom};

    type Room = Vec<u8>;

    type Answer = TryTurn<S>;

    ghost may = { λ _ _. Unit {0} };

    ghost did = { λ t room m answer n room' c. TurnDid S.stands m t.strand t.stream (vec_capacity room) answer n room'.items c × KeepsRoom (HasNoJob answer) room.items (vec_capacity room) room'.items (vec_capacity room') };

    ghost left = { λ _. Busy };

    fn run(
        self,
        _bell: &Bell,
        core: &mut Core<S>,
        room: &mut Vec<u8>,
        change: &mut Change,
    ) -> TryTurn<S> {
        let Turning { strand, stream } = self;
        match core.turn(strand, stream, room) {
            Turned::Work(job) => {
                *change = Change::Step;
                let place = job.place();
                TryTurn::Work(job, Receipt { place })
            }
            Turned::NotReady => TryTurn::NotReady,
            Turned::Spent => TryTurn::Spent,
            Turned::Room(size) => TryTurn::Room(size),
            Turned::Broken => TryTurn::Broken,
        }
    }

    fn leave(self) -> TryTurn<S> {
        TryTurn::Busy
    }
}

// The calls.
impl<S: Stage> Board<S> {
    ghost use Rattle.std.specs.Prelude.{◌≡◌, ◌<◌, ◌≤◌, vec_capacity};
    ghost use Rattle.board.specs.Calls.{TurnTold, TryTurnTold, HasNoJob, GoesOn};
    ghost use Rattle.board.specs.Names.{view, board_of, board_id};

    /// Makes a strand's event on a stream, as `Core::turn` does: `Work` has the job and the place of its entry, which is
    /// the pass's now. It waits for nobody: `Busy` says that this call's one try found the slot in another pass's hand.
    /// Each answer uses one try. `room` then holds the record where the strand looks and saw one, and is empty
    /// otherwise; on another answer it stays. It takes no memory.
    pub fn try_turn(
        &self,
        pass: &mut Pass,
        strand: u32,
        stream: u16,
        room: &mut Vec<u8>,
    ) -> TryTurn<S>
        requires board { board_of pass.old ≡ board_id self.now }
        requires tries { 0 < (view pass.old).tries }
        ensures board { board_of pass.new ≡ board_of pass.old }
        ensures told { TryTurnTold S.stands (view pass.old) strand stream (vec_capacity room.old) result (view pass.new) room.new.items }
        ensures goes { GoesOn (view pass.old) (view pass.new) }
        ensures made { HasNoJob result → (view pass.new).mine ≡ (view pass.old).mine }
        ensures others { ((view pass.new).home ≡ (view pass.old).home) × ((view pass.new).lost ≡ (view pass.old).lost) }
        ensures room { HasNoJob result → (room.new.items ≡ room.old.items) × (vec_capacity room.new ≡ vec_capacity room.old) }
        ensures capacity { vec_capacity room.old ≤ vec_capacity room.new }
    {
        self.call(Once, pass, Turning { strand, stream }, room)
    }

    /// The same, but it waits where the slot is out, and never answers `Busy`.
    pub fn turn<R: Wait>(
        &self,
        rt: &R,
        pass: &mut Pass,
        strand: u32,
        stream: u16,
        room: &mut Vec<u8>,
    ) -> TryTurn<S>
        requires board { board_of pass.old ≡ board_id self.now }
        requires tries { 0 < (view pass.old).tries }
        ensures board { board_of pass.new ≡ board_of pass.old }
        ensures told { TurnTold S.stands (view pass.old) strand stream (vec_capacity room.old) result (view pass.new) room.new.items }
        ensures goes { GoesOn (view pass.old) (view pass.new) }
        ensures made { HasNoJob result → (view pass.new).mine ≡ (view pass.old).mine }
        ensures others { ((view pass.new).home ≡ (view pass.old).home) × ((view pass.new).lost ≡ (view pass.old).lost) }
        ensures room { HasNoJob result → (room.new.items ≡ room.old.items) × (vec_capacity room.new ≡ vec_capacity room.old) }
        ensures capacity { vec_capacity room.old ≤ vec_capacity room.new }
    {
        self.call(Napping(rt), pass, Turning { strand, stream }, room)
    }
}
