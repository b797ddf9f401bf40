//! How a call takes the slot, does its task with the core there, and gives the slot back.
use crate::board::{Board, LENGTH, TURN};
use crate::change::Change;
use crate::core_box::CoreBox;
use crate::pass::{Pass, sit};
use crate::plays::{Brings, Give, Raise, Slot};
use crate::taking::Taking;
use crate::task::Task;
use crate::view::View;
use atomic_table::Seat;
use stage_steps::Stage;
use std::marker::Brand;
use std::mem;

// The slot in hand, as plain memory.
impl<S: Stage> Board<S> {
    ghost use Rattle.std.specs.Prelude.{◌≡◌, ◌≤◌};
    ghost use Rattle.core_machine.specs.Machine.{Machine, IsLawful};
    ghost use Rattle.board.specs.Counts.{all_tries};
    ghost use Rattle.board.specs.Holding.{HasKept, IfKept, with_kept, counted};

    // Lends the core there to a task.
    fn lend<T: Task<S>>(
        &self,
        seat: &mut Seat<Slot<S>, View>,
        task: T,
        room: &mut T::Room,
        change: &mut Change,
    ) -> T::Answer
        requires id { seat.old.table_id ≡ self.now.table.shared.table_id }
        requires kept { HasKept seat.old.me (λ k. T.may task k.0) }
        requires none { change.old ≡ Change.Nothing }
        ensures id { (seat.new.table_id ≡ seat.old.table_id) × (seat.new.id ≡ seat.old.id) }
        ensures lent { IfKept seat.old.me (λ k. (n : Machine) × (seat.new.me ≡ with_kept seat.old.me.0 (n, k.1)) × T.did task room.old k.0 result n room.new change.new × IsLawful n) }
    {
        let slot = seat.slot_mut(&self.table.shared, 0);
        let Some((CoreBox { mut core }, turns)) = mem::replace(slot, None) else {
            unreachable!()
        };
        let answer = task.run(&self.bell, &mut core, room, change);
        *slot = Some((CoreBox { core }, turns));
        answer
    }

    // Counts that it is given back once more.
    fn count(&self, seat: &mut Seat<Slot<S>, View>)
        requires id { seat.old.table_id ≡ self.now.table.shared.table_id }
        requires kept { HasKept seat.old.me (λ k. k.1 ≤ all_tries) }
        ensures id { (seat.new.table_id ≡ seat.old.table_id) × (seat.new.id ≡ seat.old.id) }
        ensures counted { IfKept seat.old.me (λ k. seat.new.me ≡ with_kept seat.old.me.0 (counted k)) }
    {
        let slot = seat.slot_mut(&self.table.shared, 0);
        let Some(kept) = slot else { unreachable!() };
        kept.1 += 1;
    }
}

// The steps by which the slot goes back.
impl<S: Stage> Board<S> {
    ghost use Rattle.std.specs.Prelude.{◌≡◌};
    ghost use Rattle.board.specs.Holding.{MayRaise, HasRaised, MayPutHome, HasPutHome, MayGiveBack, GaveBack};

    // Raises the length word by the entries made. The change is there for the proof of the call to pick.
    fn raise_as<B: Brings>(&self, seat: &mut Seat<Slot<S>, View>, made: u64, _change: Change)
        requires id { seat.old.table_id ≡ self.now.table.shared.table_id }
        requires may { MayRaise made B.home B.lost seat.old.me }
        ensures id { (seat.new.table_id ≡ seat.old.table_id) × (seat.new.id ≡ seat.old.id) }
        ensures raised { HasRaised B.home B.lost seat.old.me seat.new.me }
    {
        self.table.shared.fetch_add::<Raise<B>>(seat, LENGTH, made);
    }

    // Puts the slot home. Nobody is woken: who waits for the slot sleeps for a limited time.
    fn put_home_as<B: Brings>(&self, seat: &mut Seat<Slot<S>, View>, _change: Change)
        requires id { seat.old.table_id ≡ self.now.table.shared.table_id }
        requires may { MayPutHome B.home B.lost seat.old.me }
        ensures id { (seat.new.table_id ≡ seat.old.table_id) × (seat.new.id ≡ seat.old.id) }
        ensures home { HasPutHome B.home B.lost seat.old.me seat.new.me }
    {
        self.count(seat);
        self.table.shared.swap::<Give<B>>(seat, TURN, 0);
    }

    // Gives the slot back after the change. Where entries were made the length word is raised first.
    fn give_back(&self, seat: &mut Seat<Slot<S>, View>, change: Change)
        requires id { seat.old.table_id ≡ self.now.table.shared.table_id }
        requires may { MayGiveBack change seat.old.me }
        ensures id { (seat.new.table_id ≡ seat.old.table_id) × (seat.new.id ≡ seat.old.id) }
        ensures gave { GaveBack change seat.old.me seat.new.me }
    {
        let made = change.made();
        if made == 0 {
            self.put_home_as::<Brand>(seat, change);
        } else {
            self.raise_as::<Brand>(seat, made, change);
            self.put_home_as::<Brand>(seat, Change::Nothing);
        }
    }
}

// One hold.
impl<S: Stage> Board<S> {
    ghost use Rattle.std.specs.Prelude.{◌≡◌, ◌<◌};
    ghost use Rattle.board.specs.Calls.{GoesOn};
    ghost use Rattle.board.specs.Holding.{IsAtRest, HasLetGo, MayDo, HasAnswered};
    ghost use Rattle.board.specs.Names.{view, board_of, board_id};

    // Takes the slot, does the task with the core there, and gives the slot back; where it isn't taken, leaves.
    fn hold<H: Taking<S>, T: Task<S>>(
        &self,
        how: H,
        seat: &mut Seat<Slot<S>, View>,
        task: T,
        room: &mut T::Room,
    ) -> T::Answer
        requires id { seat.old.table_id ≡ self.now.table.shared.table_id }
        requires rest { IsAtRest seat.old.me }
        requires may { MayDo (T.may task) (T.did task room.old) seat.old.me.0 }
        ensures id { (seat.new.table_id ≡ seat.old.table_id) × (seat.new.id ≡ seat.old.id) }
        ensures free { HasLetGo seat.new.me }
        ensures told { HasAnswered H.may_fail (T.did task room.old) (T.left task) room.old seat.old.me.0 result seat.new.me.0 room.new }
    {
        if how.take(self, seat) {
            let mut change = Change::Nothing;
            let answer = self.lend(seat, task, room, &mut change);
            self.give_back(seat, change);
            answer
        } else {
            task.leave()
        }
    }

    // The hold of a pass, which has one try less afterwards.
    pub(crate) fn call<H: Taking<S>, T: Task<S>>(
        &self,
        how: H,
        pass: &mut Pass,
        task: T,
        room: &mut T::Room,
    ) -> T::Answer
        requires board { board_of pass.old ≡ board_id self.now }
        requires tries { 0 < (view pass.old).tries }
        requires may { MayDo (T.may task) (T.did task room.old) (view pass.old) }
        ensures board { board_of pass.new ≡ board_of pass.old }
        ensures goes { GoesOn (view pass.old) (view pass.new) }
        ensures told { HasAnswered H.may_fail (T.did task room.old) (T.left task) room.old (view pass.old) result (view pass.new) room.new }
    {
        let mut seat = sit(&mut pass.badge);
        let answer = self.hold(how, &mut seat, task, room);
        pass.badge = seat.into_badge();
        pass.tries -= 1;
        answer
    }
}
