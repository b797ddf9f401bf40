//! The ways in which a call takes the slot.
ghost use Rattle.std.specs.Prelude.{◌≡◌, Bool, true, false, []};
ghost use Rattle.board.specs.Plays.{Took};
ghost use Rattle.board.specs.Calls.{IsBusy};
ghost use Rattle.board.specs.Holding.{IsAtRest};

use crate::board::{Board, TURN};
use crate::plays::{Await, Slot, Try};
use crate::view::View;
use atomic_table::Seat;
use stage_steps::Stage;
use std::hint::spin_loop;
use std::sync::Wait;
use std::thread::yield_now;

// How often one looks at the slot before it lets others run.
const AWAKE_TRIES: u32 = 100;

// How often one looks at the slot before it lets others run, and how often it does that before it naps.
const NAPPING_TRIES: u32 = 16;

const NAPPING_ROUNDS: u32 = 8;

// The shortest nap and the longest, in microseconds.
const SHORTEST_NAP: u64 = 50;

const LONGEST_NAP: u64 = 16_000;

/// How a call takes the slot.
pub(crate) trait Taking<S: Stage> {
    // Whether it takes nothing where it finds the slot out.
    ghost may_fail: { Bool };

    // The answer is whether the slot is taken.
    fn take(self, board: &Board<S>, seat: &mut Seat<Slot<S>, View>) -> bool
        requires id { seat.old.table_id ≡ board.now.table.shared.table_id }
        requires rest { IsAtRest seat.old.me }
        ensures id { (seat.new.table_id ≡ seat.old.table_id) × (seat.new.id ≡ seat.old.id) }
        ensures took { result ≡ true → Took seat.old.me seat.new.me }
        ensures out { result ≡ false → (may_fail ≡ true) × IsBusy seat.old.me.0 seat.new.me.0 × (seat.new.me.1 ≡ []) };
}

/// By one try.
#[derive(Drop)]
pub(crate) struct Once;

impl<S: Stage> Taking<S> for Once {
    ghost may_fail = { true };

    fn take(self, board: &Board<S>, seat: &mut Seat<Slot<S>, View>) -> bool {
        board.table.shared.fetch_add::<Try>(seat, TURN, 1) == 0
    }
}

/// For one with a job in hand: it lets others run between its looks, and never sleeps.
pub(crate) struct Awake<'a, R: Wait>(pub &'a R);

impl<'a, S: Stage, R: Wait> Taking<S> for Awake<'a, R> {
    ghost may_fail = { false };

    fn take(self, board: &Board<S>, seat: &mut Seat<Slot<S>, View>) -> bool {
        let Awake(rt) = self;
        for _ in rt.forever() {
            if board.take_within(seat, AWAKE_TRIES) {
                return true;
            }
            yield_now();
        }
        unreachable!()
    }
}

/// For one with no job in hand: it naps between its looks, twice as long each time.
pub(crate) struct Napping<'a, R: Wait>(pub &'a R);

impl<'a, S: Stage, R: Wait> Taking<S> for Napping<'a, R> {
    ghost may_fail = { false };

    fn take(self, board: &Board<S>, seat: &mut Seat<Slot<S>, View>) -> bool {
        let Napping(rt) = self;
        let mut micros = SHORTEST_NAP;
        let mut rounds = 0_u32;
        for _ in rt.forever() {
            if board.take_within(seat, NAPPING_TRIES) {
                return true;
            }
            rounds = rounds.saturating_add(1);
            if rounds < NAPPING_ROUNDS {
                yield_now();
            } else {
                rounds = 0;
                board.bell.nap(rt, micros);
                micros = micros.saturating_mul(2).min(LONGEST_NAP);
            }
        }
        unreachable!()
    }
}

impl<S: Stage> Board<S> {
    // Looks at the slot so many times. Where it is at home it is taken, and the answer is true.
    fn take_within(&self, seat: &mut Seat<Slot<S>, View>, tries: u32) -> bool
        requires id { seat.old.table_id ≡ self.now.table.shared.table_id }
        requires rest { IsAtRest seat.old.me }
        ensures id { (seat.new.table_id ≡ seat.old.table_id) × (seat.new.id ≡ seat.old.id) }
        ensures took { result ≡ true → Took seat.old.me seat.new.me }
        ensures same { result ≡ false → seat.new.me ≡ seat.old.me }
    {
        for _ in 0..tries {
            let found = self
                .table
                .shared
                .compare_exchange::<Await>(seat, TURN, 0, 1);
            if found == 0 {
                return true;
            }
            spin_loop();
        }
        false
    }
}
