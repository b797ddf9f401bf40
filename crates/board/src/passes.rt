//! Passes that are split and that meet.
use crate::board::{Board, LENGTH};
use crate::pass::Pass;
use crate::plays::{Amount, Cut, Learn, Merge, Slot};
use crate::view::View;
use atomic_table::Seat;
use stage_steps::Stage;
use std::marker::Brand;

// Over a seat.
impl<S: Stage> Board<S> {
    ghost use Rattle.std.specs.Prelude.{◌≡◌, ◌+◌, ◌<◌, ◌≤◌, [], ℕ, None};
    ghost use mathlib.Core.List.{IsPrefix};
    ghost use Rattle.board.specs.Counts.{times, all_shares, all_tries};
    ghost use Rattle.board.specs.Plays.{kept_part, given_part, both};

    // The number is there for the proof of the call to pick.
    fn cut_as<A: Amount>(&self, seat: &mut Seat<Slot<S>, View>, _tries: u64) -> Seat<Slot<S>, View>
        requires id { seat.old.table_id ≡ self.now.table.shared.table_id }
        requires parts { (2 ≤ seat.old.me.0.shares) × (A.tries ≤ seat.old.me.0.tries) × (seat.old.me.0.held ≡ None) }
        ensures id { (seat.new.table_id ≡ seat.old.table_id) × (seat.new.id ≡ seat.old.id) × (result.table_id ≡ seat.old.table_id) }
        ensures parts { (seat.new.me ≡ (kept_part A.tries seat.old.me.0, seat.old.me.1)) × (result.me ≡ (given_part A.tries seat.old.me.0, [])) }
    {
        self.table.shared.split_seat::<Cut<A>>(seat)
    }

    fn cut(&self, seat: &mut Seat<Slot<S>, View>, tries: u64) -> Seat<Slot<S>, View>
        requires id { seat.old.table_id ≡ self.now.table.shared.table_id }
        requires parts { (2 ≤ seat.old.me.0.shares) × (tries ≤ seat.old.me.0.tries) × (seat.old.me.0.held ≡ None) }
        ensures id { (seat.new.table_id ≡ seat.old.table_id) × (seat.new.id ≡ seat.old.id) × (result.table_id ≡ seat.old.table_id) }
        ensures parts { (seat.new.me ≡ (kept_part tries seat.old.me.0, seat.old.me.1)) × (result.me ≡ (given_part tries seat.old.me.0, [])) }
    {
        self.cut_as::<Brand>(seat, tries)
    }

    fn merge(&self, seat: &mut Seat<Slot<S>, View>, other: Seat<Slot<S>, View>)
        requires id { (seat.old.table_id ≡ self.now.table.shared.table_id) × (other.table_id ≡ self.now.table.shared.table_id) }
        requires idle { (seat.old.me.1 ≡ []) × (other.me.1 ≡ []) × (seat.old.me.0.held ≡ None) × (other.me.0.held ≡ None) × (0 < seat.old.me.0.shares) × (0 < other.me.0.shares) }
        ensures id { (seat.new.table_id ≡ seat.old.table_id) × (seat.new.id ≡ seat.old.id) }
        ensures both { seat.new.me ≡ (both seat.old.me.0 other.me.0, []) }
        ensures seen { IsPrefix seat.old.me.0.seen seat.new.me.0.seen × IsPrefix other.me.0.seen seat.new.me.0.seen }
        ensures apart { (p : ℕ) → times p seat.old.me.0.mine + times p other.me.0.mine ≤ 1 }
        ensures numbers { (seat.old.me.0.shares + other.me.0.shares ≤ all_shares) × (seat.old.me.0.tries + other.me.0.tries ≤ all_tries) }
    {
        self.table.shared.join_seat::<Merge>(seat, other);
        self.table.shared.load::<Learn>(seat, LENGTH);
    }
}

// The calls.
impl<S: Stage> Board<S> {
    ghost use Rattle.std.specs.Prelude.{◌≡◌, ◌+◌, ◌≤◌, ℕ};
    ghost use mathlib.Core.List.{IsPrefix};
    ghost use Rattle.board.specs.Counts.{times};
    ghost use Rattle.board.specs.Pass.{HasParts};
    ghost use Rattle.board.specs.Plays.{kept_part, given_part, both};
    ghost use Rattle.board.specs.Names.{view, board_of, board_id};

    /// Both passes know what the one knew. The second has one share and `tries` tries, and made no entry; the first has
    /// the rest.
    pub fn split(&self, pass: Pass, tries: u64) -> (Pass, Pass)
        requires board { board_of pass ≡ board_id self.now }
        requires shares { 2 ≤ (view pass).shares }
        requires tries { tries ≤ (view pass).tries }
        ensures board { (board_of result.0 ≡ board_of pass) × (board_of result.1 ≡ board_of pass) }
        ensures first { view result.0 ≡ kept_part tries (view pass) }
        ensures second { view result.1 ≡ given_part tries (view pass) }
    {
        let Pass {
            badge,
            shares,
            tries: all,
        } = pass;
        let mut seat = badge.into_seat::<Slot<S>>();
        let other = self.cut(&mut seat, tries);
        (
            Pass {
                badge: seat.into_badge(),
                shares: shares - 1,
                tries: all - tries,
            },
            Pass {
                badge: other.into_badge(),
                shares: 1,
                tries,
            },
        )
    }

    /// The pass knows what both knew, has the entries of both, and the shares and the tries of both.
    pub fn meet(&self, a: Pass, b: Pass) -> Pass
        requires board { (board_of a ≡ board_id self.now) × (board_of b ≡ board_id self.now) }
        ensures board { board_of result ≡ board_of a }
        ensures both { view result ≡ both (view a) (view b) }
        ensures seen { IsPrefix (view a).seen (view result).seen × IsPrefix (view b).seen (view result).seen }
        ensures apart { (p : ℕ) → times p (view a).mine + times p (view b).mine ≤ 1 }
        ensures parts { HasParts (view a) × HasParts (view b) }
    {
        let Pass {
            badge,
            shares,
            tries,
        } = a;
        let Pass {
            badge: other,
            shares: more_shares,
            tries: more_tries,
        } = b;
        let mut seat = badge.into_seat::<Slot<S>>();
        self.merge(&mut seat, other.into_seat());
        Pass {
            badge: seat.into_badge(),
            shares: shares + more_shares,
            tries: tries + more_tries,
        }
    }
}
