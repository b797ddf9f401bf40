ghost use Rattle.std.specs.Prelude.{◌≡◌};

use crate::bell::Bell;
use crate::core_box::CoreBox;
use crate::pass::Pass;
use crate::plays::{About, Order, Slot};
use crate::taking::{Napping, Taking};
use crate::view::View;
use atomic_table::{Refused, Seat, Table};
use core_machine::Core;
use stage_steps::Stage;
use std::alloc::Global;
use std::snapshot::Snapshot;
use std::sync::Wait;

/// A core in a slot that one pass at a time takes in hand, with two words: the length of the journal, and 0 exactly
/// while the slot is at home.
#[derive(Drop)]
pub struct Board<S: Stage> {
    pub(crate) table: Table<Slot<S>, View, About<S>, Order, Global>,
    // For those who have nothing to do.
    pub(crate) bell: Bell,
    ghost sized: { (table.shared.table_id.words ≡ 2) × (table.shared.table_id.slots ≡ 1) },
}

// The word of the journal's length.
pub(crate) const LENGTH: usize = 0;

// The word that says whether the slot is at home.
pub(crate) const TURN: usize = 1;

// How a board begins.
impl<S: Stage> Board<S> {
    ghost use Rattle.std.specs.Prelude.{◌≡◌, [], false, length, IfOk, IfErr};
    ghost use Rattle.core_machine.specs.Machine.{IsLawful};
    ghost use Rattle.board.specs.Plays.{founder};
    ghost use Rattle.board.specs.Names.{view, board_of, board_id};

    /// A board with its first pass, which has all shares and tries, and made all entries so far. Want of memory hands
    /// the core back.
    pub fn new(alloc: Global, core: Core<S>) -> Result<(Board<S>, Pass), Core<S>>
        requires home { core.out ≡ [] }
        requires whole { core.is_broken ≡ false }
        ensures board { IfOk result (λ made. board_of made.1 ≡ board_id made.0) }
        ensures pass { IfOk result (λ made. view made.1 ≡ founder core) }
        ensures back { IfErr result (λ back. back ≡ core) }
    {
        let len = core.len();
        let about = Snapshot::of(&core);
        match CoreBox::new(alloc, core) {
            Ok(core) => Board::of_box(alloc, core, len, &about),
            Err(core) => Err(core),
        }
    }

    fn of_box(
        alloc: Global,
        core: CoreBox<S>,
        len: u64,
        about: &About<S>,
    ) -> Result<(Board<S>, Pass), Core<S>>
        requires about { about.now.value ≡ core }
        requires len { len ≡ length core.journal }
        requires lawful { IsLawful core }
        requires home { core.out ≡ [] }
        requires whole { core.is_broken ≡ false }
        ensures board { IfOk result (λ made. board_of made.1 ≡ board_id made.0) }
        ensures pass { IfOk result (λ made. view made.1 ≡ founder core) }
        ensures back { IfErr result (λ back. back ≡ core) }
    {
        let mut slots = match Vec::with_capacity(alloc, 1) {
            Ok(slots) => slots,
            Err(_) => return Err(core.into_core()),
        };
        slots.push_reserved(Some((core, 0)));
        match Table::new(alloc, &[len, 0], slots, about) {
            Ok((table, seat)) => Ok((
                Board {
                    table,
                    bell: Bell::new(),
                },
                Pass {
                    badge: seat.into_badge(),
                    shares: 1 << 32,
                    tries: 1 << 63,
                },
            )),
            Err(Refused { mut slots }) => {
                let Some(Some((core, _))) = slots.pop() else {
                    unreachable!()
                };
                Err(core.into_core())
            }
        }
    }
}

// How it ends.
impl<S: Stage> Board<S> {
    ghost use Rattle.std.specs.Prelude.{◌≡◌, ◌<◌};
    ghost use Rattle.board.specs.Calls.{Ends};
    ghost use Rattle.board.specs.Holding.{HasKept, IfKept};
    ghost use Rattle.board.specs.Names.{view, board_of, board_id};

    fn take_core(&self, seat: &mut Seat<Slot<S>, View>) -> Core<S>
        requires id { seat.old.table_id ≡ self.now.table.shared.table_id }
        requires kept { HasKept seat.old.me (λ _. Unit {0}) }
        ensures { IfKept seat.old.me (λ k. result ≡ k.0) }
    {
        let Some((core, _)) = self.table.shared.exchange(seat, 0, None) else {
            unreachable!()
        };
        core.into_core()
    }

    /// The core with its journal, which begins with all that the pass had seen. It waits where the slot is out; no
    /// other call is on its way, since this one has the board.
    pub fn close<R: Wait>(self, rt: &R, pass: Pass) -> Core<S>
        requires board { board_of pass ≡ board_id self }
        requires tries { 0 < (view pass).tries }
        ensures ends { Ends (view pass) result }
    {
        let Pass { badge, .. } = pass;
        let mut seat = badge.into_seat::<Slot<S>>();
        if !Napping(rt).take(&self, &mut seat) {
            unreachable!()
        }
        let core = self.take_core(&mut seat);
        drop(seat);
        core
    }
}
