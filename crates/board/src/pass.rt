ghost use Rattle.std.specs.Prelude.{◌≡◌, [], ◌∷◌};
ghost use Rattle.board.specs.Pass.{IsPass, the_view};

use crate::plays::Slot;
use crate::view::View;
use atomic_table::{Badge, Seat};
use stage_steps::Stage;
use std::mem;

/// A caller's own token of a board: what it has seen of the journal, how many shares of the board it has, and how often
/// it may still try to take the slot.
#[derive(Drop)]
pub struct Pass {
    pub(crate) badge: Badge<View>,
    pub(crate) shares: u64,
    pub(crate) tries: u64,
    ghost known: { IsPass badge.views shares tries },
}

impl Pass {
    ghost use Rattle.std.specs.Prelude.{◌≡◌};
    ghost use Rattle.board.specs.Names.{view};

    /// Its shares of the board, at least 1. All passes of a board together have 4,294,967,296, those that were dropped
    /// among them.
    pub fn shares(&self) -> u64
        ensures { result ≡ (view self.now).shares }
    {
        self.shares
    }

    /// How many more calls it may make that take the slot, or try to.
    pub fn tries(&self) -> u64
        ensures { result ≡ (view self.now).tries }
    {
        self.tries
    }
}

// The seat of a pass, for the time of a call.
pub(crate) fn sit<S: Stage>(badge: &mut Badge<View>) -> Seat<Slot<S>, View>
    requires { badge.old.views ≡ the_view badge.old.views ∷ [] }
    ensures { (result.table_id ≡ badge.old.table_id) × (result.id ≡ badge.old.id) × (result.me ≡ (the_view badge.old.views, [])) }
{
    mem::replace(badge, Badge::blank()).into_seat()
}
