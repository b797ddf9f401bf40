//! Two strands of which one writes records that the other takes: what their events do to the desk, where each record takes the
//! place of the one before.
ghost use Rattle.std.specs.Prelude.{◌≡◌, ◌<◌, ◌≤◌, ◌-◌, ◌^◌, ℕ, true, length, None, Some};
ghost use Rattle.record_pool.specs.Places.{IsHeld};
ghost use Rattle.connectors.specs.WireState.{is_due, IsHeldIn};
ghost use Rattle.run_desk.specs.Relaying.{IsRelaying, desk_showing, desk_relayed, pool_refilled};
ghost use Rattle.run_desk.specs.Telling as Telling;
ghost use Rattle.run_desk.specs.Turns.{Behind, offer_on};

use crate::desk::Desk;
use crate::seat::{Ask, change_seat};
use pipe_model::{Rec, Seen};
use record_pool::Pool;

impl Desk {
    /// Whether a strand has seen a record, asks to look at the next one on input 0, and took the one that is offered on this
    /// link, which nothing else holds than that offer and what it saw last.
    pub fn relays(&self, pool: &Pool, to: u32, link: u32) -> bool
        requires link { link < length self.now.wires }
        requires held { IsHeldIn pool.now (offer_on (Telling.through self.now.wires (Some link))) }
        ensures { result ≡ true → (grip : ℕ) × IsRelaying self.now pool.now to link grip }
    {
        let Some(seat) = self.seats.get(to as usize) else {
            return false;
        };
        if !matches!(seat.ask, Ask::Read(0)) || !seat.has_seen {
            return false;
        }
        let Some(n) = self.sight_door(to, 0) else {
            return false;
        };
        let Some(Some(sight)) = self.sights.get(n) else {
            return false;
        };
        let wire = &self.wires[link as usize];
        match wire.offered() {
            Some(offer) => wire.is_due() && offer.is(sight) && pool.holders_of(offer) == 2,
            None => false,
        }
    }

    /// Puts a record of at most 256 bytes in place of the one that is offered on a link, whose holders hold that then.
    pub fn refill(&self, pool: &mut Pool, link: u32, rec: Rec)
        requires link { link < length self.now.wires }
        requires held { IsHeldIn pool.old (offer_on (Telling.through self.now.wires (Some link))) }
        requires short { length rec ≤ 256 }
        ensures pool { (grip : ℕ) → offer_on (Telling.through self.now.wires (Some link)) ≡ Some grip → pool.new ≡ pool_refilled pool.old grip rec }
        ensures none { offer_on (Telling.through self.now.wires (Some link)) ≡ None → pool.new ≡ pool.old }
    {
        if let Some(offer) = self.wires[link as usize].offered() {
            pool.refill(offer, rec);
        }
    }

    /// The record that was taken on a link is put, the next one is offered by its grip, and the strand at the other end is told
    /// that it sees it.
    pub fn show(&mut self, to: u32, link: u32)
        requires to { to < length self.old.seats }
        requires link { link < length self.old.wires }
        requires due { Behind (λ wire. is_due wire ≡ true) self.old.wires (Some link) }
        ensures { self.new ≡ desk_showing self.old to link }
    {
        self.wires[link as usize].offer_again();
        change_seat(&mut self.seats, to, Seen::Saw(0));
    }

    /// The record that was taken on a link is put, the next one is offered by its grip, and the strand at the other end sees it,
    /// takes it, and asks to look at the next one.
    #[inline(always)]
    pub fn relay(&mut self, link: u32)
        requires link { link < length self.old.wires }
        requires due { Behind (λ wire. is_due wire ≡ true) self.old.wires (Some link) }
        requires count { Behind (λ wire. wire.tooks < 2 ^ 64 - 1) self.old.wires (Some link) }
        ensures { self.new ≡ desk_relayed self.old link }
    {
        self.wires[link as usize].take_again();
    }
}
