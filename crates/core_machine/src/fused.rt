//! Changes of the floor that are two or three in one: a strand passes a record on, takes one as it sees it, or shows the next one.
ghost use Rattle.std.specs.Prelude.{◌≡◌, IfSome};
ghost use Rattle.pipe_model.specs.declared.step.Out.TheVariants as Outs;
ghost use Rattle.pipe_model.specs.declared.step.Want.TheVariants as Asks;

use crate::floor::{Ahead, Floor};
use pipe_model::{Kind, NoMemory, Out, Rec, Seen, Want};

// No record of more bytes is shown: so `Stage::show` promises, and `Floor::refill` asks for it.
pub(crate) const MOST_SHOWN: usize = 256;

// The sight of a record of more bytes is long: it is work of its own, which others needn't wait for.
const LONG_SIGHT: usize = 1_024;

// So is that of a SPECS of more items.
const FEW_ITEMS: usize = 32;

impl Floor {
    ghost use Rattle.std.specs.Prelude.{◌≡◌, ◌<◌, ◌≤◌, ◌-◌, ◌^◌, [], ℕ, true, false, length, Some, None, slice_get, IfOk, OnErr, IfSome};
    ghost use Rattle.pipe_model.specs.declared.step.Seen.TheVariants as Told;
    ghost use Rattle.pipe_model.specs.declared.step.Out.TheVariants as Outs;
    ghost use Rattle.pipe_model.specs.declared.step.Want.TheVariants as Asks;
    ghost use Rattle.pipe_model.specs.declared.net.Link.{Link as LinkIs};
    ghost use Rattle.connectors.specs.WireState.{IsHeldIn, is_due};
    ghost use Rattle.run_desk.specs.Relaying.{IsRelaying, desk_showing, desk_relayed, pool_refilled};
    ghost use Rattle.run_desk.specs.Turns.{CanCome, HasCome, Behind, bare, hand_on, offer_on, desk_after_turn, pool_after_turn};
    ghost use Rattle.run_desk.specs.Passing.{desk_taking, desk_passed, pool_passed, IsBy};
    ghost use Rattle.run_desk.specs.Desk.{DeskState};
    ghost use Rattle.run_desk.specs.Telling as Telling;
    ghost use Rattle.record_pool.specs.PoolState.{PoolState};
    ghost use Rattle.core_machine.specs.Actors.{bytes_ahead};
    ghost use Rattle.core_machine.specs.Floor.{IsInUse, IsCovered, CanMake, StaysEarly};
    ghost use Rattle.core_machine.specs.Woken.{HasReturned, IsCovering, LeastEventAwake, may_settle};
    ghost use Rattle.core_machine.specs.Ahead.{HasSeenOrPut, IsAheadOn};

    /// The bytes of the record at hand on a link, where the strand that sees it next looks.
    #[inline(always)]
    pub(crate) fn bytes_ahead(&self, looks: bool, link: u32) -> &[u8]
        requires link { link < length self.now.desk.wires }
        requires held { IsHeldIn self.now.pool (hand_on (Telling.through self.now.desk.wires (Some link))) }
        ensures { result.now ≡ bytes_ahead looks self.now.desk self.now.pool link }
    {
        if looks {
            self.desk.bytes_at_hand(&self.pool, link)
        } else {
            &[]
        }
    }

    /// The number of the link at a strand's input.
    #[inline(always)]
    pub(crate) fn link_in(&self, strand: u32, i: u16) -> Option<u32>
        requires { strand < length self.now.desk.seats }
        ensures door { result ≡ Telling.in_door self.now.desk strand i }
        ensures there { Telling.LeadsBelow (length self.now.desk.wires) result }
    {
        self.desk.in_door(strand, i)
    }

    /// Whether what a strand does with the record at hand on an input may take more than some five microseconds. Nothing is
    /// proved of the answer.
    pub(crate) fn takes_long(&self, strand: u32, i: u16) -> bool
        requires strand { strand < length self.now.net.strands }
        requires held { IsHeldIn self.now.pool (hand_on (Telling.wire_in self.now.desk strand i)) }
    {
        if self.has_long_sights(strand) {
            return true;
        }
        self.desk.size_at_hand(&self.pool, strand, i) > LONG_SIGHT
    }

    /// Whether a strand's work on a record of any size may take more than some five microseconds. Nothing is proved of the
    /// answer.
    pub(crate) fn has_long_sights(&self, strand: u32) -> bool
        requires { strand < length self.now.net.strands }
    {
        match &self.net.strands.as_slice()[strand as usize].kind {
            Kind::Specs { items, .. } => items.as_slice().len() > FEW_ITEMS,
            _ => false,
        }
    }

    /// A strand sees the record at hand on an input, to which this link leads, and comes home with what it wants next, out of
    /// which a new record is moved. Those whom that may concern are woken. The answer is what is known of the next event. Out of
    /// memory leaves the desk and the pool as they are after the sight.
    #[inline(always)]
    pub(crate) fn see(
        &mut self,
        strand: u32,
        i: u16,
        from: u32,
        want: &mut Want,
    ) -> Result<Ahead, NoMemory>
        requires can { CanMake self.old.net self.old.desk self.old.pool strand (Told.Saw i) }
        requires from { Telling.in_door self.old.desk strand i ≡ Some from }
        requires least { (stream : ℕ) × LeastEventAwake self.old.desk (Some (strand, stream, Told.Saw i)) }
        requires quiet { may_settle self.old.desk strand (Told.Saw i) ≡ false }
        requires used { IsInUse self.old.net (desk_after_turn self.old.desk strand (Told.Saw i)) }
        requires live { Telling.ended_at (desk_after_turn self.old.desk strand (Told.Saw i)) strand ≡ false }
        requires home { CanCome (desk_after_turn self.old.desk strand (Told.Saw i)) (pool_after_turn self.old.desk self.old.pool strand (Told.Saw i)) strand want.old }
        requires early { StaysEarly (desk_after_turn self.old.desk strand (Told.Saw i)) (pool_after_turn self.old.desk self.old.pool strand (Told.Saw i)) strand want.old }
        requires used_home { (desk : DeskState) (pool : PoolState) → HasCome (desk_after_turn self.old.desk strand (Told.Saw i)) (pool_after_turn self.old.desk self.old.pool strand (Told.Saw i)) strand want.old desk pool → IsInUse self.old.net desk }
        ensures net { self.new.net ≡ self.old.net }
        ensures home { IfOk result (λ ahead. HasReturned (desk_after_turn self.old.desk strand (Told.Saw i)) (pool_after_turn self.old.desk self.old.pool strand (Told.Saw i)) strand want.old self.new.desk self.new.pool) }
        ensures bare { want.new ≡ bare want.old }
        ensures ahead { IfOk result (IsAheadOn self.new.desk) }
        ensures err { OnErr result (self.new.desk ≡ desk_after_turn self.old.desk strand (Told.Saw i)) }
        ensures err_pool { OnErr result (self.new.pool ≡ pool_after_turn self.old.desk self.old.pool strand (Told.Saw i)) }
    {
        if let Some(o) = passed_to(want, i) {
            if let Some(link) = self.rendezvous_at(strand, o) {
                return Ok(self.pass_on(strand, i, o, from, link));
            }
        }
        self.make(strand, Seen::Saw(i));
        self.come_home(strand, false, want)?;
        Ok(self.ahead(strand, Seen::Saw(i), want))
    }

    /// The number of the link at a strand's output, where that is a rendezvous.
    #[inline(always)]
    pub(crate) fn rendezvous_at(&self, strand: u32, o: u16) -> Option<u32>
        requires used { IsInUse self.now.net self.now.desk }
        requires strand { strand < length self.now.net.strands }
        ensures { IfSome result (λ j. (Telling.out_door self.now.desk strand o ≡ Some j) × ((link : LinkIs) × (slice_get self.now.net.links j ≡ Some link) × (link.queue ≡ false))) }
    {
        let j = self.desk.out_door(strand, o)?;
        if self.net.links.as_slice()[j as usize].queue {
            None
        } else {
            Some(j)
        }
    }

    // A strand sees the record at hand on an input, to which the one link leads, and comes home to write it on an output, which
    // leads to the other, a rendezvous.
    #[inline(always)]
    fn pass_on(&mut self, strand: u32, i: u16, o: u16, from: u32, link: u32) -> Ahead
        requires can { CanMake self.old.net self.old.desk self.old.pool strand (Told.Saw i) }
        requires from { Telling.in_door self.old.desk strand i ≡ Some from }
        requires least { (stream : ℕ) × LeastEventAwake self.old.desk (Some (strand, stream, Told.Saw i)) }
        requires quiet { may_settle self.old.desk strand (Told.Saw i) ≡ false }
        requires used { IsInUse self.old.net (desk_after_turn self.old.desk strand (Told.Saw i)) }
        requires live { Telling.ended_at (desk_after_turn self.old.desk strand (Told.Saw i)) strand ≡ false }
        requires home { CanCome (desk_after_turn self.old.desk strand (Told.Saw i)) (pool_after_turn self.old.desk self.old.pool strand (Told.Saw i)) strand (Asks.Write o (Outs.Same i)) }
        requires early { StaysEarly (desk_after_turn self.old.desk strand (Told.Saw i)) (pool_after_turn self.old.desk self.old.pool strand (Told.Saw i)) strand (Asks.Write o (Outs.Same i)) }
        requires door { Telling.out_door self.old.desk strand o ≡ Some link }
        requires rendezvous { (l : LinkIs) × (slice_get self.old.net.links link ≡ Some l) × (l.queue ≡ false) }
        ensures net { self.new.net ≡ self.old.net }
        ensures home { HasReturned (desk_after_turn self.old.desk strand (Told.Saw i)) (pool_after_turn self.old.desk self.old.pool strand (Told.Saw i)) strand (Asks.Write o (Outs.Same i)) self.new.desk self.new.pool }
        ensures ahead { IsAheadOn self.new.desk result }
    {
        let its = self.net.links.as_slice()[link as usize];
        self.ready.insert(its.to);
        self.desk.pass_on(&mut self.pool, strand, i, o, from, link);
        self.ahead_of_offer_on(strand, link, its)
    }

    /// A strand sees the record at hand on an input, and stays out.
    #[cold]
    #[inline(never)]
    pub(crate) fn see_in_vain(&mut self, strand: u32, i: u16)
        requires { CanMake self.old.net self.old.desk self.old.pool strand (Told.Saw i) }
        ensures net { self.new.net ≡ self.old.net }
        ensures desk { self.new.desk ≡ desk_after_turn self.old.desk strand (Told.Saw i) }
        ensures pool { self.new.pool ≡ pool_after_turn self.old.desk self.old.pool strand (Told.Saw i) }
    {
        self.make(strand, Seen::Saw(i));
    }

    /// A strand has put a record on an output, and stays out.
    #[cold]
    #[inline(never)]
    pub(crate) fn put_in_vain(&mut self, strand: u32, o: u16)
        requires { CanMake self.old.net self.old.desk self.old.pool strand (Told.Put o) }
        ensures net { self.new.net ≡ self.old.net }
        ensures desk { self.new.desk ≡ desk_after_turn self.old.desk strand (Told.Put o) }
        ensures pool { self.new.pool ≡ pool_after_turn self.old.desk self.old.pool strand (Told.Put o) }
    {
        self.make(strand, Seen::Put(o));
    }

    /// A strand has put a record on an output, which leads to this rendezvous, and comes home with what it wants next, out of
    /// which a new record is moved. Those whom that may concern are woken. The answer is what is known of the next event. Out of
    /// memory leaves the desk and the pool as they are after the record was put.
    #[inline(always)]
    pub(crate) fn put(
        &mut self,
        strand: u32,
        o: u16,
        link: u32,
        want: &mut Want,
    ) -> Result<Ahead, NoMemory>
        requires can { CanMake self.old.net self.old.desk self.old.pool strand (Told.Put o) }
        requires door { Telling.out_door self.old.desk strand o ≡ Some link }
        requires rendezvous { (l : LinkIs) × (slice_get self.old.net.links link ≡ Some l) × (l.queue ≡ false) }
        requires least { (stream : ℕ) × LeastEventAwake self.old.desk (Some (strand, stream, Told.Put o)) }
        requires used { IsInUse self.old.net (desk_after_turn self.old.desk strand (Told.Put o)) }
        requires live { Telling.ended_at (desk_after_turn self.old.desk strand (Told.Put o)) strand ≡ false }
        requires home { CanCome (desk_after_turn self.old.desk strand (Told.Put o)) (pool_after_turn self.old.desk self.old.pool strand (Told.Put o)) strand want.old }
        requires early { StaysEarly (desk_after_turn self.old.desk strand (Told.Put o)) (pool_after_turn self.old.desk self.old.pool strand (Told.Put o)) strand want.old }
        requires used_home { (desk : DeskState) (pool : PoolState) → HasCome (desk_after_turn self.old.desk strand (Told.Put o)) (pool_after_turn self.old.desk self.old.pool strand (Told.Put o)) strand want.old desk pool → IsInUse self.old.net desk }
        ensures net { self.new.net ≡ self.old.net }
        ensures home { IfOk result (λ ahead. HasReturned (desk_after_turn self.old.desk strand (Told.Put o)) (pool_after_turn self.old.desk self.old.pool strand (Told.Put o)) strand want.old self.new.desk self.new.pool) }
        ensures bare { want.new ≡ bare want.old }
        ensures ahead { IfOk result (IsAheadOn self.new.desk) }
        ensures err { OnErr result (self.new.desk ≡ desk_after_turn self.old.desk strand (Told.Put o)) }
        ensures err_pool { OnErr result (self.new.pool ≡ pool_after_turn self.old.desk self.old.pool strand (Told.Put o)) }
    {
        if let Want::Write(k, out) = want {
            if *k == o {
                if let Out::Fresh(rec) = out {
                    return self.write_on(strand, o, rec, link);
                }
            }
        }
        self.make(strand, Seen::Put(o));
        self.come_home(strand, false, want)?;
        Ok(self.ahead(strand, Seen::Put(o), want))
    }

    // A strand has put a record on an output, which leads to this rendezvous, and comes home to write a new one there. Out of
    // memory leaves the desk and the pool as they are after the record was put.
    #[inline(always)]
    fn write_on(&mut self, strand: u32, o: u16, rec: &mut Rec, link: u32) -> Result<Ahead, NoMemory>
        requires can { CanMake self.old.net self.old.desk self.old.pool strand (Told.Put o) }
        requires door { Telling.out_door self.old.desk strand o ≡ Some link }
        requires rendezvous { (l : LinkIs) × (slice_get self.old.net.links link ≡ Some l) × (l.queue ≡ false) }
        requires least { (stream : ℕ) × LeastEventAwake self.old.desk (Some (strand, stream, Told.Put o)) }
        requires used { IsInUse self.old.net (desk_after_turn self.old.desk strand (Told.Put o)) }
        requires live { Telling.ended_at (desk_after_turn self.old.desk strand (Told.Put o)) strand ≡ false }
        requires home { CanCome (desk_after_turn self.old.desk strand (Told.Put o)) (pool_after_turn self.old.desk self.old.pool strand (Told.Put o)) strand (Asks.Write o (Outs.Fresh rec.old)) }
        requires early { StaysEarly (desk_after_turn self.old.desk strand (Told.Put o)) (pool_after_turn self.old.desk self.old.pool strand (Told.Put o)) strand (Asks.Write o (Outs.Fresh rec.old)) }
        ensures net { self.new.net ≡ self.old.net }
        ensures home { IfOk result (λ ahead. HasReturned (desk_after_turn self.old.desk strand (Told.Put o)) (pool_after_turn self.old.desk self.old.pool strand (Told.Put o)) strand (Asks.Write o (Outs.Fresh rec.old)) self.new.desk self.new.pool) }
        ensures left { rec.new ≡ [] }
        ensures ahead { IfOk result (IsAheadOn self.new.desk) }
        ensures err { OnErr result (self.new.desk ≡ desk_after_turn self.old.desk strand (Told.Put o)) }
        ensures err_pool { OnErr result (self.new.pool ≡ pool_after_turn self.old.desk self.old.pool strand (Told.Put o)) }
    {
        let its = self.net.links.as_slice()[link as usize];
        self.ready.insert(its.to);
        self.desk.write_on(&mut self.pool, strand, o, rec, link)?;
        Ok(self.ahead_of_offer_on(strand, link, its))
    }

    /// Whether a strand took the record that is offered on this link, which nothing else holds than that offer and what it saw
    /// last, and asks to look at the next one on input 0.
    pub(crate) fn relays(&self, to: u32, link: u32) -> bool
        requires link { link < length self.now.desk.wires }
        requires held { IsHeldIn self.now.pool (offer_on (Telling.through self.now.desk.wires (Some link))) }
        ensures { result ≡ true → (grip : ℕ) × IsRelaying self.now.desk self.now.pool to link grip }
    {
        self.desk.relays(&self.pool, to, link)
    }

    /// Puts a record of at most 256 bytes in place of the one that is offered on a link.
    #[inline(never)]
    pub(crate) fn refill(&mut self, link: u32, rec: Rec)
        requires link { link < length self.old.desk.wires }
        requires held { IsHeldIn self.old.pool (offer_on (Telling.through self.old.desk.wires (Some link))) }
        requires short { length rec ≤ 256 }
        ensures net { self.new.net ≡ self.old.net }
        ensures desk { self.new.desk ≡ self.old.desk }
        ensures ready { self.new.ready ≡ self.old.ready }
        ensures pool { (grip : ℕ) → offer_on (Telling.through self.old.desk.wires (Some link)) ≡ Some grip → self.new.pool ≡ pool_refilled self.old.pool grip rec }
        ensures none { offer_on (Telling.through self.old.desk.wires (Some link)) ≡ None → self.new.pool ≡ self.old.pool }
    {
        self.desk.refill(&mut self.pool, link, rec);
    }

    /// The record that was taken on a link is put, the next one is offered by its grip, and the strand at the other end is told
    /// that it sees it. Whom that may concern is among those that may be ready.
    pub(crate) fn show(&mut self, to: u32, link: u32)
        requires to { to < length self.old.desk.seats }
        requires link { link < length self.old.desk.wires }
        requires due { Behind (λ wire. is_due wire ≡ true) self.old.desk.wires (Some link) }
        requires covers { IsCovered self.old.net self.old.desk self.old.ready → IsCovering (desk_showing self.old.desk to link) self.old.ready }
        ensures net { self.new.net ≡ self.old.net }
        ensures desk { self.new.desk ≡ desk_showing self.old.desk to link }
        ensures pool { self.new.pool ≡ self.old.pool }
        ensures ready { self.new.ready ≡ self.old.ready }
    {
        self.desk.show(to, link);
    }

    /// The record that was taken on a link is put, the next one is offered by its grip, and the strand at the other end sees it,
    /// takes it, and asks to look at the next one.
    #[inline(always)]
    pub(crate) fn relay(&mut self, link: u32)
        requires link { link < length self.old.desk.wires }
        requires due { Behind (λ wire. is_due wire ≡ true) self.old.desk.wires (Some link) }
        requires count { Behind (λ wire. wire.tooks < 2 ^ 64 - 1) self.old.desk.wires (Some link) }
        requires covers { IsCovered self.old.net self.old.desk self.old.ready → IsCovering (desk_relayed self.old.desk link) self.old.ready }
        ensures net { self.new.net ≡ self.old.net }
        ensures desk { self.new.desk ≡ desk_relayed self.old.desk link }
        ensures pool { self.new.pool ≡ self.old.pool }
        ensures ready { self.new.ready ≡ self.old.ready }
    {
        self.desk.relay(link);
    }

    /// A strand is told this: that it saw the record of an input, or put one through a door. It takes the record of the input,
    /// to which this link leads, and comes home to look at the next one there. Those whom that may concern are woken. The answer
    /// is what is known of the next event.
    #[inline(always)]
    pub(crate) fn take_after(
        &mut self,
        strand: u32,
        seen: Seen,
        put: Option<u32>,
        i: u16,
        from: u32,
    ) -> Ahead
        requires by { IsBy self.old.desk strand seen i put }
        requires from { Telling.in_door self.old.desk strand i ≡ Some from }
        requires there { from < length self.old.desk.wires }
        requires can { CanMake self.old.net self.old.desk self.old.pool strand seen }
        requires quiet { may_settle self.old.desk strand seen ≡ false }
        requires awake { (stream : ℕ) × LeastEventAwake self.old.desk (Some (strand, stream, seen)) }
        requires told { HasSeenOrPut self.old.net self.old.desk strand seen }
        requires used { IsInUse self.old.net (desk_after_turn self.old.desk strand seen) }
        requires early { StaysEarly (desk_after_turn self.old.desk strand seen) (pool_after_turn self.old.desk self.old.pool strand seen) strand (Asks.Take i) }
        requires takes { CanMake self.old.net (desk_taking self.old.desk strand seen i) (pool_after_turn self.old.desk self.old.pool strand seen) strand (Told.Took i) }
        requires least { (stream : ℕ) × LeastEventAwake (desk_taking self.old.desk strand seen i) (Some (strand, stream, Told.Took i)) }
        requires used_last { IsInUse self.old.net (desk_after_turn (desk_taking self.old.desk strand seen i) strand (Told.Took i)) }
        requires early_last { StaysEarly (desk_after_turn (desk_taking self.old.desk strand seen i) strand (Told.Took i)) (pool_passed self.old.desk self.old.pool strand seen i) strand (Asks.Read i) }
        ensures net { self.new.net ≡ self.old.net }
        ensures desk { self.new.desk ≡ desk_passed self.old.desk strand seen i }
        ensures pool { self.new.pool ≡ pool_passed self.old.desk self.old.pool strand seen i }
        ensures ahead { IsAheadOn self.new.desk result }
    {
        self.desk
            .take_after(&mut self.pool, strand, seen, put, i, from);
        let its = self.net.links.as_slice()[from as usize];
        self.ready.insert(its.from);
        self.ahead_of_take_on(strand, its)
    }
}

// The output on which the record that was seen on this input is to be written, if one is.
#[inline(always)]
fn passed_to(want: &Want, i: u16) -> Option<u16>
    ensures { IfSome result (λ o. want.now ≡ Asks.Write o (Outs.Same i)) }
{
    match want {
        Want::Write(o, Out::Same(k)) if *k == i => Some(*o),
        _ => None,
    }
}
