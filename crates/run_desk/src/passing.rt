//! What a strand that passes records on does to the desk, where two of its changes are made in one.
ghost use Rattle.std.specs.Prelude.{◌≡◌, ◌<◌, ◌&&◌, ◌||◌, not, [], true, length, Some, None, IfOk, OnErr};
ghost use Rattle.std.specs.Option.{option_map_or};
ghost use Rattle.record_pool.specs.Places.{bytes_at};
ghost use Rattle.connectors.specs.WireState.{IsHeldIn};
ghost use Rattle.pipe_model.specs.declared.step.Seen.TheVariants as Told;
ghost use Rattle.pipe_model.specs.declared.step.Out.TheVariants.{Same, Fresh};
ghost use Rattle.pipe_model.specs.declared.step.Want.TheVariants as Wants;
ghost use Rattle.run_desk.specs.Passing.{desk_passed, pool_passed, CanPass, IsBy};
ghost use Rattle.run_desk.specs.Turns.{Behind, hand_on, desk_after_turn, pool_after_turn, CanTurn, CanCome, HasCome};
ghost use Rattle.run_desk.specs.Telling as Telling;

use crate::desk::Desk;
use crate::seat::{Ask, change_and_ask, change_seat};
use crate::sights::see_at;
use crate::wires::{settle_at, take_at};
use pipe_model::{NoMemory, Rec, Seen};
use record_pool::Pool;

impl Desk {
    /// The bytes of the record at hand on a link, and none where none is.
    #[inline(always)]
    pub fn bytes_at_hand<'a>(&self, pool: &'a Pool, link: u32) -> &'a [u8]
        requires link { link < length self.now.wires }
        requires held { IsHeldIn pool.now (hand_on (Telling.through self.now.wires (Some link))) }
        ensures { result.now ≡ option_map_or (bytes_at pool.now) (hand_on (Telling.through self.now.wires (Some link))) [] }
    {
        match self.wires[link as usize].at_hand() {
            None => &[],
            Some(grip) => pool.bytes_of(grip),
        }
    }

    /// A strand sees the record at hand on an input, to which this link leads, and comes home to write it on an output, which
    /// leads to this rendezvous.
    #[inline(always)]
    pub fn pass_on(&mut self, pool: &mut Pool, strand: u32, i: u16, o: u16, from: u32, link: u32)
        requires strand { strand < length self.old.seats }
        requires can { CanTurn self.old pool.old strand (Told.Saw i) }
        requires from { Telling.in_door self.old strand i ≡ Some from }
        requires shows { Telling.shows (Telling.wire_in self.old strand i) ≡ true }
        requires home { CanCome (desk_after_turn self.old strand (Told.Saw i)) (pool_after_turn self.old pool.old strand (Told.Saw i)) strand (Wants.Write o (Same i)) }
        requires door { Telling.out_door self.old strand o ≡ Some link }
        requires rendezvous { Behind (λ wire. wire.queue ≡ None) self.old.wires (Some link) }
        ensures { HasCome (desk_after_turn self.old strand (Told.Saw i)) (pool_after_turn self.old pool.old strand (Told.Saw i)) strand (Wants.Write o (Same i)) self.new pool.new }
    {
        let Some(n) = self.sight_door(strand, i) else {
            unreachable!()
        };
        let Some(grip) = self.wires[from as usize].at_hand() else {
            unreachable!()
        };
        change_and_ask(&mut self.seats, strand, Seen::Saw(i), Ask::Write(o));
        let hold = pool.share(grip);
        if let Some(before) = self.sights[n].replace(hold) {
            pool.give(before);
        }
        let offer = pool.share(grip);
        self.wires[link as usize].offer(offer);
    }

    /// A strand has put the record that it offered on an output, which leads to this rendezvous, and comes home to write a new
    /// one there, which is moved out. Out of memory leaves the desk and the pool as they are after the record was put.
    #[inline(always)]
    pub fn write_on(
        &mut self,
        pool: &mut Pool,
        strand: u32,
        o: u16,
        rec: &mut Rec,
        link: u32,
    ) -> Result<(), NoMemory>
        requires strand { strand < length self.old.seats }
        requires can { CanTurn self.old pool.old strand (Told.Put o) }
        requires home { CanCome (desk_after_turn self.old strand (Told.Put o)) (pool_after_turn self.old pool.old strand (Told.Put o)) strand (Wants.Write o (Fresh rec.old)) }
        requires door { Telling.out_door self.old strand o ≡ Some link }
        requires rendezvous { Behind (λ wire. wire.queue ≡ None) self.old.wires (Some link) }
        ensures home { IfOk result (λ done. HasCome (desk_after_turn self.old strand (Told.Put o)) (pool_after_turn self.old pool.old strand (Told.Put o)) strand (Wants.Write o (Fresh rec.old)) self.new pool.new) }
        ensures left { rec.new ≡ [] }
        ensures err { OnErr result (self.new ≡ desk_after_turn self.old strand (Told.Put o)) }
        ensures err_pool { OnErr result (pool.new ≡ pool_after_turn self.old pool.old strand (Told.Put o)) }
    {
        settle_at(&mut self.wires, pool, Some(link));
        let Ok(grip) = pool.take_in(rec) else {
            change_seat(&mut self.seats, strand, Seen::Put(o));
            return Err(NoMemory);
        };
        change_and_ask(&mut self.seats, strand, Seen::Put(o), Ask::Write(o));
        self.wires[link as usize].offer(grip);
        Ok(())
    }

    /// A strand is told this: that it saw the record of an input, or put one through a door. It takes the record of the input,
    /// to which this link leads, and comes home to look at the next one there.
    #[inline(always)]
    pub fn take_after(
        &mut self,
        pool: &mut Pool,
        strand: u32,
        seen: Seen,
        put: Option<u32>,
        i: u16,
        from: u32,
    )
        requires strand { strand < length self.old.seats }
        requires can { CanPass self.old pool.old strand seen i }
        requires by { IsBy self.old strand seen i put }
        requires from { Telling.in_door self.old strand i ≡ Some from }
        ensures desk { self.new ≡ desk_passed self.old strand seen i }
        ensures pool { pool.new ≡ pool_passed self.old pool.old strand seen i }
    {
        match put {
            Some(_) => settle_at(&mut self.wires, pool, put),
            None => {
                let sight = self.sight_door(strand, i);
                see_at(&self.wires, &mut self.sights, pool, Some(from), sight);
            }
        }
        take_at(&mut self.wires, pool, Some(from));
        change_and_ask(&mut self.seats, strand, seen, Ask::Read(i));
    }

    /// Whether what is offered on a link may be seen there, and has to wait until it is taken.
    #[inline(always)]
    pub fn waits(&self, link: u32) -> bool
        requires { link < length self.now.wires }
        ensures { result ≡ (Telling.shows (Telling.through self.now.wires (Some link)) && not (Telling.can_put (Telling.through self.now.wires (Some link)) || Telling.can_refuse (Telling.through self.now.wires (Some link)))) }
    {
        self.wires[link as usize].waits()
    }
}
