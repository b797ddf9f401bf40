//! What a strand that comes home does to the desk.
ghost use Rattle.std.specs.Prelude.{◌≡◌, ◌<◌, ℕ, true, false, length, None, IsSome, IfOk, OnErr};
ghost use Rattle.connectors.specs.WireState.{CanUnreserve};
ghost use Rattle.pipe_model.specs.declared.step.Want.TheVariants as Wants;
ghost use Rattle.run_desk.specs.declared.seat.Ask.TheVariants as Now;
ghost use Rattle.run_desk.specs.Turns.{desk_at_home, desk_at_home_writing, unit_at_home, CanAsk, CanHold, IsHold, CanCome, HasCome, is_new, bare, bare_out, wants_memory, HasWritten, HasOffered, Behind, list_changed_behind, without_room, pool_without_room};
ghost use Rattle.run_desk.specs.Telling as Telling;

use crate::desk::Desk;
use crate::seat::{Ask, ask_seat};
use crate::sights::hold_of;
use crate::wires::{offer_at, reserve_at, unreserve_at};
use pipe_model::{NoMemory, Out, Rec, Want};
use record_pool::{Grip, Pool};
use std::alloc::Global;

impl Desk {
    /// A strand comes home with what it wants next. Where it writes, it offers the record that it saw last on an
    /// input, or a new one, which is moved out of the want, and a queue reserves a place for it. Only a new record and a place
    /// in a queue want memory; out of memory leaves the desk and the pool as they were.
    #[inline(always)]
    pub fn come_home(
        &mut self,
        pool: &mut Pool,
        strand: u32,
        want: &mut Want,
    ) -> Result<(), NoMemory>
        requires strand { strand < length self.old.seats }
        requires can { CanCome self.old pool.old strand want.old }
        ensures home { IfOk result (λ done. HasCome self.old pool.old strand want.old self.new pool.new) }
        ensures bare { want.new ≡ bare want.old }
        ensures err { OnErr result (self.new ≡ self.old) }
        ensures err_pool { OnErr result (pool.new ≡ pool.old) }
        ensures lack { OnErr result (wants_memory self.old strand want.old ≡ true) }
    {
        match want {
            Want::Write(o, out) => return self.write(pool, strand, *o, out),
            Want::Commit(level) => self.ask(strand, Ask::Commit(*level)),
            Want::Read(i) => self.ask(strand, Ask::Read(*i)),
            Want::Any => self.ask(strand, Ask::Any),
            Want::Gate => self.ask(strand, Ask::Gate),
            Want::Take(i) => self.ask(strand, Ask::Take(*i)),
            Want::Primed => self.ask(strand, Ask::Primed),
            Want::Issue(_) => self.ask(strand, Ask::Issue),
            Want::Join(unit) => self.ask(strand, Ask::Join(*unit)),
            Want::Cut(i) => self.ask(strand, Ask::Cut(*i)),
            Want::Done(code) => self.ask(strand, Ask::Done(*code)),
        }
        Ok(())
    }

    // A strand that writes nothing.
    fn ask(&mut self, strand: u32, ask: Ask)
        requires strand { strand < length self.old.seats }
        requires can { CanAsk self.old strand ask }
        ensures { self.new ≡ desk_at_home self.old strand ask }
    {
        self.ask_unit(strand, ask);
        ask_seat(&mut self.seats, strand, ask);
    }

    // One that writes a record on an output.
    #[inline(always)]
    fn write(&mut self, pool: &mut Pool, strand: u32, o: u16, out: &mut Out) -> Result<(), NoMemory>
        requires strand { strand < length self.old.seats }
        requires ask { CanAsk self.old strand (Now.Write o) }
        requires hold { CanHold self.old pool.old strand out.old }
        ensures ok { IfOk result (λ done. HasWritten self.old pool.old strand o out.old self.new pool.new) }
        ensures bare { out.new ≡ bare_out out.old }
        ensures err { OnErr result (self.new ≡ self.old) }
        ensures err_pool { OnErr result (pool.new ≡ pool.old) }
        ensures lack { OnErr result (wants_memory self.old strand (Wants.Write o out.old) ≡ true) }
    {
        let door = self.out_door(strand, o);
        self.write_at(pool, strand, o, out, door)
    }

    /// A strand comes home to write, through the door of the output. A new record is moved out, and a queue reserves a place.
    /// Out of memory leaves the desk and the pool as they were.
    #[inline(always)]
    pub fn write_at(
        &mut self,
        pool: &mut Pool,
        strand: u32,
        o: u16,
        out: &mut Out,
        door: Option<u32>,
    ) -> Result<(), NoMemory>
        requires strand { strand < length self.old.seats }
        requires door { door ≡ Telling.out_door self.old strand o }
        requires ask { CanAsk self.old strand (Now.Write o) }
        requires hold { CanHold self.old pool.old strand out.old }
        ensures ok { IfOk result (λ done. HasWritten self.old pool.old strand o out.old self.new pool.new) }
        ensures bare { out.new ≡ bare_out out.old }
        ensures err { OnErr result (self.new ≡ self.old) }
        ensures err_pool { OnErr result (pool.new ≡ pool.old) }
        ensures lack { OnErr result (wants_memory self.old strand (Wants.Write o out.old) ≡ true) }
    {
        match reserve_at(&mut self.wires, pool, door) {
            Ok(()) => self.write_reserved(pool, strand, o, out, door),
            Err(NoMemory) => {
                let_go(*self.seats.allocator(), out);
                Err(NoMemory)
            }
        }
    }

    // The same, where a place is reserved for it. Out of memory gives it back.
    #[inline(always)]
    fn write_reserved(
        &mut self,
        pool: &mut Pool,
        strand: u32,
        o: u16,
        out: &mut Out,
        door: Option<u32>,
    ) -> Result<(), NoMemory>
        requires strand { strand < length self.old.seats }
        requires leads { IsSome (Telling.through self.old.wires door) }
        requires free { Behind (λ wire. wire.offer ≡ None) self.old.wires door }
        requires open { Behind (λ wire. wire.out_closed ≡ false) self.old.wires door }
        requires counted { Behind (λ wire. CanUnreserve pool.old wire.reserved) self.old.wires door }
        requires hold { CanHold self.old pool.old strand out.old }
        ensures ok { IfOk result (λ done. HasOffered self.old pool.old strand o door out.old self.new pool.new) }
        ensures bare { out.new ≡ bare_out out.old }
        ensures err { OnErr result (self.new ≡ record self.old { wires = list_changed_behind self.old.wires without_room door }) }
        ensures err_pool { OnErr result (pool.new ≡ pool_without_room pool.old (Telling.through self.old.wires door)) }
        ensures lack { OnErr result (is_new out.old ≡ true) }
    {
        match self.hold(pool, strand, out) {
            Ok(grip) => {
                offer_at(&mut self.wires, grip, door);
                ask_seat(&mut self.seats, strand, Ask::Write(o));
                Ok(())
            }
            Err(NoMemory) => {
                unreserve_at(&mut self.wires, pool, door);
                Err(NoMemory)
            }
        }
    }

    // A hold on what is to be written.
    #[inline(always)]
    fn hold(&self, pool: &mut Pool, strand: u32, out: &mut Out) -> Result<Grip, NoMemory>
        requires strand { strand < length self.now.seats }
        requires can { CanHold self.now pool.old strand out.old }
        ensures hold { IfOk result (λ grip. IsHold self.now pool.old strand out.old grip pool.new) }
        ensures bare { out.new ≡ bare_out out.old }
        ensures err { OnErr result (pool.new ≡ pool.old) }
        ensures lack { OnErr result (is_new out.old ≡ true) }
    {
        match out {
            Out::Same(i) => Ok(hold_of(&self.sights, pool, self.sight_door(strand, *i))),
            Out::Fresh(rec) => pool.take_in(rec),
        }
    }

    fn ask_unit(&mut self, strand: u32, ask: Ask)
        requires { CanAsk self.old strand ask }
        ensures { self.new ≡ record self.old { unit = unit_at_home self.old.unit strand ask } }
    {
        if let Ask::Commit(level) = ask {
            self.unit.ask(strand, level);
        }
    }
}

// A new record that can't be written is let go.
#[cold]
fn let_go(alloc: Global, out: &mut Out)
    ensures { out.new ≡ bare_out out.old }
{
    match out {
        Out::Same(_) => {}
        Out::Fresh(rec) => *rec = Rec::from_vec(Vec::new(alloc)),
    }
}
