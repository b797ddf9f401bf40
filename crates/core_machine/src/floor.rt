//! What the strands of a net stand on: its desk, its pool and the set of those that may be ready, changed together.
ghost use Rattle.std.specs.Prelude.{◌≡◌, ◌<◌, ◌||◌, ℕ, length, is_some, true};
ghost use Rattle.run_desk.specs.Telling as Telling;
ghost use Rattle.core_machine.specs.Woken.{IsCovering};

use crate::ready::Ready;
use crate::settling::{ends, may_settle, settled_before, wake_settled};
use crate::waking::{wake_consumer, wake_ends};
use pipe_model::{Link, Net, NoMemory, Out, Seen, Want};
use record_pool::Pool;
use run_desk::Desk;
use std::alloc::Global;
use std::marker::Model;

/// The least event that may be, where the step before tells it: its strand, and the stream of what is told.
#[derive(Clone, Copy, Debug, PartialEq, Eq)]
pub enum Ahead {
    /// It has to be looked for.
    Search,
    /// The record at hand on an input is seen.
    Saw(u32, u16),
    /// The record seen on an input is taken.
    Took(u32, u16),
    /// A record is put on an output. The last is whether the strand there took it as soon as it saw it, as far as is known:
    /// nothing is proved of that.
    Put(u32, u16, bool),
}

impl Ahead {
    ghost use Rattle.std.specs.Prelude.{◌≡◌};
    ghost use Rattle.core_machine.specs.Ahead.{event_ahead};

    /// What is known after a strand took a record as soon as it saw it.
    #[inline(always)]
    pub(crate) fn at_once(self) -> Ahead
        ensures { event_ahead result ≡ event_ahead self }
    {
        match self {
            Ahead::Put(strand, o, _) => Ahead::Put(strand, o, true),
            ahead => ahead,
        }
    }
}

/// A net, and what is kept of a run of it besides coroutines and journal. Every strand that may go on is in the set of
/// those that may be ready.
pub(crate) struct Floor {
    pub(crate) net: Net,
    pub(crate) desk: Desk,
    pub(crate) pool: Pool,
    pub(crate) ready: Ready,
}

impl Model for Floor {
    ghost use Rattle.core_machine.specs.Floor.{FloorState, IsCovered};

    ghost Value = { FloorState };

    ghost view = { λ floor. record { net = floor.net; desk = floor.desk; pool = floor.pool; ready = floor.ready } };

    ghost invariant = { λ floor. IsCovered floor.net floor.desk floor.ready };
}

impl Floor {
    ghost use Rattle.std.specs.Prelude.{◌≡◌, ◌<◌, [], ℕ, Some, true, false, length, slice_get, is_some, IfOk, OnErr};
    ghost use Rattle.pipe_model.specs.declared.step.Want.TheVariants as Asks;
    ghost use Rattle.pipe_model.specs.State.{nothing_yet};
    ghost use Rattle.pipe_model.specs.WellFormed.{IsWellFormed};
    ghost use Rattle.record_pool.specs.Places.{bytes_at};
    ghost use Rattle.commit_levels.specs.UnitState.{Member};
    ghost use Rattle.connectors.specs.WireState.{IsHeldIn};
    ghost use Rattle.run_desk.specs.Turns.{CanCome, HasCome, bare, bare_out, hand_on, desk_after_turn, pool_after_turn};
    ghost use Rattle.run_desk.specs.Holding.{RunStands, IsPooled, out_from};
    ghost use Rattle.run_desk.specs.Telling as Telling;
    ghost use Rattle.std.specs.Option.{option_map_or};
    ghost use Rattle.core_machine.specs.Actors.{bytes_told};
    ghost use Rattle.core_machine.specs.Floor.{IsInUse, CanMake, StaysEarly};
    ghost use Rattle.core_machine.specs.Members.{is_member};
    ghost use Rattle.core_machine.specs.Woken.{HasReturned, LeastEventAwake, commits, may_settle};
    ghost use Rattle.core_machine.specs.Ahead.{HasGoneQuietly, HasSeenOrPut, IsAheadOn, IsWriteOn};
    ghost use Rattle.pipe_model.specs.declared.net.Link.{Link as LinkIs};
    ghost use Rattle.pipe_model.specs.declared.step.Seen.{Seen as SeenIs};
    ghost use Rattle.pipe_model.specs.declared.step.Want.{Want as Asked};
    ghost use Rattle.record_pool.specs.PoolState.{PoolState};
    ghost use Rattle.run_desk.specs.Desk.{DeskState};
    ghost use Rattle.run_desk.specs.Standing.{link_through};

    /// The floor of a net before the first step, where every strand is out and no record is held.
    pub(crate) fn new(alloc: Global, net: Net) -> Result<Floor, NoMemory>
        requires formed { IsWellFormed net }
        ensures net { IfOk result (λ floor. floor.net ≡ net) }
        ensures run { IfOk result (λ floor. RunStands net nothing_yet (out_from 0 (length net.strands)) floor.desk floor.pool) }
    {
        let ready = Ready::new(alloc, net.strands.as_slice().len() as u32)?;
        let desk = Desk::blank(alloc, &net)?;
        let pool = Pool::new(alloc);
        Ok(Floor {
            net,
            desk,
            pool,
            ready,
        })
    }

    /// Makes what a strand was told, and wakes whom it may concern.
    #[inline(always)]
    pub(crate) fn make(&mut self, strand: u32, seen: Seen)
        requires { CanMake self.old.net self.old.desk self.old.pool strand seen }
        ensures net { self.new.net ≡ self.old.net }
        ensures desk { self.new.desk ≡ desk_after_turn self.old.desk strand seen }
        ensures pool { self.new.pool ≡ pool_after_turn self.old.desk self.old.pool strand seen }
        ensures formed { IsWellFormed self.new.net }
        ensures awake { (k : ℕ) → is_some (Telling.seen_at self.old.desk strand k) ≡ true → is_member self.new.ready strand ≡ true }
    {
        if may_settle(&self.desk, strand, seen) {
            self.make_settling(strand, seen);
            return;
        }
        wake_ends(
            &mut self.ready,
            &self.desk,
            self.net.links.as_slice(),
            strand,
            seen,
        );
        self.desk.make(&mut self.pool, strand, seen);
    }

    // Makes what a strand was told, where it may settle something for many strands, and wakes whom it may concern.
    #[cold]
    #[inline(never)]
    fn make_settling(&mut self, strand: u32, seen: Seen)
        requires { CanMake self.old.net self.old.desk self.old.pool strand seen }
        ensures net { self.new.net ≡ self.old.net }
        ensures desk { self.new.desk ≡ desk_after_turn self.old.desk strand seen }
        ensures pool { self.new.pool ≡ pool_after_turn self.old.desk self.old.pool strand seen }
        ensures awake { (k : ℕ) → is_some (Telling.seen_at self.old.desk strand k) ≡ true → is_member self.new.ready strand ≡ true }
    {
        let before = settled_before(&self.desk, strand, true, ends(seen));
        wake_ends(
            &mut self.ready,
            &self.desk,
            self.net.links.as_slice(),
            strand,
            seen,
        );
        self.desk.make(&mut self.pool, strand, seen);
        wake_settled(&mut self.ready, &self.desk, strand, before);
    }

    /// Brings a strand home with what it wants next, out of which a new record is moved, or, where it has ended, with
    /// nothing, and wakes whom that may concern. Out of memory leaves the desk and the pool as they were.
    #[inline(always)]
    pub(crate) fn come_home(
        &mut self,
        strand: u32,
        has_ended: bool,
        want: &mut Want,
    ) -> Result<(), NoMemory>
        requires used { IsInUse self.old.net self.old.desk }
        requires ended { has_ended ≡ Telling.ended_at self.old.desk strand }
        requires can { has_ended ≡ false → CanCome self.old.desk self.old.pool strand want.old }
        requires early { has_ended ≡ false → StaysEarly self.old.desk self.old.pool strand want.old }
        requires here { is_member self.old.ready strand ≡ true }
        requires strand { strand < length self.old.net.strands }
        ensures net { self.new.net ≡ self.old.net }
        ensures home { IfOk result (λ done. HasReturned self.old.desk self.old.pool strand want.old self.new.desk self.new.pool) }
        ensures bare { has_ended ≡ false → want.new ≡ bare want.old }
        ensures err { OnErr result (self.new.desk ≡ self.old.desk) }
        ensures err_pool { OnErr result (self.new.pool ≡ self.old.pool) }
    {
        if has_ended {
            return Ok(());
        }
        match want {
            Want::Write(o, out) => self.come_writing(strand, *o, out),
            Want::Commit(_) => self.come_settling(strand, want),
            _ => {
                self.desk.come_home(&mut self.pool, strand, want)?;
                Ok(())
            }
        }
    }

    // Brings a strand home that writes: it rests until its record is taken, or its output refuses.
    #[inline(always)]
    fn come_writing(&mut self, strand: u32, o: u16, out: &mut Out) -> Result<(), NoMemory>
        requires used { IsInUse self.old.net self.old.desk }
        requires can { CanCome self.old.desk self.old.pool strand (Asks.Write o out.old) }
        requires early { StaysEarly self.old.desk self.old.pool strand (Asks.Write o out.old) }
        requires here { is_member self.old.ready strand ≡ true }
        requires strand { strand < length self.old.net.strands }
        ensures net { self.new.net ≡ self.old.net }
        ensures home { IfOk result (λ done. HasCome self.old.desk self.old.pool strand (Asks.Write o out.old) self.new.desk self.new.pool) }
        ensures bare { out.new ≡ bare_out out.old }
        ensures err { OnErr result (self.new.desk ≡ self.old.desk) }
        ensures err_pool { OnErr result (self.new.pool ≡ self.old.pool) }
    {
        let door = self.desk.out_door(strand, o);
        wake_consumer(&mut self.ready, self.net.links.as_slice(), door);
        self.desk.write_at(&mut self.pool, strand, o, out, door)?;
        rest(&mut self.ready, &self.desk, strand, door);
        Ok(())
    }

    // Brings a strand home that asks for a commit level.
    #[cold]
    fn come_settling(&mut self, strand: u32, want: &mut Want) -> Result<(), NoMemory>
        requires used { IsInUse self.old.net self.old.desk }
        requires can { CanCome self.old.desk self.old.pool strand want.old }
        requires commits { commits want.old ≡ true }
        requires early { StaysEarly self.old.desk self.old.pool strand want.old }
        requires here { is_member self.old.ready strand ≡ true }
        requires strand { strand < length self.old.net.strands }
        ensures net { self.new.net ≡ self.old.net }
        ensures home { IfOk result (λ done. HasCome self.old.desk self.old.pool strand want.old self.new.desk self.new.pool) }
        ensures bare { want.new ≡ bare want.old }
        ensures err { OnErr result (self.new.desk ≡ self.old.desk) }
        ensures err_pool { OnErr result (self.new.pool ≡ self.old.pool) }
    {
        let before = settled_before(&self.desk, strand, false, true);
        self.desk.come_home(&mut self.pool, strand, want)?;
        wake_settled(&mut self.ready, &self.desk, strand, before);
        Ok(())
    }

    /// Whether what a strand is told may settle something for many.
    #[inline(always)]
    pub(crate) fn may_settle(&self, strand: u32, seen: Seen) -> bool
        requires { strand < length self.now.desk.seats }
        ensures { result ≡ may_settle self.now.desk strand seen }
    {
        may_settle(&self.desk, strand, seen)
    }

    /// What is known of the least event after the one before it was made, which settled nothing for many, and its strand came home with
    /// this want, in which a new record is shown as an empty one.
    #[inline(always)]
    pub(crate) fn ahead(&self, strand: u32, seen: Seen, want: &Want) -> Ahead
        requires used { IsInUse self.now.net self.now.desk }
        requires strand { strand < length self.now.net.strands }
        ensures { (d : DeskState) (pool : PoolState) (stream : ℕ) (asked : Asked) → HasGoneQuietly self.now.net d pool strand stream seen asked self.now.desk self.now.pool →
            want.now ≡ bare asked → IsAheadOn self.now.desk result }
    {
        match seen {
            Seen::Took(i) => match want {
                Want::Commit(_) | Want::Write(_, _) => Ahead::Search,
                _ => self.ahead_of_take(strand, i),
            },
            _ if self.has_seen_or_put(strand, seen) => match want {
                Want::Take(i) => Ahead::Took(strand, *i),
                Want::Write(o, _) => self.ahead_of_offer(strand, *o),
                _ => Ahead::Search,
            },
            _ => Ahead::Search,
        }
    }

    // Whether a strand saw a record, or put one and not into a queue.
    #[inline(always)]
    fn has_seen_or_put(&self, strand: u32, seen: Seen) -> bool
        requires used { IsInUse self.now.net self.now.desk }
        requires strand { strand < length self.now.net.strands }
        ensures { result ≡ true → HasSeenOrPut self.now.net self.now.desk strand seen }
    {
        match seen {
            Seen::Saw(_) => true,
            Seen::Put(o) => !self.writes_queue(strand, o),
            _ => false,
        }
    }

    // Whether a strand's output is connected to a queue.
    #[inline(always)]
    pub(crate) fn writes_queue(&self, strand: u32, o: u16) -> bool
        requires used { IsInUse self.now.net self.now.desk }
        requires strand { strand < length self.now.net.strands }
        ensures { result ≡ false → (link : LinkIs) → link_through self.now.net.links (Telling.out_door self.now.desk strand o) ≡ Some link → link.queue ≡ false }
    {
        match self.desk.out_door(strand, o) {
            None => false,
            Some(j) => self.net.links.as_slice()[j as usize].queue,
        }
    }

    // After a record was taken its producer has put it: that is next where the producer stands before the strand that took it, and that
    // strand wants nothing that concerns others.
    #[inline(always)]
    fn ahead_of_take(&self, strand: u32, i: u16) -> Ahead
        requires used { IsInUse self.now.net self.now.desk }
        requires strand { strand < length self.now.net.strands }
        ensures { (d : DeskState) (pool : PoolState) (stream : ℕ) (asked : Asked) → HasGoneQuietly self.now.net d pool strand stream (Seen.Took i) asked self.now.desk self.now.pool →
            commits asked ≡ false → ((o : ℕ) → IsWriteOn o asked → ⊥) → IsAheadOn self.now.desk result }
    {
        match self.desk.in_door(strand, i) {
            None => Ahead::Search,
            Some(link) => self.ahead_of_take_on(strand, self.net.links.as_slice()[link as usize]),
        }
    }

    /// What is known of the least event after a strand took a record, by the link at the input, which is this.
    #[inline(always)]
    pub(crate) fn ahead_of_take_on(&self, strand: u32, its: Link) -> Ahead
        ensures { (d : DeskState) (pool : PoolState) (stream : ℕ) (i : ℕ) (link : ℕ) (asked : Asked) → HasGoneQuietly self.now.net d pool strand stream (Seen.Took i) asked self.now.desk self.now.pool →
            Telling.in_door self.now.desk strand i ≡ Some link → slice_get self.now.net.links link ≡ Some its → commits asked ≡ false → ((o : ℕ) → IsWriteOn o asked → ⊥) → IsAheadOn self.now.desk result }
    {
        if its.queue || its.from >= strand {
            return Ahead::Search;
        }
        Ahead::Put(its.from, its.output, false)
    }

    // After a strand offered a record its consumer may see it: that is next where the consumer stands before the strand that writes, or right
    // behind it, and the strand that writes has to wait.
    #[inline(always)]
    fn ahead_of_offer(&self, strand: u32, o: u16) -> Ahead
        requires used { IsInUse self.now.net self.now.desk }
        requires strand { strand < length self.now.net.strands }
        ensures { (d : DeskState) (pool : PoolState) (stream : ℕ) (seen : SeenIs) (asked : Asked) → HasGoneQuietly self.now.net d pool strand stream seen asked self.now.desk self.now.pool →
            HasSeenOrPut self.now.net d strand seen → IsWriteOn o asked → IsAheadOn self.now.desk result }
    {
        match self.desk.out_door(strand, o) {
            None => Ahead::Search,
            Some(link) => {
                self.ahead_of_offer_on(strand, link, self.net.links.as_slice()[link as usize])
            }
        }
    }

    /// What is known of the least event after a strand offered a record, by the link at the output, by its number and what it is.
    #[inline(always)]
    pub(crate) fn ahead_of_offer_on(&self, strand: u32, link: u32, its: Link) -> Ahead
        requires seats { length self.now.desk.seats ≡ length self.now.net.strands }
        requires wires { length self.now.desk.wires ≡ length self.now.net.links }
        requires strand { strand < length self.now.net.strands }
        requires its { slice_get self.now.net.links link ≡ Some its }
        ensures { (d : DeskState) (pool : PoolState) (stream : ℕ) (seen : SeenIs) (o : ℕ) (asked : Asked) → HasGoneQuietly self.now.net d pool strand stream seen asked self.now.desk self.now.pool →
            HasSeenOrPut self.now.net d strand seen → IsWriteOn o asked → Telling.out_door self.now.desk strand o ≡ Some link → IsAheadOn self.now.desk result }
    {
        let is_near = (its.to as u64) < strand as u64 + 2;
        if is_near && self.desk.waits(link) && self.desk.reads(its.to, its.input) {
            Ahead::Saw(its.to, its.input)
        } else {
            Ahead::Search
        }
    }

    /// Puts a strand among those that may be ready.
    pub(crate) fn wake(&mut self, strand: u32)
        requires { strand < length self.old.net.strands }
        ensures net { self.new.net ≡ self.old.net }
        ensures desk { self.new.desk ≡ self.old.desk }
        ensures pool { self.new.pool ≡ self.old.pool }
        ensures here { is_member self.new.ready strand ≡ true }
        ensures others { (t : ℕ) → is_member self.old.ready t ≡ true → is_member self.new.ready t ≡ true }
    {
        self.ready.insert(strand);
    }

    /// The least strand that may go on, its least stream, and what it would be told there. Whoever is found not to be
    /// ready is taken out of the set.
    #[inline(always)]
    pub(crate) fn least_event(&mut self) -> Option<(u32, u16, Seen)>
        requires seats { length self.old.desk.seats ≡ length self.old.net.strands }
        ensures net { self.new.net ≡ self.old.net }
        ensures desk { self.new.desk ≡ self.old.desk }
        ensures pool { self.new.pool ≡ self.old.pool }
        ensures least { LeastEventAwake self.old.desk result }
    {
        let size = self.ready.size();
        let mut from = 0;
        while from < size {
            let Some(strand) = self.ready.least() else {
                return None;
            };
            if let Some((stream, seen)) = self.desk.ready_event(strand) {
                return Some((strand, stream, seen));
            }
            self.ready.remove(strand);
            from = strand + 1;
        }
        None
    }

    /// The net.
    pub(crate) fn net(&self) -> &Net
        ensures { result.now ≡ self.now.net }
    {
        &self.net
    }

    /// What a strand would be told on a stream, where it may go on there.
    pub(crate) fn seen_at(&self, strand: u32, stream: u16) -> Option<Seen>
        ensures { result ≡ Telling.seen_at self.now.desk strand stream }
    {
        self.desk.seen_at(strand, stream)
    }

    /// The least stream on which a strand may go on.
    pub(crate) fn ready_stream(&self, strand: u32) -> Option<u16>
        ensures { Telling.IsFirst self.now.desk strand result }
    {
        self.desk.ready_stream(strand)
    }

    /// Whether a strand asks for nothing: it is out, or has ended.
    pub(crate) fn asks_nothing(&self, strand: u32) -> bool
        ensures { result ≡ Telling.asks_nothing (Telling.ask_at self.now.desk strand) }
    {
        self.desk.asks_nothing(strand)
    }

    /// Whether a strand has ended.
    pub(crate) fn has_ended(&self, strand: u32) -> bool
        ensures { result ≡ Telling.ended_at self.now.desk strand }
    {
        self.desk.has_ended(strand)
    }

    /// The code with which a strand ended, and none before.
    pub(crate) fn end_of(&self, strand: u32) -> Option<i32>
        requires { strand < length self.now.desk.unit }
        ensures { (m : Member) → slice_get self.now.desk.unit strand ≡ Some m → result ≡ m.ended }
    {
        self.desk.end_of(strand)
    }

    /// The number of bytes of the record at hand on a strand's input, and 0 where none is.
    pub(crate) fn size_at_hand(&self, strand: u32, i: u16) -> usize
        requires { IsHeldIn self.now.pool (hand_on (Telling.wire_in self.now.desk strand i)) }
        ensures { result ≡ length (option_map_or (bytes_at self.now.pool) (hand_on (Telling.wire_in self.now.desk strand i)) []) }
    {
        self.desk.size_at_hand(&self.pool, strand, i)
    }

    /// The bytes that go with what a strand was told last, where it looks.
    pub(crate) fn bytes_told(&self, looks: bool, strand: u32, seen: Seen) -> &[u8]
        requires strand { looks ≡ true → strand < length self.now.desk.seats }
        requires held { (i : ℕ) → IsHeldIn self.now.pool (Telling.sight_through self.now.desk.sights (Telling.sight_door self.now.desk strand i)) }
        ensures { result.now ≡ bytes_told looks self.now.desk self.now.pool strand seen }
    {
        match seen {
            Seen::Saw(i) if looks => self.desk.seen_bytes(&self.pool, strand, i),
            _ => &[],
        }
    }

    /// Gives up the floor. All that the desk holds of the pool is given back first: a pool is closed only where no block
    /// is in use any more.
    pub(crate) fn close(self)
        requires { IsPooled self.desk.wires self.desk.sights self.pool }
    {
        let Floor {
            net: _,
            desk,
            mut pool,
            ready: _,
        } = self;
        desk.drain(&mut pool);
        pool.close();
    }
}

// Takes out a strand that came home to write through a door and can't go on yet.
fn rest(ready: &mut Ready, desk: &Desk, strand: u32, door: Option<u32>)
    requires strand { strand < ready.old.size }
    requires there { Telling.LeadsBelow (length desk.now.wires) door }
    requires writes { (k : ℕ) → is_some (Telling.seen_at desk.now strand k) ≡ true → (Telling.can_put (Telling.through desk.now.wires door) || Telling.can_refuse (Telling.through desk.now.wires door)) ≡ true }
    ensures size { ready.new.size ≡ ready.old.size }
    ensures covers { IsCovering desk.now ready.old → IsCovering desk.now ready.new }
{
    if !desk.may_write(door) {
        ready.remove(strand);
    }
}
