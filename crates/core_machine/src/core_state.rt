ghost use Rattle.std.specs.Prelude.{◌≡◌, ◌≤◌, ◌∷◌, [], true, length, vec_capacity};
ghost use Rattle.core_machine.specs.Machine.{without};

use crate::actor::{Actor, looks, send_out, stay_out, take_back};
use crate::floor::Floor;
use crate::job::{Finished, Job, Turned};
use pipe_model::{Entry, NoMemory, Seen, Want};
use stage_steps::Stage;
use std::marker::Model;
use step_journal::StepJournal;

/// A net, its coroutines, and how far they are: it makes one event after another, and keeps each as an entry of its
/// journal.
pub struct Core<S: Stage> {
    pub(crate) floor: Floor,
    pub(crate) budget: u64,
    pub(crate) actors: Vec<Actor<S>>,
    // the places of the jobs that are out
    pub(crate) out: Vec<u64>,
    pub(crate) journal: StepJournal,
    pub(crate) is_broken: bool,
}

impl<S: Stage> Model for Core<S> {
    ghost use Rattle.std.specs.Prelude.{◌≤◌, length, vec_capacity};
    ghost use Rattle.core_machine.specs.Machine.{Machine};
    ghost use Rattle.core_machine.specs.Sound.{IsSound};

    ghost Value = { Machine };

    ghost view = { λ c. record { net = c.floor.net; budget = c.budget; journal = c.journal.items; out = c.out.items; is_broken = c.is_broken } };

    ghost invariant = { λ c. IsSound S.stands c.floor.net c.budget c.journal.items c.out.items c.actors.items c.floor.desk c.floor.pool × (c.budget ≤ c.journal.room) × (length c.floor.net.strands ≤ vec_capacity c.out) };
}

impl<S: Stage> Core<S> {
    ghost use Rattle.std.specs.Prelude.{◌≡◌, ◌<◌, ◌≤◌, ◌∷◌, Some, true, false, length, IfOk, OnOk, OnErr, is_some, take, vec_capacity, ℕ, List};
    ghost use Rattle.pipe_model.specs.Event.{Event, has_ended};
    ghost use Rattle.pipe_model.specs.State.{past};
    ghost use Rattle.stage_steps.specs.Coroutine.{told, bytes_with};
    ghost use Rattle.stage_steps.specs.PassesOn.{PassesOn};
    ghost use Rattle.core_machine.specs.Machine.{licence_of, state_of, looks_at, turned, came_home, broke_down, is_among, IsLawful};
    ghost use Rattle.core_machine.specs.Jobs.{JobStands, HasGoneOn, DoneStands};
    ghost use Rattle.core_machine.specs.Answered.{IsRefusal, TurnedAs, LeastTurnedAs};

    /// Whether a strand may have an event on a stream.
    pub fn is_ready(&self, strand: u32, stream: u16) -> bool
        ensures { result ≡ is_some (licence_of self.now strand stream) }
    {
        self.floor.seen_at(strand, stream).is_some()
    }

    /// Makes a strand's event on a stream: its entry is appended to the journal, and the strand is out until its job
    /// comes home by `finish`. `room` then holds the record where the strand looks and saw one, and is empty otherwise;
    /// it never gets smaller. On another answer nothing changes. It takes no memory.
    pub fn turn(&mut self, strand: u32, stream: u16, room: &mut Vec<u8>) -> Turned<S>
        ensures turned { TurnedAs S.stands self.old strand stream (vec_capacity room.old) result self.new room.new.items }
        ensures room { IsRefusal result → (room.new.items ≡ room.old.items) × (vec_capacity room.new ≡ vec_capacity room.old) }
        ensures capacity { vec_capacity room.old ≤ vec_capacity room.new }
        ensures lawful { IsLawful self.new }
    {
        if self.is_broken {
            return Turned::Broken;
        }
        match self.floor.seen_at(strand, stream) {
            None => Turned::NotReady,
            Some(seen) => self.turn_seen(strand, stream, seen, room),
        }
    }

    /// Makes the least event that may be, of the least strand on its least stream, as `turn` does. `NotReady` says that
    /// no strand may have one.
    pub fn turn_least(&mut self, room: &mut Vec<u8>) -> Turned<S>
        ensures turned { LeastTurnedAs S.stands self.old (vec_capacity room.old) result self.new room.new.items }
        ensures room { IsRefusal result → (room.new.items ≡ room.old.items) × (vec_capacity room.new ≡ vec_capacity room.old) }
        ensures capacity { vec_capacity room.old ≤ vec_capacity room.new }
        ensures lawful { IsLawful self.new }
    {
        if self.is_broken {
            return Turned::Broken;
        }
        match self.least_event() {
            None => Turned::NotReady,
            Some((strand, stream, seen)) => self.turn_seen(strand, stream, seen, room),
        }
    }

    // Makes an event that may be, where budget and room allow it. The events of records have a way each.
    #[inline(always)]
    fn turn_seen(&mut self, strand: u32, stream: u16, seen: Seen, room: &mut Vec<u8>) -> Turned<S>
        requires may { (e : Event) × (licence_of self.old strand stream ≡ Some e) × (told e ≡ seen) }
        requires whole { self.old.is_broken ≡ false }
        ensures turned { TurnedAs S.stands self.old strand stream (vec_capacity room.old) result self.new room.new.items }
        ensures room { IsRefusal result → (room.new.items ≡ room.old.items) × (vec_capacity room.new ≡ vec_capacity room.old) }
        ensures capacity { vec_capacity room.old ≤ vec_capacity room.new }
        ensures lawful { IsLawful self.new }
    {
        match seen {
            Seen::Saw(i) => self.turn_on(strand, stream, Seen::Saw(i), room),
            Seen::Took(i) => self.turn_on(strand, stream, Seen::Took(i), room),
            Seen::Put(o) => self.turn_on(strand, stream, Seen::Put(o), room),
            seen => self.turn_otherwise(strand, stream, seen, room),
        }
    }

    // Makes an event of another kind that may be, where budget and room allow it.
    #[cold]
    #[inline(never)]
    fn turn_otherwise(
        &mut self,
        strand: u32,
        stream: u16,
        seen: Seen,
        room: &mut Vec<u8>,
    ) -> Turned<S>
        requires may { (e : Event) × (licence_of self.old strand stream ≡ Some e) × (told e ≡ seen) }
        requires whole { self.old.is_broken ≡ false }
        ensures turned { TurnedAs S.stands self.old strand stream (vec_capacity room.old) result self.new room.new.items }
        ensures room { IsRefusal result → (room.new.items ≡ room.old.items) × (vec_capacity room.new ≡ vec_capacity room.old) }
        ensures capacity { vec_capacity room.old ≤ vec_capacity room.new }
        ensures lawful { IsLawful self.new }
    {
        self.turn_on(strand, stream, seen, room)
    }

    // Makes an event of any kind that may be, where budget and room allow it.
    #[inline(always)]
    fn turn_on(&mut self, strand: u32, stream: u16, seen: Seen, room: &mut Vec<u8>) -> Turned<S>
        requires may { (e : Event) × (licence_of self.old strand stream ≡ Some e) × (told e ≡ seen) }
        requires whole { self.old.is_broken ≡ false }
        ensures turned { TurnedAs S.stands self.old strand stream (vec_capacity room.old) result self.new room.new.items }
        ensures room { IsRefusal result → (room.new.items ≡ room.old.items) × (vec_capacity room.new ≡ vec_capacity room.old) }
        ensures capacity { vec_capacity room.old ≤ vec_capacity room.new }
        ensures lawful { IsLawful self.new }
    {
        if self.journal.len() >= self.budget {
            return Turned::Spent;
        }
        let looks = self.looks(strand);
        let size = self.size_of_look(looks, strand, seen);
        if size > room.capacity() {
            return Turned::Room(size);
        }
        let job = self.go_out(strand, stream, seen);
        fill(room, self.bytes_seen(looks, strand, seen));
        Turned::Work(job)
    }

    /// Takes back a job that is out, after it was run, with what its strand wants now. After want of memory, in the
    /// job or here, the core is broken: the strand stays out, and no turn is made any more. It copies no record. It
    /// looks along the places of the jobs that are out, and wakes all strands when a commit level is full; apart from
    /// that its cost doesn't grow.
    pub fn finish(&mut self, done: Finished<S>) -> Result<(), NoMemory>
        requires among { is_among done.place self.old.out ≡ true }
        requires stands { DoneStands S.stands self.old.net (take done.place self.old.journal) done }
        ensures whole { OnOk result (self.old.is_broken ≡ false) }
        ensures home { OnOk result (self.new ≡ came_home self.old done.place) }
        ensures broken { OnErr result (self.new ≡ broke_down self.old) }
        ensures lawful { IsLawful self.new }
    {
        if self.is_broken {
            return Err(NoMemory);
        }
        let Finished {
            strand,
            place,
            seen: _,
            stage,
            want,
            passes,
        } = done;
        let Ok(want) = want else {
            self.is_broken = true;
            return Err(NoMemory);
        };
        let Ok(()) = self.come_home(strand, place, stage, want, passes) else {
            self.is_broken = true;
            return Err(NoMemory);
        };
        Ok(())
    }

    // Makes an event that may be: the strand is out with the job that is answered.
    #[inline(always)]
    fn go_out(&mut self, strand: u32, stream: u16, seen: Seen) -> Job<S>
        requires may { (e : Event) × (licence_of self.old strand stream ≡ Some e) × (told e ≡ seen) }
        requires space { length self.old.journal < self.old.budget }
        ensures after { self.new ≡ turned self.old (record { strand = strand; stream = stream }) }
        ensures strand { result.strand ≡ strand }
        ensures seen { result.seen ≡ seen }
        ensures job { JobStands S.stands self.new.net self.new.journal result }
    {
        let stage = send_out(&mut self.actors, strand as usize, seen);
        self.floor.make(strand, seen);
        self.journal.push_reserved(Entry { strand, stream });
        let place = self.journal.len();
        self.out.push_reserved(place);
        Job {
            strand,
            place,
            seen,
            stage,
        }
    }

    // The end of `finish`, where there was memory so far. Out of memory leaves all as it was.
    #[inline(always)]
    fn come_home(
        &mut self,
        strand: u32,
        place: u64,
        stage: S,
        want: Want,
        passes: bool,
    ) -> Result<(), NoMemory>
        requires among { is_among place self.old.out ≡ true }
        requires stands { HasGoneOn S.stands self.old.net (take place self.old.journal) strand place stage want }
        requires passes { passes ≡ true → PassesOn S.stands stage }
        ensures home { OnOk result (self.new ≡ came_home self.old place) }
        ensures err { OnErr result (self.new ≡ self.old) }
    {
        let has_ended = self.floor.has_ended(strand);
        self.floor.wake(strand);
        let actor = &mut self.actors[strand as usize];
        take_back(actor, stage, want, passes);
        let Ok(()) = self.floor.come_home(strand, has_ended, &mut actor.asked) else {
            stay_out(actor);
            return Err(NoMemory);
        };
        remove(&mut self.out, place);
        Ok(())
    }

    // The number of bytes of the record that the strand would see, where it looks.
    #[inline(always)]
    fn size_of_look(&self, looks: bool, strand: u32, seen: Seen) -> usize
        requires { looks ≡ looks_at self.now.net strand }
        ensures { (k : ℕ) (e : Event) → licence_of self.now strand k ≡ Some e → told e ≡ seen → result ≡ length (bytes_with (looks_at self.now.net strand) e) }
    {
        match seen {
            Seen::Saw(i) if looks => self.floor.size_at_hand(strand, i),
            _ => 0,
        }
    }

    // The bytes that go with the last event of a strand that is out.
    #[inline(always)]
    fn bytes_seen(&self, looks: bool, strand: u32, seen: Seen) -> &[u8]
        requires { looks ≡ looks_at self.now.net strand }
        ensures { (e : Event) (h : List Event) → past (state_of self.now) strand ≡ e ∷ h → has_ended h ≡ false → told e ≡ seen → result.now ≡ bytes_with (looks_at self.now.net strand) e }
    {
        self.floor.bytes_told(looks, strand, seen)
    }

    #[inline(always)]
    fn looks(&self, strand: u32) -> bool
        ensures { result ≡ looks_at self.now.net strand }
    {
        looks(&self.actors, strand)
    }
}

// Puts the bytes in place of what the room holds, which can hold them.
#[inline(always)]
fn fill(room: &mut Vec<u8>, bytes: &[u8])
    requires { length bytes.now ≤ vec_capacity room.old }
    ensures items { room.new.items ≡ bytes.now }
    ensures capacity { vec_capacity room.old ≤ vec_capacity room.new }
{
    room.clear();
    room.extend_from_slice(bytes).unwrap();
}

// Takes a place out of the list, where it is mostly the only one.
#[inline(always)]
fn remove(out: &mut Vec<u64>, place: u64)
    ensures items { out.new.items ≡ without place out.old.items }
    ensures capacity { vec_capacity out.new ≡ vec_capacity out.old }
{
    if is_only(out, place) {
        out.clear();
    } else {
        remove_among(out, place);
    }
}

// Whether the list has this place and no other.
#[inline(always)]
fn is_only(out: &[u64], place: u64) -> bool
    ensures { result ≡ true → out.now ≡ place ∷ [] }
{
    match out {
        [only] => *only == place,
        _ => false,
    }
}

// Takes a place out of the list, where others may be there.
#[inline(never)]
fn remove_among(out: &mut Vec<u64>, place: u64)
    ensures items { out.new.items ≡ without place out.old.items }
    ensures capacity { vec_capacity out.new ≡ vec_capacity out.old }
{
    out.retain(|q| *q != place);
}

impl<S: Stage> Drop for Core<S> {
    /// Gives up the core, with all that it holds.
    fn drop(self) {
        let Core {
            floor,
            budget: _,
            actors: _,
            out: _,
            journal: _,
            is_broken: _,
        } = self;
        floor.close();
    }
}
