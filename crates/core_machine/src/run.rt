ghost use Rattle.std.specs.Prelude.{◌≡◌, ℕ, Some, false};
ghost use Rattle.core_machine.specs.Ahead.{event_ahead};
ghost use Rattle.core_machine.specs.Answered.{is_of_record};
ghost use Rattle.pipe_model.specs.declared.step.Seen.{Seen as Told};

use crate::actor::{advance, ask, give_up, put, see};
use crate::core_state::Core;
use crate::floor::Ahead;
use crate::job::RunEnd;
use crate::settling::ends;
use crate::showing::{Relayed, pair_of, relay};
use outside::{Gate, OpenGate};
use pipe_model::{Entry, NoMemory, Seen, Want};
use stage_steps::{Reply, Stage};
use std::alloc::Global;

// Which of the least events a run makes.
#[derive(Clone, Copy)]
pub(crate) enum Which {
    All,
    /// Those by which a record is seen, taken or put.
    OfRecords,
    /// Those by which a record is taken or put.
    Quiet,
}

impl Which {
    ghost use Rattle.std.specs.Prelude.{◌≡◌, true};
    ghost use Rattle.core_machine.specs.Runs.{is_made, may_end};
    ghost use Rattle.core_machine.specs.Answered.{is_of_record};
    ghost use Rattle.pipe_model.specs.declared.step.Seen.{Seen as Told};

    // Whether an event is made.
    fn makes(self, seen: Seen) -> bool
        ensures makes { result ≡ true → is_made self seen ≡ true }
        ensures ends { result ≡ false → may_end self seen ≡ true }
    {
        matches!(self, Which::All) || is_quiet(seen)
    }

    // Whether it makes each event by which a record is seen, taken or put.
    fn makes_sights(self) -> bool
        ensures { result ≡ true → (seen : Told) → is_of_record true seen ≡ true → is_made self seen ≡ true }
    {
        !matches!(self, Which::Quiet)
    }
}

impl<S: Stage> Core<S> {
    ghost use Rattle.std.specs.Prelude.{◌≡◌, ◌<◌, ◌≤◌, ◌+◌, [], Some, false, true, ◌++◌, ◌∷◌, length, IfOk, OnOk, OnErr};
    ghost use Rattle.pipe_model.specs.Event.{Event};
    ghost use Rattle.pipe_model.specs.declared.step.Seen.TheVariants as Told;
    ghost use Rattle.stage_steps.specs.Coroutine.{told};
    ghost use Rattle.core_machine.specs.Ahead.{IsAhead};
    ghost use Rattle.core_machine.specs.Machine.{licence_of, turned, broke_down, IsLawful};
    ghost use Rattle.core_machine.specs.Answered.{LeastEvent, HasRun, HasRunOnRecords, HasBrokenLeast, HasBrokenOnRecords, HasMade, Ends, IsEndOnRecords};
    ghost use Rattle.core_machine.specs.Runs.{is_made, may_end, HasRunBy, HasBrokenBy, IsEndBy};
    ghost use Rattle.core_machine.specs.declared.showing.Relayed.TheVariants as Next;
    ghost use Rattle.core_machine.specs.declared.run.Which.TheVariants as Makes;

    /// Makes the least event that may be, of the least strand on its least stream, until there is none or the journal
    /// has as many entries as the budget allows. The gate is entered before the work on each record that a strand saw.
    /// After want of memory the core is broken.
    pub fn run_one_thread<G: Gate>(&mut self, alloc: Global, gate: &G) -> Result<RunEnd, NoMemory>
        requires home { self.old.out ≡ [] }
        requires whole { self.old.is_broken ≡ false }
        ensures runs { IfOk result (λ end. HasRun self.old self.new × Ends end self.new) }
        ensures lacks { OnErr result (HasBrokenLeast self.old self.new) }
        ensures lawful { IsLawful self.new }
    {
        self.run(alloc, gate, Which::All, self.budget)?;
        match self.least_event() {
            None => Ok(RunEnd::Complete),
            Some(_) => Ok(RunEnd::Spent),
        }
    }

    /// Makes the least event that may be, again and again, at most so many, as long as by it a record is taken or put, or,
    /// with `sights`, seen, but for sights that may take more than some five microseconds. No gate is entered for these.
    /// Other strands' jobs may be out meanwhile. The answer is how many were made. After want of memory the core is broken,
    /// and the strand of the last entry is out.
    pub fn run_on_records(
        &mut self,
        alloc: Global,
        sights: bool,
        most: u64,
    ) -> Result<u64, NoMemory>
        requires whole { self.old.is_broken ≡ false }
        ensures runs { IfOk result (λ made. HasRunOnRecords sights self.old made self.new × (made ≤ most)) }
        ensures ends { IfOk result (λ made. IsEndOnRecords most made self.new) }
        ensures lacks { OnErr result (HasBrokenOnRecords sights most self.old self.new) }
        ensures lawful { IsLawful self.new }
    {
        let start = self.len();
        let limit = self.budget.min(start.saturating_add(most));
        let which = if sights {
            Which::OfRecords
        } else {
            Which::Quiet
        };
        self.run(alloc, &OpenGate, which, limit)?;
        Ok(self.len() - start)
    }

    // Makes the least event that may be, again and again, as long as it is one of these and the journal has fewer entries than
    // the limit. It is one function for all runs, so that their loop has the steps on records in it.
    #[inline(never)]
    fn run<G: Gate>(
        &mut self,
        alloc: Global,
        gate: &G,
        which: Which,
        limit: u64,
    ) -> Result<(), NoMemory>
        requires whole { self.old.is_broken ≡ false }
        requires limit { limit ≤ self.old.budget }
        requires within { length self.old.journal ≤ limit }
        ensures runs { IfOk result (λ _. HasRunBy (is_made which) self.old self.new) }
        ensures within { IfOk result (λ _. length self.new.journal ≤ limit) }
        ensures ends { IfOk result (λ _. IsEndBy (may_end which) limit self.new) }
        ensures lacks { OnErr result (HasBrokenBy (is_made which) limit self.old self.new) }
        ensures lawful { IsLawful self.new }
    {
        let mut ahead = Ahead::Search;
        // Each step of the loop has room for two events.
        while self.len() + 1 < limit {
            ahead = match ahead {
                Ahead::Search => match self.least_event() {
                    None => return Ok(()),
                    Some((strand, stream, seen)) => match known(strand, stream, seen) {
                        Ahead::Search => {
                            if !which.makes(seen) {
                                return Ok(());
                            }
                            self.go_on_otherwise(alloc, gate, strand, stream, seen)?
                        }
                        found => found,
                    },
                },
                Ahead::Saw(strand, i) => {
                    let is_made = match which {
                        Which::All => true,
                        Which::OfRecords => !self.takes_long(strand, i),
                        Which::Quiet => false,
                    };
                    if !is_made {
                        return Ok(());
                    }
                    self.see(alloc, gate, strand, i)?
                }
                Ahead::Took(strand, i) => self.go_on(alloc, gate, strand, i, Seen::Took(i))?,
                Ahead::Put(strand, o, at_once) => self.put_on(
                    alloc, gate, which, at_once, strand, o, limit,
                )?,
            };
        }
        self.run_last(alloc, gate, which, limit)
    }

    // Makes the least event that may be, where it is one of these and has room: no second one has any.
    #[cold]
    #[inline(never)]
    fn run_last<G: Gate>(
        &mut self,
        alloc: Global,
        gate: &G,
        which: Which,
        limit: u64,
    ) -> Result<(), NoMemory>
        requires whole { self.old.is_broken ≡ false }
        requires limit { limit ≤ self.old.budget }
        requires within { length self.old.journal ≤ limit }
        requires last { limit ≤ length self.old.journal + 1 }
        ensures runs { IfOk result (λ _. HasRunBy (is_made which) self.old self.new) }
        ensures within { IfOk result (λ _. length self.new.journal ≤ limit) }
        ensures ends { IfOk result (λ _. IsEndBy (may_end which) limit self.new) }
        ensures lacks { OnErr result (HasBrokenBy (is_made which) limit self.old self.new) }
        ensures lawful { IsLawful self.new }
    {
        if self.len() >= limit {
            return Ok(());
        }
        let Some((strand, stream, seen)) = self.least_event() else {
            return Ok(());
        };
        if which.makes(seen) {
            self.go_on_otherwise(alloc, gate, strand, stream, seen)?;
        }
        Ok(())
    }

    // Makes an event of another kind, apart from the loop.
    #[cold]
    #[inline(never)]
    fn go_on_otherwise<G: Gate>(
        &mut self,
        alloc: Global,
        gate: &G,
        strand: u32,
        stream: u16,
        seen: Seen,
    ) -> Result<Ahead, NoMemory>
        requires least { LeastEvent self.old (Some (strand, stream, seen)) }
        requires space { length self.old.journal < self.old.budget }
        requires whole { self.old.is_broken ≡ false }
        ensures goes { OnOk result (self.new ≡ record self.old { journal = self.old.journal ++ (record { strand = strand; stream = stream }) ∷ [] }) }
        ensures ahead { IfOk result (IsAhead self.new) }
        ensures lacks { OnErr result (self.new ≡ broke_down (turned self.old (record { strand = strand; stream = stream }))) }
        ensures lawful { IsLawful self.new }
    {
        self.go_on(alloc, gate, strand, stream, seen)
    }

    // Whether the strand's work on the record at hand may take more than some five microseconds.
    fn takes_long(&self, strand: u32, i: u16) -> bool
        requires { LeastEvent self.now (Some (strand, i, Told.Saw i)) }
    {
        self.floor.takes_long(strand, i)
    }

    // The strand sees the record at hand on an input, which is the least event that may be, and its coroutine goes on, in
    // place. Where all that it does is to take the record, it takes it at once. It answers what is known of the next event.
    #[inline(always)]
    fn see<G: Gate>(
        &mut self,
        alloc: Global,
        gate: &G,
        strand: u32,
        i: u16,
    ) -> Result<Ahead, NoMemory>
        requires least { LeastEvent self.old (Some (strand, i, Told.Saw i)) }
        requires space { length self.old.journal + 1 < self.old.budget }
        requires whole { self.old.is_broken ≡ false }
        ensures goes { OnOk result (HasMade self.old (record { strand = strand; stream = i }) self.new) }
        ensures ahead { IfOk result (IsAhead self.new) }
        ensures lacks { OnErr result (self.new ≡ broke_down (turned self.old (record { strand = strand; stream = i }))) }
        ensures lawful { IsLawful self.new }
    {
        if self.floor.may_settle(strand, Seen::Saw(i)) {
            return self.see_otherwise(alloc, gate, strand, i);
        }
        let Some(from) = self.floor.link_in(strand, i) else {
            return self.see_otherwise(alloc, gate, strand, i);
        };
        gate.enter(strand);
        self.journal.push_reserved(Entry { strand, stream: i });
        let actor = &mut self.actors[strand as usize];
        let bytes = self.floor.bytes_ahead(actor.looks, from);
        let Ok(reply) = see(actor, alloc, i, bytes) else {
            self.floor.see_in_vain(strand, i);
            give_up(actor, &mut self.out, self.journal.len());
            self.is_broken = true;
            return Err(NoMemory);
        };
        if matches!(reply, Reply::Takes) {
            self.journal.push_reserved(Entry { strand, stream: 0 });
            return Ok(
                self.floor
                    .take_after(strand, Seen::Saw(0), None, 0, from)
                    .at_once(),
            );
        }
        let Ok(ahead) = self.floor.see(strand, i, from, &mut actor.asked) else {
            give_up(actor, &mut self.out, self.journal.len());
            self.is_broken = true;
            return Err(NoMemory);
        };
        Ok(ahead)
    }

    // The strand sees the record at hand on an input, where that may settle something for many strands.
    #[cold]
    #[inline(never)]
    fn see_otherwise<G: Gate>(
        &mut self,
        alloc: Global,
        gate: &G,
        strand: u32,
        i: u16,
    ) -> Result<Ahead, NoMemory>
        requires least { LeastEvent self.old (Some (strand, i, Told.Saw i)) }
        requires space { length self.old.journal < self.old.budget }
        requires whole { self.old.is_broken ≡ false }
        ensures goes { OnOk result (self.new ≡ record self.old { journal = self.old.journal ++ (record { strand = strand; stream = i }) ∷ [] }) }
        ensures ahead { IfOk result (IsAhead self.new) }
        ensures lacks { OnErr result (self.new ≡ broke_down (turned self.old (record { strand = strand; stream = i }))) }
        ensures lawful { IsLawful self.new }
    {
        self.go_on(alloc, gate, strand, i, Seen::Saw(i))
    }

    // The strand puts a record on an output, which is the least event that may be. Where that is a source, and the next strand, which
    // took the record at once, takes those that follow, both go on as long as they do that. Runs that make no sights don't
    // allow it. That it is tried there is a matter of speed: nothing is proved of it.
    #[inline(always)]
    fn put_on<G: Gate>(
        &mut self,
        alloc: Global,
        gate: &G,
        which: Which,
        at_once: bool,
        strand: u32,
        o: u16,
        limit: u64,
    ) -> Result<Ahead, NoMemory>
        requires least { LeastEvent self.old (Some (strand, o, Told.Put o)) }
        requires space { length self.old.journal + 1 < limit }
        requires limit { limit ≤ self.old.budget }
        requires whole { self.old.is_broken ≡ false }
        ensures goes { OnOk result (HasRunBy (is_made which) self.old self.new) }
        ensures more { OnOk result (length self.old.journal < length self.new.journal) }
        ensures within { OnOk result (length self.new.journal ≤ limit) }
        ensures ahead { IfOk result (IsAhead self.new) }
        ensures lacks { OnErr result (HasBrokenBy (is_made which) limit self.old self.new) }
        ensures lawful { IsLawful self.new }
    {
        if at_once {
            if which.makes_sights() {
                if self.is_first(strand) {
                    match self.relay(alloc, gate, strand, o, limit)? {
                        Relayed::Home => return Ok(Ahead::Search),
                        Relayed::Due => {}
                    }
                    if self.len() + 1 >= limit {
                        return Ok(Ahead::Put(strand, o, false));
                    }
                }
            }
        }
        self.put(alloc, gate, strand, o)
    }

    // Whether no link leads to a strand's input 0. Nothing is proved of the answer.
    #[inline(always)]
    fn is_first(&self, strand: u32) -> bool
        requires { strand < length self.now.net.strands }
    {
        self.floor.link_in(strand, 0).is_none()
    }

    // The strand, to which no link leads, puts a record on an output, which is the least event that may be, and shows the next one
    // to the strand there, which takes it at once: both go on so as long as they do that, and maybe not at all. The answer is what
    // follows.
    #[inline(never)]
    fn relay<G: Gate>(
        &mut self,
        alloc: Global,
        gate: &G,
        strand: u32,
        o: u16,
        limit: u64,
    ) -> Result<Relayed, NoMemory>
        requires least { LeastEvent self.old (Some (strand, o, Told.Put o)) }
        requires space { length self.old.journal < limit }
        requires limit { limit ≤ self.old.budget }
        requires whole { self.old.is_broken ≡ false }
        ensures goes { OnOk result (HasRunBy (is_made Makes.OfRecords) self.old self.new) }
        ensures more { IfOk result (λ next. next ≡ Next.Home → length self.old.journal < length self.new.journal) }
        ensures within { OnOk result (length self.new.journal ≤ limit) }
        ensures due { IfOk result (λ next. next ≡ Next.Due → LeastEvent self.new (Some (strand, o, Told.Put o))) }
        ensures lacks { OnErr result (HasBrokenBy (is_made Makes.OfRecords) limit self.old self.new) }
        ensures lawful { IsLawful self.new }
    {
        let Some(pair) = pair_of(&self.floor, &self.actors, strand, o) else {
            return Ok(Relayed::Due);
        };
        let relayed = relay(
            &mut self.floor,
            &mut self.actors,
            &mut self.journal,
            &mut self.out,
            alloc,
            gate,
            pair,
            limit,
        );
        if relayed.is_err() {
            self.is_broken = true;
        }
        relayed
    }

    // The strand puts a record on an output, which is the least event that may be, and its coroutine goes on, in place. Where
    // it passes its record on, and not into a queue, it takes that at once. It answers what is known of the next event.
    #[inline(always)]
    fn put<G: Gate>(
        &mut self,
        alloc: Global,
        gate: &G,
        strand: u32,
        o: u16,
    ) -> Result<Ahead, NoMemory>
        requires least { LeastEvent self.old (Some (strand, o, Told.Put o)) }
        requires space { length self.old.journal + 1 < self.old.budget }
        requires whole { self.old.is_broken ≡ false }
        ensures goes { OnOk result (HasMade self.old (record { strand = strand; stream = o }) self.new) }
        ensures ahead { IfOk result (IsAhead self.new) }
        ensures lacks { OnErr result (self.new ≡ broke_down (turned self.old (record { strand = strand; stream = o }))) }
        ensures lawful { IsLawful self.new }
    {
        let Some(link) = self.floor.rendezvous_at(strand, o) else {
            return self.put_otherwise(alloc, gate, strand, o);
        };
        self.journal.push_reserved(Entry { strand, stream: o });
        let actor = &mut self.actors[strand as usize];
        if actor.passes {
            if let Some(from) = self.floor.link_in(strand, 0) {
                self.journal.push_reserved(Entry { strand, stream: 0 });
                ask(actor, Want::Read(0));
                return Ok(
                    self.floor
                        .take_after(strand, Seen::Put(o), Some(link), 0, from),
                );
            }
        }
        let Ok(()) = put(actor, alloc, o) else {
            self.floor.put_in_vain(strand, o);
            give_up(actor, &mut self.out, self.journal.len());
            self.is_broken = true;
            return Err(NoMemory);
        };
        let Ok(ahead) = self.floor.put(strand, o, link, &mut actor.asked) else {
            give_up(actor, &mut self.out, self.journal.len());
            self.is_broken = true;
            return Err(NoMemory);
        };
        Ok(ahead)
    }

    // The strand puts a record on an output that leads to no rendezvous, and its coroutine goes on, in place.
    #[inline(never)]
    fn put_otherwise<G: Gate>(
        &mut self,
        alloc: Global,
        gate: &G,
        strand: u32,
        o: u16,
    ) -> Result<Ahead, NoMemory>
        requires least { LeastEvent self.old (Some (strand, o, Told.Put o)) }
        requires space { length self.old.journal < self.old.budget }
        requires whole { self.old.is_broken ≡ false }
        ensures goes { OnOk result (self.new ≡ record self.old { journal = self.old.journal ++ (record { strand = strand; stream = o }) ∷ [] }) }
        ensures ahead { IfOk result (IsAhead self.new) }
        ensures lacks { OnErr result (self.new ≡ broke_down (turned self.old (record { strand = strand; stream = o }))) }
        ensures lawful { IsLawful self.new }
    {
        self.go_on(alloc, gate, strand, o, Seen::Put(o))
    }

    // Makes the least event that may be, and goes on with the strand's coroutine, in place. It answers what is known of the next event.
    #[inline(always)]
    fn go_on<G: Gate>(
        &mut self,
        alloc: Global,
        gate: &G,
        strand: u32,
        stream: u16,
        seen: Seen,
    ) -> Result<Ahead, NoMemory>
        requires least { LeastEvent self.old (Some (strand, stream, seen)) }
        requires space { length self.old.journal < self.old.budget }
        requires whole { self.old.is_broken ≡ false }
        ensures goes { OnOk result (self.new ≡ record self.old { journal = self.old.journal ++ (record { strand = strand; stream = stream }) ∷ [] }) }
        ensures ahead { IfOk result (IsAhead self.new) }
        ensures lacks { OnErr result (self.new ≡ broke_down (turned self.old (record { strand = strand; stream = stream }))) }
        ensures lawful { IsLawful self.new }
    {
        if let Seen::Saw(_) = seen {
            gate.enter(strand);
        }
        let settles = self.floor.may_settle(strand, seen);
        self.floor.make(strand, seen);
        self.journal.push_reserved(Entry { strand, stream });
        let actor = &mut self.actors[strand as usize];
        let bytes = self.floor.bytes_told(actor.looks, strand, seen);
        let Ok(()) = advance(actor, alloc, seen, bytes) else {
            give_up(actor, &mut self.out, self.journal.len());
            self.is_broken = true; // its coroutine isn't resumed again
            return Err(NoMemory);
        };
        let Ok(()) = self.floor.come_home(strand, ends(seen), &mut actor.asked) else {
            give_up(actor, &mut self.out, self.journal.len());
            self.is_broken = true;
            return Err(NoMemory);
        };
        if settles {
            return Ok(Ahead::Search);
        }
        Ok(self.floor.ahead(strand, seen, &actor.asked))
    }

    /// The least strand that may have an event, its least stream, and what it would be told there. It makes no event:
    /// it only forgets those that it found to have none. A strand that is out has none.
    #[inline(always)]
    pub fn least_event(&mut self) -> Option<(u32, u16, Seen)>
        ensures same { self.new ≡ self.old }
        ensures least { LeastEvent self.old result }
        ensures lawful { IsLawful self.new }
    {
        self.floor.least_event()
    }
}

// The event, where it is one of a record, or `Search` where it is another.
#[inline(always)]
fn known(strand: u32, stream: u16, seen: Seen) -> Ahead
    ensures { (r : ℕ × ℕ × Told) → event_ahead result ≡ Some r → r ≡ (strand, stream, seen) }
{
    match seen {
        Seen::Saw(i) if i == stream => Ahead::Saw(strand, i),
        Seen::Took(i) if i == stream => Ahead::Took(strand, i),
        Seen::Put(o) if o == stream => Ahead::Put(strand, o, false),
        _ => Ahead::Search,
    }
}

// Whether what is told is that a record was taken or put.
fn is_quiet(seen: Seen) -> bool
    ensures { result ≡ is_of_record false seen }
{
    matches!(seen, Seen::Took(_) | Seen::Put(_))
}
