//! What a desk tells of the event that a strand may have.
ghost use Rattle.std.specs.Prelude.{◌≡◌, ◌<◌, ◌&&◌, ◌||◌, ◌==◌, length, slice_get, true, is_some};
ghost use Rattle.run_desk.specs.Telling as Telling;

use crate::desk::Desk;
use crate::looks::{
    can_put, can_refuse, is_over, on_stream, primed_seen, shows, stream_of, up_seen,
};
use crate::seat::Ask;
use pipe_model::Seen;

impl Desk {
    /// What a strand would be told on a stream, and None where it may not go on there. The cost is constant, but for a
    /// look at all inputs of a strand that asks for any.
    pub fn seen_at(&self, strand: u32, stream: u16) -> Option<Seen>
        ensures { result ≡ Telling.seen_at self.now strand stream }
    {
        if strand as usize >= self.seats.len() {
            return None;
        }
        self.seen_by(strand, stream, self.ask_of(strand))
    }

    /// The least stream on which a strand may go on.
    pub fn ready_stream(&self, strand: u32) -> Option<u16>
        ensures { Telling.IsFirst self.now strand result }
    {
        if strand as usize >= self.seats.len() {
            return None;
        }
        let (stream, _) = self.ready_event(strand)?;
        Some(stream)
    }

    /// The least stream on which a strand may go on, with what it would be told there.
    #[inline(always)]
    pub fn ready_event(&self, strand: u32) -> Option<(u16, Seen)>
        requires { strand < length self.now.seats }
        ensures { Telling.IsFirstEvent self.now strand result }
    {
        match self.ask_of(strand) {
            Ask::Read(i) => on_stream(i, self.read_seen(strand, i)),
            Ask::Take(i) => Some((i, Seen::Took(i))),
            Ask::Write(o) => on_stream(o, self.write_seen(strand, o)),
            Ask::Any | Ask::Gate => self.wide_event(strand),
            ask => on_stream(stream_of(ask), self.seen_by(strand, stream_of(ask), ask)),
        }
    }

    // The same for a strand that may go on on several: on the first of its inputs it may be told more than that a record is
    // at hand.
    #[tactic(auto, using(crate::proofs::Streams::wide_first))]
    #[inline(never)]
    fn wide_event(&self, strand: u32) -> Option<(u16, Seen)>
        requires wide { Telling.is_wide (Telling.ask_at self.now strand) ≡ true }
        requires strand { strand < length self.now.seats }
        ensures { Telling.IsFirstEvent self.now strand result }
    {
        if let Some(seen) = self.seen_at(strand, 0) {
            return Some((0, seen));
        }
        let k = self.first_shown(strand)?;
        Some((k, Seen::Saw(k)))
    }

    // The least input behind the first at which a record is at hand.
    #[inline(always)]
    fn first_shown(&self, strand: u32) -> Option<u16>
        requires { strand < length self.now.seats }
        ensures { Telling.IsFirstShown self.now.wires (Telling.inputs_of (slice_get self.now.doors strand)) result }
    {
        self.doors[strand as usize].first_shown(&self.wires)
    }

    fn seen_by(&self, strand: u32, stream: u16, ask: Ask) -> Option<Seen>
        requires { strand < length self.now.seats }
        ensures { result ≡ Telling.seen_by self.now strand stream ask }
    {
        match ask {
            Ask::Nothing | Ask::Issue | Ask::Join(_) => None,
            Ask::Commit(level) if stream == 0 => up_seen(level, self.level_code(level)),
            Ask::Read(i) if stream == i => self.read_seen(strand, i),
            Ask::Any => self.any_seen(strand, stream),
            Ask::Gate => self.gate_seen(strand, stream),
            Ask::Take(i) if stream == i => Some(Seen::Took(i)),
            Ask::Write(o) if stream == o => self.write_seen(strand, o),
            Ask::Primed if stream == 0 => primed_seen(self.primed(strand)),
            Ask::Cut(i) if stream == i => Some(Seen::Cut(i)),
            Ask::Done(code) if stream == 0 => Some(Seen::Ended(code)),
            _ => None,
        }
    }

    fn read_seen(&self, strand: u32, i: u16) -> Option<Seen>
        requires { strand < length self.now.seats }
        ensures { result ≡ Telling.read_seen i (Telling.shows (Telling.wire_in self.now strand i)) (Telling.is_over (Telling.wire_in self.now strand i)) }
    {
        let door = self.in_door(strand, i);
        if self.shows(door) {
            Some(Seen::Saw(i))
        } else if self.is_over(door) {
            Some(Seen::SawEnd(i))
        } else {
            None
        }
    }

    fn any_seen(&self, strand: u32, i: u16) -> Option<Seen>
        requires { strand < length self.now.seats }
        ensures { result ≡ Telling.any_seen i (Telling.shows (Telling.wire_in self.now strand i)) ((i == 0) && Telling.all_over self.now strand) }
    {
        if self.shows(self.in_door(strand, i)) {
            Some(Seen::Saw(i))
        } else if i == 0 && self.all_over(strand) {
            Some(Seen::SawAllEnd)
        } else {
            None
        }
    }

    fn gate_seen(&self, strand: u32, i: u16) -> Option<Seen>
        requires { strand < length self.now.seats }
        ensures { result ≡ Telling.read_seen i (Telling.shows (Telling.wire_in self.now strand i)) ((i == 0) && Telling.is_over (Telling.wire_in self.now strand i)) }
    {
        let door = self.in_door(strand, i);
        if self.shows(door) {
            Some(Seen::Saw(i))
        } else if i == 0 && self.is_over(door) {
            Some(Seen::SawEnd(i))
        } else {
            None
        }
    }

    fn write_seen(&self, strand: u32, o: u16) -> Option<Seen>
        requires { strand < length self.now.seats }
        ensures { result ≡ Telling.write_seen o (Telling.can_put (Telling.wire_out self.now strand o)) (Telling.can_refuse (Telling.wire_out self.now strand o)) }
    {
        let door = self.out_door(strand, o);
        if self.can_put(door) {
            Some(Seen::Put(o))
        } else if self.can_refuse(door) {
            Some(Seen::Refused(o))
        } else {
            None
        }
    }

    /// Whether what is offered behind a door may be put, or refused.
    pub fn may_write(&self, door: Option<u32>) -> bool
        requires { Telling.LeadsBelow (length self.now.wires) door }
        ensures { result ≡ (Telling.can_put (Telling.through self.now.wires door) || Telling.can_refuse (Telling.through self.now.wires door)) }
    {
        self.can_put(door) || self.can_refuse(door)
    }

    /// Whether a record is at hand behind a door.
    pub fn shows(&self, door: Option<u32>) -> bool
        requires { Telling.LeadsBelow (length self.now.wires) door }
        ensures { result ≡ Telling.shows (Telling.through self.now.wires door) }
    {
        shows(&self.wires, door)
    }

    fn is_over(&self, door: Option<u32>) -> bool
        ensures { result ≡ Telling.is_over (Telling.through self.now.wires door) }
    {
        is_over(&self.wires, door)
    }

    fn can_put(&self, door: Option<u32>) -> bool
        requires { Telling.LeadsBelow (length self.now.wires) door }
        ensures { result ≡ Telling.can_put (Telling.through self.now.wires door) }
    {
        can_put(&self.wires, door)
    }

    fn can_refuse(&self, door: Option<u32>) -> bool
        requires { Telling.LeadsBelow (length self.now.wires) door }
        ensures { result ≡ Telling.can_refuse (Telling.through self.now.wires door) }
    {
        can_refuse(&self.wires, door)
    }

    fn all_over(&self, strand: u32) -> bool
        ensures { result ≡ Telling.all_over self.now strand }
    {
        match self.doors.get(strand as usize) {
            None => true,
            Some(doors) => doors.all_over(&self.wires),
        }
    }

    // Whether the first strand of the strand's stage has seen a record, once that is settled.
    fn primed(&self, strand: u32) -> Option<bool>
        ensures { result ≡ Telling.primed_at self.now strand }
    {
        let seat = self.seats.get(self.first_of(strand) as usize)?;
        if seat.has_seen {
            Some(true)
        } else if seat.has_ended {
            Some(false)
        } else {
            None
        }
    }

    /// The answer of a commit level, once all strands stand there: a return code, the worst of the strands that ended
    /// before they reached it, and 0 where none ended with another. None where the number is no level, which is -1 to
    /// 1,000.
    pub fn level_code(&self, level: i32) -> Option<i32>
        ensures { result ≡ Telling.level_code self.now level }
    {
        if -1 <= level && level <= 1_000 {
            self.unit.answer(level)
        } else {
            None
        }
    }

    /// Whether a strand has seen a record, or ended without one. Then it is settled what those are told that wait for it.
    pub fn is_primer(&self, strand: u32) -> bool
        requires { strand < length self.now.seats }
        ensures { result ≡ is_some (Telling.primed_of (slice_get self.now.seats strand)) }
    {
        let seat = self.seat(strand);
        seat.has_seen || seat.has_ended
    }

    /// Whether a strand asks to look at the record at hand on this input.
    #[inline(always)]
    pub fn reads(&self, strand: u32, i: u16) -> bool
        requires { strand < length self.now.seats }
        ensures { result ≡ Telling.reads_on (Telling.ask_at self.now strand) i }
    {
        match self.ask_of(strand) {
            Ask::Read(k) => k == i,
            _ => false,
        }
    }

    fn ask_of(&self, strand: u32) -> Ask
        requires { strand < length self.now.seats }
        ensures { result ≡ Telling.ask_at self.now strand }
    {
        self.seat(strand).ask
    }
}
