ghost use Rattle.std.specs.Prelude.{◌≡◌, ◌<◌, Some, length};
ghost use Rattle.run_desk.specs.Turns.{seat_after, list_changed_behind, asking};

use pipe_model::Seen;

/// What a strand asks for, without the record that it writes.
#[derive(Clone, Copy)]
pub enum Ask {
    /// It is out, or has ended.
    Nothing,
    /// To reach a commit level.
    Commit(i32),
    /// To look at the record at hand on an input.
    Read(u16),
    /// To look at any input.
    Any,
    /// GATE's look.
    Gate,
    /// To consume the record seen on an input.
    Take(u16),
    /// To write a record on an output.
    Write(u16),
    /// DAM's wait for its first strand.
    Primed,
    /// To issue a pipeline command.
    Issue,
    /// To wait for an issued unit.
    Join(u32),
    /// To sever a stream.
    Cut(u16),
    /// To end with a return code.
    Done(i32),
}

/// What is kept of a strand.
#[derive(Clone, Copy)]
pub struct Seat {
    pub ask: Ask,
    pub has_ended: bool,
    /// Whether it has seen a record.
    pub has_seen: bool,
}

pub(crate) fn ask_seat(seats: &mut Vec<Seat>, strand: u32, ask: Ask)
    requires { strand < length seats.old.items }
    ensures { seats.new.items ≡ list_changed_behind seats.old.items (asking ask) (Some strand) }
{
    seats[strand as usize].ask = ask;
}

pub(crate) fn change_seat(seats: &mut Vec<Seat>, strand: u32, seen: Seen)
    requires { strand < length seats.old.items }
    ensures { seats.new.items ≡ list_changed_behind seats.old.items (seat_after seen) (Some strand) }
{
    seats[strand as usize].note(seen);
}

// Both, one after the other.
#[inline(always)]
pub(crate) fn change_and_ask(seats: &mut Vec<Seat>, strand: u32, seen: Seen, ask: Ask)
    requires { strand < length seats.old.items }
    ensures { seats.new.items ≡ list_changed_behind (list_changed_behind seats.old.items (seat_after seen) (Some strand)) (asking ask) (Some strand) }
{
    let seat = &mut seats[strand as usize];
    seat.note(seen);
    seat.ask = ask;
}

impl Seat {
    ghost use Rattle.std.specs.Prelude.{◌≡◌};
    ghost use Rattle.run_desk.specs.Turns.{seat_after};

    // The strand is told this, and asks for nothing.
    fn note(&mut self, seen: Seen)
        ensures { self.new ≡ seat_after seen self.old }
    {
        self.ask = Ask::Nothing;
        match seen {
            Seen::Saw(_) => self.has_seen = true,
            Seen::Ended(_) => self.has_ended = true,
            _ => {}
        }
    }
}
