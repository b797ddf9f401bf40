//! What a wire, a level or an ask tells of the event that may come.
ghost use Rattle.std.specs.Prelude.{◌≡◌, length};
ghost use Rattle.run_desk.specs.Telling as Telling;

use crate::seat::Ask;
use connectors::Wire;
use pipe_model::Seen;

pub(crate) fn shows(wires: &[Wire], door: Option<u32>) -> bool
    requires { Telling.LeadsBelow (length wires.now) door }
    ensures { result ≡ Telling.shows (Telling.through wires.now door) }
{
    match door {
        None => false,
        Some(j) => wires[j as usize].at_hand().is_some(),
    }
}

pub(crate) fn is_over(wires: &[Wire], door: Option<u32>) -> bool
    ensures { result ≡ Telling.is_over (Telling.through wires.now door) }
{
    match door {
        None => true,
        Some(j) => match wires.get(j as usize) {
            None => true,
            Some(wire) => wire.out_closed() && wire.puts() == wire.tooks(),
        },
    }
}

pub(crate) fn can_put(wires: &[Wire], door: Option<u32>) -> bool
    requires { Telling.LeadsBelow (length wires.now) door }
    ensures { result ≡ Telling.can_put (Telling.through wires.now door) }
{
    match door {
        None => false,
        Some(j) => {
            let wire = &wires[j as usize];
            wire.is_queue() || wire.puts() < wire.tooks()
        }
    }
}

pub(crate) fn can_refuse(wires: &[Wire], door: Option<u32>) -> bool
    requires { Telling.LeadsBelow (length wires.now) door }
    ensures { result ≡ Telling.can_refuse (Telling.through wires.now door) }
{
    match door {
        None => false,
        Some(j) => {
            let wire = &wires[j as usize];
            !wire.is_queue() && wire.in_closed() && wire.puts() == wire.tooks()
        }
    }
}

pub(crate) fn up_seen(level: i32, code: Option<i32>) -> Option<Seen>
    ensures { result ≡ Telling.up_seen level code }
{
    Some(Seen::Up(level, code?))
}

pub(crate) fn primed_seen(primed: Option<bool>) -> Option<Seen>
    ensures { result ≡ Telling.primed_seen primed }
{
    Some(Seen::Primed(primed?))
}

// What is told, with its stream.
pub(crate) fn on_stream(stream: u16, seen: Option<Seen>) -> Option<(u16, Seen)>
    ensures { result ≡ Telling.on_stream stream seen }
{
    Some((stream, seen?))
}

pub(crate) fn stream_of(ask: Ask) -> u16
    ensures { result ≡ Telling.stream_of ask }
{
    match ask {
        Ask::Read(i) | Ask::Take(i) | Ask::Write(i) | Ask::Cut(i) => i,
        _ => 0,
    }
}
