//! What a desk tells of records, of the end of a strand, and what is given back at the end of a run.
ghost use Rattle.std.specs.Prelude.{◌≡◌, ◌<◌, [], length, slice_get, Some};
ghost use Rattle.std.specs.Option.{option_map_or};
ghost use Rattle.record_pool.specs.Places.{bytes_at};
ghost use Rattle.record_pool.specs.Blocks.{blocks_in};
ghost use Rattle.connectors.specs.WireState.{IsHeldIn};
ghost use Rattle.commit_levels.specs.UnitState.{Member};
ghost use Rattle.run_desk.specs.Turns.{hand_on};
ghost use Rattle.run_desk.specs.Holding.{IsPooled};
ghost use Rattle.run_desk.specs.Telling as Telling;
ghost use Rattle.run_desk.specs.Telling.{sight_through};

use crate::desk::Desk;
use crate::seat::Ask;
use connectors::Wire;
use record_pool::{Grip, Pool};

impl Desk {
    /// The bytes of the record that a strand saw last on an input, and none where it saw none.
    pub fn seen_bytes<'a>(&self, pool: &'a Pool, strand: u32, i: u16) -> &'a [u8]
        requires strand { strand < length self.now.seats }
        requires held { IsHeldIn pool.now (sight_through self.now.sights (Telling.sight_door self.now strand i)) }
        ensures { result.now ≡ option_map_or (bytes_at pool.now) (sight_through self.now.sights (Telling.sight_door self.now strand i)) [] }
    {
        bytes_seen(&self.sights, pool, self.sight_door(strand, i))
    }

    /// The number of bytes of the record at hand on a strand's input, and 0 where none is.
    pub fn size_at_hand(&self, pool: &Pool, strand: u32, i: u16) -> usize
        requires { IsHeldIn pool.now (hand_on (Telling.wire_in self.now strand i)) }
        ensures { result ≡ length (option_map_or (bytes_at pool.now) (hand_on (Telling.wire_in self.now strand i)) []) }
    {
        match self.doors.get(strand as usize) {
            None => 0,
            Some(doors) => size_on(&self.wires, pool, doors.input(i)),
        }
    }

    /// Whether a strand has ended.
    pub fn has_ended(&self, strand: u32) -> bool
        ensures { result ≡ Telling.ended_at self.now strand }
    {
        match self.seats.get(strand as usize) {
            None => false,
            Some(seat) => seat.has_ended,
        }
    }

    /// Whether a strand asks for nothing: it is out, or has ended.
    pub fn asks_nothing(&self, strand: u32) -> bool
        ensures { result ≡ Telling.asks_nothing (Telling.ask_at self.now strand) }
    {
        match self.seats.get(strand as usize) {
            None => true,
            Some(seat) => matches!(seat.ask, Ask::Nothing),
        }
    }

    /// The code with which a strand ended, and none before.
    pub fn end_of(&self, strand: u32) -> Option<i32>
        requires { strand < length self.now.unit }
        ensures { (m : Member) → slice_get self.now.unit strand ≡ Some m → result ≡ m.ended }
    {
        self.unit.end_of(strand)
    }

    /// Ends the desk at the end of a run. All that it holds of the pool is given back.
    pub fn drain(self, pool: &mut Pool)
        requires { IsPooled self.wires self.sights pool.old }
        ensures { blocks_in pool.new ≡ 0 }
    {
        let (wires, sights) = self.into_holders();
        give_all(wires, sights, pool);
    }
}

fn bytes_seen<'a>(sights: &[Option<Grip>], pool: &'a Pool, door: Option<usize>) -> &'a [u8]
    requires { IsHeldIn pool.now (sight_through sights.now door) }
    ensures { result.now ≡ option_map_or (bytes_at pool.now) (sight_through sights.now door) [] }
{
    match door {
        None => &[],
        Some(n) => match sights.get(n) {
            Some(Some(grip)) => pool.bytes_of(grip),
            _ => &[],
        },
    }
}

fn size_on(wires: &[Wire], pool: &Pool, door: Option<u32>) -> usize
    requires { IsHeldIn pool.now (hand_on (Telling.through wires.now door)) }
    ensures { result ≡ length (option_map_or (bytes_at pool.now) (hand_on (Telling.through wires.now door)) []) }
{
    match door {
        None => 0,
        Some(j) => match wires.get(j as usize) {
            None => 0,
            Some(wire) => size_of_hand(wire, pool),
        },
    }
}

fn size_of_hand(wire: &Wire, pool: &Pool) -> usize
    requires { IsHeldIn pool.now (hand_on (Some wire.now)) }
    ensures { result ≡ length (option_map_or (bytes_at pool.now) (hand_on (Some wire.now)) []) }
{
    match wire.at_hand() {
        None => 0,
        Some(grip) => pool.len_of(grip),
    }
}

// Gives back all that these wires and sights hold.
fn give_all(wires: Vec<Wire>, sights: Vec<Option<Grip>>, pool: &mut Pool)
    requires { IsPooled wires.items sights.items pool.old }
    ensures { blocks_in pool.new ≡ 0 }
{
    let mut wires = wires;
    while let Some(wire) = wires.pop() {
        wire.drain(pool);
    }
    wires.destroy_empty();
    let mut sights = sights;
    while let Some(sight) = sights.pop() {
        if let Some(grip) = sight {
            pool.give(grip);
        }
    }
    sights.destroy_empty();
}
