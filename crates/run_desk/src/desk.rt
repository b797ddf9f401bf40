ghost use Rattle.std.specs.Prelude.{◌≡◌, ◌<◌, Some, length, slice_get};
ghost use Rattle.run_desk.specs.Telling as Telling;

use crate::doors::Doors;
use crate::seat::Seat;
use commit_levels::Unit;
use connectors::Wire;
use record_pool::Grip;
use std::marker::Model;

/// What is kept of a run, and all that a licence rests on: the seats and doors of the strands, what they saw last on
/// each input, the wires of the links, and how far each strand is at each commit level. Who has a seat has doors, and
/// what they lead to is there.
pub struct Desk {
    pub(crate) seats: Vec<Seat>,
    pub(crate) wires: Vec<Wire>,
    pub(crate) sights: Vec<Option<Grip>>,
    pub(crate) doors: Vec<Doors>,
    pub(crate) unit: Unit,
}

impl Model for Desk {
    ghost use Rattle.std.specs.Prelude.{length};
    ghost use Rattle.run_desk.specs.Desk.{DeskState};
    ghost use Rattle.run_desk.specs.Telling.{IsJoined};

    ghost Value = { DeskState };

    ghost view = { λ desk. record {
      seats = desk.seats.items;
      wires = desk.wires.items;
      sights = desk.sights.items;
      doors = desk.doors.items;
      unit = desk.unit;
    } };

    ghost invariant = { λ desk. IsJoined (length desk.seats.items) (length desk.wires.items) desk.doors.items };
}

impl Desk {
    /// A desk of these lists, which takes no memory: seats, doors and members by strand, wires by link, and sights by
    /// input.
    pub fn new(
        seats: Vec<Seat>,
        wires: Vec<Wire>,
        sights: Vec<Option<Grip>>,
        doors: Vec<Doors>,
        unit: Unit,
    ) -> Desk
        requires { Telling.IsJoined (length seats.items) (length wires.items) doors.items }
        ensures { result ≡ record { seats = seats.items; wires = wires.items; sights = sights.items; doors = doors.items; unit = unit } }
    {
        Desk {
            seats,
            wires,
            sights,
            doors,
            unit,
        }
    }

    // Ends the desk. The wires are the caller's to drain, and the sights to give back.
    pub(crate) fn into_holders(self) -> (Vec<Wire>, Vec<Option<Grip>>)
        ensures wires { result.0.items ≡ self.wires }
        ensures sights { result.1.items ≡ self.sights }
    {
        let Desk {
            seats: _,
            wires,
            sights,
            doors: _,
            unit: _,
        } = self;
        (wires, sights)
    }

    /// The number of the link at a strand's input.
    pub fn in_door(&self, strand: u32, i: u16) -> Option<u32>
        requires { strand < length self.now.seats }
        ensures door { result ≡ Telling.in_door self.now strand i }
        ensures there { Telling.LeadsBelow (length self.now.wires) result }
    {
        self.doors[strand as usize].input(i)
    }

    // The number of the sight of a strand's input.
    pub(crate) fn sight_door(&self, strand: u32, i: u16) -> Option<usize>
        requires { strand < length self.now.seats }
        ensures { result ≡ Telling.sight_door self.now strand i }
    {
        self.doors[strand as usize].sight(i)
    }

    /// The number of the link at a strand's output.
    pub fn out_door(&self, strand: u32, o: u16) -> Option<u32>
        requires { strand < length self.now.seats }
        ensures door { result ≡ Telling.out_door self.now strand o }
        ensures there { Telling.LeadsBelow (length self.now.wires) result }
    {
        self.doors[strand as usize].output(o)
    }

    /// The numbers of the links at all of a strand's inputs.
    pub fn inputs(&self, strand: u32) -> &[Option<u32>]
        requires { strand < length self.now.seats }
        ensures doors { result.now ≡ Telling.inputs_of (slice_get self.now.doors strand) }
        ensures there { Telling.LeadBelow (length self.now.wires) result.now }
    {
        self.doors[strand as usize].inputs()
    }

    /// The numbers of the links at all of a strand's outputs.
    pub fn outputs(&self, strand: u32) -> &[Option<u32>]
        requires { strand < length self.now.seats }
        ensures doors { result.now ≡ Telling.outputs_of (slice_get self.now.doors strand) }
        ensures there { Telling.LeadBelow (length self.now.wires) result.now }
    {
        self.doors[strand as usize].outputs()
    }

    pub(crate) fn input_count(&self, strand: u32) -> u16
        ensures { result ≡ length (Telling.inputs_of (slice_get self.now.doors strand)) }
    {
        match self.doors.get(strand as usize) {
            None => 0,
            Some(doors) => doors.input_count(),
        }
    }

    /// The first strand of the stage that a strand belongs to.
    pub fn first_of(&self, strand: u32) -> u32
        ensures { result ≡ Telling.first_of strand (slice_get self.now.doors strand) }
    {
        match self.doors.get(strand as usize) {
            None => strand,
            Some(doors) => doors.first(),
        }
    }

    pub(crate) fn seat(&self, strand: u32) -> Seat
        requires { strand < length self.now.seats }
        ensures { slice_get self.now.seats strand ≡ Some result }
    {
        self.seats[strand as usize]
    }
}
