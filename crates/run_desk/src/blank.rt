//! The desk of a net before the first step.
ghost use Rattle.std.specs.Prelude.{◌≡◌, ◌≤◌, length, map, replicate, None, IfOk};
ghost use Rattle.pipe_model.specs.declared.net.Link.{Link as LinkIs};
ghost use Rattle.pipe_model.specs.State.{nothing_yet};
ghost use Rattle.pipe_model.specs.WellFormed.{IsWellFormed};
ghost use Rattle.record_pool.specs.PoolState.{empty_pool};
ghost use Rattle.connectors.specs.WireState.{new_wire};
ghost use Rattle.run_desk.specs.Blank.{new_seat, closed_doors, doors_from, inputs_in, led_in, led_out, with_link, with_links, blank_desk};
ghost use Rattle.run_desk.specs.Holding.{RunStands, out_from};

use crate::desk::Desk;
use crate::doors::Doors;
use crate::seat::{Ask, Seat};
use commit_levels::Unit;
use connectors::Wire;
use pipe_model::{Link, Net, NoMemory, Strand};
use record_pool::Grip;
use std::alloc::Global;

impl Desk {
    /// The desk of a net before the first step, where every strand is out: it has asked for nothing. It takes memory
    /// for each strand and link.
    pub fn blank(alloc: Global, net: &Net) -> Result<Desk, NoMemory>
        requires formed { IsWellFormed net.now }
        ensures { IfOk result (λ desk. RunStands net.now nothing_yet (out_from 0 (length net.now.strands)) desk empty_pool) }
    {
        lay_out(alloc, net)
    }
}

fn lay_out(alloc: Global, net: &Net) -> Result<Desk, NoMemory>
    requires strands { length net.now.strands ≤ 65536 }
    requires links { length net.now.links ≤ 4194304 }
    ensures { IfOk result (λ desk. desk ≡ blank_desk net.now) }
{
    let strands = net.strands.as_slice();
    let links = net.links.as_slice();
    let seats = new_seats(alloc, strands.len())?;
    let unit = Unit::new(alloc, strands.len() as u32)?;
    let (mut doors, inputs) = close_doors(alloc, strands)?;
    lead_all(&mut doors, links);
    let (wires, sights) = new_holders(alloc, links, inputs as usize)?;
    Ok(Desk::new(seats, wires, sights, doors, unit))
}

fn new_seats(alloc: Global, count: usize) -> Result<Vec<Seat>, NoMemory>
    ensures { IfOk result (λ seats. seats.items ≡ replicate count new_seat) }
{
    let seat = Seat {
        ask: Ask::Nothing,
        has_ended: false,
        has_seen: false,
    };
    Ok(vec![in alloc; seat; count]?)
}

// A wire for each link and so many sights, which hold nothing.
fn new_holders(
    alloc: Global,
    links: &[Link],
    inputs: usize,
) -> Result<(Vec<Wire>, Vec<Option<Grip>>), NoMemory>
    ensures wires { IfOk result (λ holders. holders.0.items ≡ map (λ (link : LinkIs). new_wire link.queue) links.now) }
    ensures sights { IfOk result (λ holders. holders.1.items ≡ replicate inputs None) }
{
    let mut wires = Vec::with_capacity(alloc, links.len())?;
    let Ok(mut sights) = Vec::with_capacity(alloc, inputs) else {
        wires.destroy_empty();
        return Err(NoMemory);
    };
    for link in links {
        wires.push_reserved(Wire::new(alloc, link.queue));
    }
    for _ in 0..inputs {
        sights.push_reserved(None);
    }
    Ok((wires, sights))
}

// The doors of these strands, of which none leads anywhere yet, and how many inputs they have.
fn close_doors(alloc: Global, strands: &[Strand]) -> Result<(Vec<Doors>, u32), NoMemory>
    requires { length strands.now ≤ 65536 }
    ensures doors { IfOk result (λ closed. closed.0.items ≡ doors_from 0 0 strands.now) }
    ensures inputs { IfOk result (λ closed. closed.1 ≡ inputs_in strands.now) }
{
    let mut doors = Vec::new(alloc);
    let mut inputs = 0u32;
    for strand in strands {
        let closed = closed(alloc, doors.len() as u32, inputs, strand)?;
        doors.push(closed)?;
        inputs += u32::from(strand.ports.inputs);
    }
    Ok((doors, inputs))
}

fn closed(alloc: Global, number: u32, first_sight: u32, strand: &Strand) -> Result<Doors, NoMemory>
    ensures { IfOk result (λ doors. doors ≡ closed_doors number first_sight strand.now) }
{
    let inputs = vec![in alloc; None; strand.ports.inputs as usize]?;
    let outputs = vec![in alloc; None; strand.ports.outputs as usize]?;
    let first = number.saturating_sub(u32::from(strand.part));
    Ok(Doors::new(inputs, outputs, first, first_sight))
}

// Both ends of each link lead to it.
fn lead_all(doors: &mut Vec<Doors>, links: &[Link])
    requires { length links.now ≤ 4194304 }
    ensures { doors.new.items ≡ with_links doors.old.items 0 links.now }
{
    let mut j = links.len();
    while j > 0 {
        j -= 1;
        lead(doors, j as u32, links[j]);
    }
}

fn lead(doors: &mut Vec<Doors>, j: u32, link: Link)
    ensures { doors.new.items ≡ with_link doors.old.items j link }
{
    if let Some(from) = doors.get_mut(link.from as usize) {
        from.lead_out(link.output, j);
    }
    if let Some(to) = doors.get_mut(link.to as usize) {
        to.lead_in(link.input, j);
    }
}

impl Doors {
    fn lead_in(&mut self, i: u16, j: u32)
        ensures { self.new ≡ led_in i j self.old }
    {
        if let Some(door) = self.inputs.get_mut(i as usize) {
            *door = Some(j);
        }
    }

    fn lead_out(&mut self, o: u16, j: u32)
        ensures { self.new ≡ led_out o j self.old }
    {
        if let Some(door) = self.outputs.get_mut(o as usize) {
            *door = Some(j);
        }
    }
}
