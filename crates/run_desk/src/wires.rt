ghost use Rattle.std.specs.Prelude.{◌≡◌, ◌-◌, ◌<◌, ◌^◌, Some, None, IsSome, false, true, length, OnOk, OnErr};
ghost use Rattle.connectors.specs.WireState.{WireState, IsHeldIn, CanTake, CanSettle, CanUnreserve, at_hand, taken, settled, cleared, offered, with_room, given_in};
ghost use Rattle.run_desk.specs.Telling.{through, LeadsBelow};
ghost use Rattle.run_desk.specs.Turns.{list_changed_behind, offer_on, out_shut, in_shut, wires_changed, pool_after_take, pool_after_put, pool_with_room, pool_without_room, queues_up, without_room};

use connectors::Wire;
use pipe_model::NoMemory;
use record_pool::{Grip, Pool};

// The record at hand behind a door is taken.
pub(crate) fn take_at(wires: &mut Vec<Wire>, pool: &mut Pool, door: Option<u32>)
    requires hand { (wire : WireState) → through wires.old.items door ≡ Some wire → IsSome (at_hand wire) }
    requires can { (wire : WireState) → through wires.old.items door ≡ Some wire → CanTake pool.old wire wire.queue }
    requires count { (wire : WireState) → through wires.old.items door ≡ Some wire → wire.tooks < 2 ^ 64 - 1 }
    requires there { LeadsBelow (length wires.old.items) door }
    ensures wires { wires.new.items ≡ list_changed_behind wires.old.items taken door }
    ensures pool { pool.new ≡ pool_after_take pool.old (through wires.old.items door) }
{
    if let Some(j) = door {
        wires[j as usize].take(pool);
    }
}

// The record that is offered behind a door is put.
#[inline(always)]
pub(crate) fn settle_at(wires: &mut Vec<Wire>, pool: &mut Pool, door: Option<u32>)
    requires there { LeadsBelow (length wires.old.items) door }
    requires can { (wire : WireState) → through wires.old.items door ≡ Some wire → CanSettle pool.old wire wire.queue }
    ensures wires { wires.new.items ≡ list_changed_behind wires.old.items settled door }
    ensures pool { pool.new ≡ pool_after_put pool.old (through wires.old.items door) }
{
    if let Some(j) = door {
        wires[j as usize].settle(pool);
    }
}

// The offer behind a door was refused.
pub(crate) fn withdraw_at(wires: &mut Vec<Wire>, pool: &mut Pool, door: Option<u32>)
    requires there { LeadsBelow (length wires.old.items) door }
    requires rendezvous { (wire : WireState) → through wires.old.items door ≡ Some wire → wire.queue ≡ None }
    requires offer { (wire : WireState) → through wires.old.items door ≡ Some wire → IsSome wire.offer }
    requires open { (wire : WireState) → through wires.old.items door ≡ Some wire → wire.tooks ≡ wire.puts }
    requires held { (wire : WireState) → through wires.old.items door ≡ Some wire → IsHeldIn pool.old wire.offer }
    ensures wires { wires.new.items ≡ list_changed_behind wires.old.items cleared door }
    ensures pool { pool.new ≡ given_in pool.old (offer_on (through wires.old.items door)) }
{
    if let Some(j) = door {
        wires[j as usize].withdraw(pool);
    }
}

// A place is reserved behind a door, which leads to a wire, for the record that will be offered there: only a queue has such places.
#[inline(always)]
pub(crate) fn reserve_at(
    wires: &mut Vec<Wire>,
    pool: &mut Pool,
    door: Option<u32>,
) -> Result<(), NoMemory>
    requires leads { IsSome (through wires.old.items door) }
    requires room { (wire : WireState) → through wires.old.items door ≡ Some wire → wire.reserved ≡ false }
    ensures wires { OnOk result (wires.new.items ≡ list_changed_behind wires.old.items with_room door) }
    ensures pool { OnOk result (pool.new ≡ pool_with_room pool.old (through wires.old.items door)) }
    ensures err { OnErr result (wires.new.items ≡ wires.old.items) }
    ensures err_pool { OnErr result (pool.new ≡ pool.old) }
    ensures lack { OnErr result (queues_up (through wires.old.items door) ≡ true) }
{
    match door {
        None => unreachable!(),
        Some(j) => wires[j as usize].reserve(pool),
    }
}

// The place that was reserved behind a door is given back.
#[cold]
pub(crate) fn unreserve_at(wires: &mut Vec<Wire>, pool: &mut Pool, door: Option<u32>)
    requires { (wire : WireState) → through wires.old.items door ≡ Some wire → CanUnreserve pool.old wire.reserved }
    ensures wires { wires.new.items ≡ list_changed_behind wires.old.items without_room door }
    ensures pool { pool.new ≡ pool_without_room pool.old (through wires.old.items door) }
{
    if let Some(j) = door {
        if let Some(wire) = wires.get_mut(j as usize) {
            wire.unreserve(pool);
        }
    }
}

// A record is offered behind a door, which leads to a wire where a place is reserved for it.
#[inline(always)]
pub(crate) fn offer_at(wires: &mut Vec<Wire>, grip: Grip, door: Option<u32>)
    requires leads { IsSome (through wires.old.items door) }
    requires free { (wire : WireState) → through wires.old.items door ≡ Some wire → wire.offer ≡ None }
    requires open { (wire : WireState) → through wires.old.items door ≡ Some wire → wire.out_closed ≡ false }
    ensures { wires.new.items ≡ list_changed_behind wires.old.items (λ wire. offered wire grip) door }
{
    match door {
        None => unreachable!(),
        Some(j) => wires[j as usize].offer(grip),
    }
}

fn close_out_at(wires: &mut Vec<Wire>, door: Option<u32>)
    ensures { wires.new.items ≡ list_changed_behind wires.old.items out_shut door }
{
    if let Some(j) = door {
        if let Some(wire) = wires.get_mut(j as usize) {
            wire.close_out();
        }
    }
}

fn close_in_at(wires: &mut Vec<Wire>, door: Option<u32>)
    ensures { wires.new.items ≡ list_changed_behind wires.old.items in_shut door }
{
    if let Some(j) = door {
        if let Some(wire) = wires.get_mut(j as usize) {
            wire.close_in();
        }
    }
}

// A strand that ended writes nothing more behind these doors.
pub(crate) fn close_outs(wires: &mut Vec<Wire>, doors: &[Option<u32>])
    ensures { wires.new.items ≡ wires_changed out_shut doors.now wires.old.items }
{
    for door in doors {
        close_out_at(wires, *door);
    }
}

// Nor does it take anything behind these.
pub(crate) fn close_ins(wires: &mut Vec<Wire>, doors: &[Option<u32>])
    ensures { wires.new.items ≡ wires_changed in_shut doors.now wires.old.items }
{
    for door in doors {
        close_in_at(wires, *door);
    }
}
