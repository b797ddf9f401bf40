//! Who is at the other ends of a strand's links is woken.
ghost use Rattle.std.specs.Prelude.{◌≡◌, ◌<◌, length};
ghost use Rattle.run_desk.specs.Standing.{link_through};
ghost use Rattle.run_desk.specs.Telling.{LeadsBelow, LeadBelow};
ghost use Rattle.core_machine.specs.Woken.{AreInside, IsLarger, IsProducerIn, IsConsumerIn, IsWaitingIn, OfDoors, AreEndsIn};

use crate::ready::Ready;
use pipe_model::{Link, Seen};
use run_desk::Desk;

/// Wakes the strands at the other ends of the links that what was told concerns: of a record that was taken its
/// producer, of one that was put into a queue its consumer, and at an end all. Where one was put at a rendezvous its
/// consumer took it before, and sees nothing new.
#[inline(always)]
pub(crate) fn wake_ends(ready: &mut Ready, desk: &Desk, links: &[Link], strand: u32, seen: Seen)
    requires strand { strand < length desk.now.seats }
    requires wires { length desk.now.wires ≡ length links.now }
    requires inside { AreInside links.now ready.old.size }
    ensures larger { IsLarger ready.old ready.new }
    ensures ends { AreEndsIn desk.now links.now strand seen ready.new }
{
    match seen {
        Seen::Took(i) => wake_producer(ready, links, desk.in_door(strand, i)),
        Seen::Put(o) => wake_waiting(ready, links, desk.out_door(strand, o)),
        Seen::Ended(_) => {
            wake_consumers(ready, links, desk.outputs(strand));
            wake_producers(ready, links, desk.inputs(strand));
        }
        _ => {}
    }
}

fn wake_producer(ready: &mut Ready, links: &[Link], door: Option<u32>)
    requires there { LeadsBelow (length links.now) door }
    requires inside { AreInside links.now ready.old.size }
    ensures larger { IsLarger ready.old ready.new }
    ensures end { IsProducerIn links.now ready.new door }
{
    if let Some(link) = link_at(links, door) {
        ready.insert(link.from);
    }
}

// Wakes the strand that reads a queue behind a door.
fn wake_waiting(ready: &mut Ready, links: &[Link], door: Option<u32>)
    requires there { LeadsBelow (length links.now) door }
    requires inside { AreInside links.now ready.old.size }
    ensures larger { IsLarger ready.old ready.new }
    ensures end { IsWaitingIn links.now ready.new door }
{
    if let Some(link) = link_at(links, door) {
        if link.queue {
            ready.insert(link.to);
        }
    }
}

/// Wakes the strand that reads behind a door.
pub(crate) fn wake_consumer(ready: &mut Ready, links: &[Link], door: Option<u32>)
    requires there { LeadsBelow (length links.now) door }
    requires inside { AreInside links.now ready.old.size }
    ensures larger { IsLarger ready.old ready.new }
    ensures end { IsConsumerIn links.now ready.new door }
{
    if let Some(link) = link_at(links, door) {
        ready.insert(link.to);
    }
}

fn wake_producers(ready: &mut Ready, links: &[Link], doors: &[Option<u32>])
    requires there { LeadBelow (length links.now) doors.now }
    requires inside { AreInside links.now ready.old.size }
    ensures larger { IsLarger ready.old ready.new }
    ensures ends { OfDoors (IsProducerIn links.now ready.new) doors.now }
{
    for door in doors {
        wake_producer(ready, links, *door);
    }
}

fn wake_consumers(ready: &mut Ready, links: &[Link], doors: &[Option<u32>])
    requires there { LeadBelow (length links.now) doors.now }
    requires inside { AreInside links.now ready.old.size }
    ensures larger { IsLarger ready.old ready.new }
    ensures ends { OfDoors (IsConsumerIn links.now ready.new) doors.now }
{
    for door in doors {
        wake_consumer(ready, links, *door);
    }
}

fn link_at(links: &[Link], door: Option<u32>) -> Option<Link>
    requires { LeadsBelow (length links.now) door }
    ensures { result ≡ link_through links.now door }
{
    Some(links[door? as usize])
}
