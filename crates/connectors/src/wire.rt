ghost use Rattle.std.specs.Prelude.{◌≡◌, ◌-◌, ◌<◌, ◌^◌, Some, None, IsSome, is_some, true, false, drop, slice_get, OnOk, OnErr};
ghost use Rattle.std.specs.Option.{option_map};
ghost use Rattle.record_pool.specs.PoolState.{without_node};
ghost use Rattle.connectors.specs.Rooms.{HasRoom};
ghost use Rattle.connectors.specs.WireState.{at_hand, waits, is_due, offered_again, taken_again, new_wire, with_room, offered, taken, settled, lined_up, cleared, noded_in, pool_taken, pool_settled, unreserved, drained, emptied, IsHeldIn, given_in, IsPaced, CanTake, CanSettle, CanUnreserve, CanEmpty, CanDrain};

use pipe_model::NoMemory;
use record_pool::{Grip, Node, Pool, Queue};
use std::alloc::Global;
use std::marker::Model;

/// A connector between a strand that writes and a strand that reads: a rendezvous, where a record is put when it has
/// been taken, or a queue, where it is put at once and waits.
pub struct Wire {
    offer: Option<Grip>,
    puts: u64,
    tooks: u64,
    out_closed: bool,
    in_closed: bool,
    queue: Option<Queue>,
    // The place in the queue that is reserved for the offer.
    node: Option<Node>,
}

impl Model for Wire {
    ghost use Rattle.std.specs.Prelude.{is_some};
    ghost use Rattle.std.specs.Option.{option_map};
    ghost use Rattle.connectors.specs.WireState.{WireState, IsPaced};
    ghost use Rattle.connectors.specs.Rooms.{HasRoom};
    ghost use Rattle.record_pool.specs.Queues.{QueueState};

    ghost Value = { WireState };

    ghost view = { λ wire. record {
      offer = wire.offer;
      puts = wire.puts;
      tooks = wire.tooks;
      out_closed = wire.out_closed;
      in_closed = wire.in_closed;
      queue = option_map (λ (queue : QueueState). queue.waiting) wire.queue;
      reserved = is_some wire.node;
    } };

    ghost invariant = { λ wire. IsPaced wire.offer wire.puts wire.tooks (option_map (λ (queue : QueueState). queue.waiting) wire.queue) × HasRoom wire.queue (is_some wire.node) };
}

impl Wire {
    /// A connector that nothing was written to, a queue or a rendezvous. It takes no memory.
    pub fn new(alloc: Global, queue: bool) -> Wire
        ensures { result ≡ new_wire queue }
    {
        Wire {
            offer: None,
            puts: 0,
            tooks: 0,
            out_closed: false,
            in_closed: false,
            queue: if queue { Some(Queue::new(alloc)) } else { None },
            node: None,
        }
    }

    /// Whether a record is offered at a rendezvous that may be seen, and was neither taken nor refused.
    #[inline(always)]
    pub fn waits(&self) -> bool
        ensures { result ≡ waits self.now }
    {
        self.queue.is_none() && self.puts == self.tooks && self.offer.is_some() && !self.in_closed
    }

    /// Whether a record was taken at a rendezvous and isn't put yet, and the consumer takes more.
    #[inline(always)]
    pub fn is_due(&self) -> bool
        ensures { result ≡ is_due self.now }
    {
        self.queue.is_none() && self.puts != self.tooks && !self.in_closed
    }

    /// The record that is offered.
    pub fn offered(&self) -> Option<&Grip>
        ensures { option_map (λ grip. grip.now) result ≡ self.now.offer }
    {
        self.offer.as_ref()
    }

    /// The record that was taken is put, and the next one is offered by the same grip.
    pub fn offer_again(&mut self)
        requires { is_due self.old ≡ true }
        ensures { self.new ≡ offered_again self.old }
    {
        self.puts += 1; // The offer stays.
    }

    /// The same, and that is taken.
    #[inline(always)]
    pub fn take_again(&mut self)
        requires due { is_due self.old ≡ true }
        requires count { self.old.tooks < 2 ^ 64 - 1 }
        ensures { self.new ≡ taken_again self.old }
    {
        self.puts += 1;
        self.tooks += 1; // By the same grip.
    }

    /// Whether it is a queue.
    pub fn is_queue(&self) -> bool
        ensures { result ≡ is_some self.now.queue }
    {
        self.queue.is_some()
    }

    /// Reserves a place for what will be offered, where it is a queue, so that a put takes no memory. Want of memory
    /// leaves the connector and the pool as they were.
    #[inline(always)]
    pub fn reserve(&mut self, pool: &mut Pool) -> Result<(), NoMemory>
        requires { self.old.reserved ≡ false }
        ensures room { OnOk result (self.new ≡ with_room self.old) }
        ensures pool { OnOk result (pool.new ≡ noded_in pool.old self.old.queue) }
        ensures err { OnErr result (self.new ≡ self.old) }
        ensures err_pool { OnErr result (pool.new ≡ pool.old) }
        ensures lack { OnErr result (IsSome self.old.queue) }
    {
        let Some(queue) = &mut self.queue else {
            return Ok(());
        };
        let node = pool.reserve_node(queue)?;
        match self.node.replace(node) {
            None => Ok(()),
            Some(_) => unreachable!(),
        }
    }

    /// Gives back the place that is reserved, if there is one. What is offered to a queue is then put only after a place
    /// is reserved again.
    pub fn unreserve(&mut self, pool: &mut Pool)
        requires { CanUnreserve pool.old self.old.reserved }
        ensures wire { self.new ≡ record self.old { reserved = false } }
        ensures pool { pool.new ≡ unreserved pool.old self.old.reserved }
    {
        match &mut self.queue {
            Some(queue) => give_place(queue, self.node.take(), pool),
            None => {}
        }
    }

    /// The producer offers a record.
    pub fn offer(&mut self, grip: Grip)
        requires free { self.old.offer ≡ None }
        requires open { self.old.out_closed ≡ false }
        ensures { self.new ≡ offered self.old grip }
    {
        match self.offer.replace(grip) {
            None => {}
            Some(_) => unreachable!(),
        }
    }

    /// The record that the consumer may see: of a rendezvous the one offered, until it is taken, and of a queue the one
    /// that has waited longest.
    pub fn at_hand(&self) -> Option<&Grip>
        ensures { option_map (λ grip. grip.now) result ≡ at_hand self.now }
    {
        match &self.queue {
            Some(queue) => queue.front(),
            None if self.puts == self.tooks => self.offer.as_ref(),
            None => None,
        }
    }

    /// The consumer takes the record at hand. The offer of a rendezvous stays until it is settled; what waited in a
    /// queue is given back.
    #[tactic(auto, using(crate::proofs::Queued::oldest_at_hand, crate::proofs::Queued::may_take))]
    pub fn take(&mut self, pool: &mut Pool)
        requires hand { IsSome (at_hand self.old) }
        requires can { CanTake pool.old self.old self.old.queue }
        requires count { self.old.tooks < 2 ^ 64 - 1 }
        ensures taken { self.new ≡ taken self.old }
        ensures pool { pool.new ≡ pool_taken pool.old self.old self.old.queue }
    {
        self.tooks += 1; // The offer of a rendezvous stays.
        match &mut self.queue {
            Some(queue) => give_first(queue, pool),
            None => {}
        }
    }

    /// The record that was offered is put: of a rendezvous it was taken before, and its grip is given back; in a queue it
    /// waits behind the others.
    pub fn settle(&mut self, pool: &mut Pool)
        requires { CanSettle pool.old self.old self.old.queue }
        ensures settled { self.new ≡ settled self.old }
        ensures pool { pool.new ≡ pool_settled pool.old self.old self.old.queue }
    {
        self.puts += 1; // Of a rendezvous it was taken before.
        match &mut self.queue {
            Some(queue) => line_up(queue, self.node.take(), self.offer.take(), pool),
            None => give_back(self.offer.take(), pool),
        }
    }

    /// The offer of a rendezvous was refused: it goes, and its grip is given back.
    pub fn withdraw(&mut self, pool: &mut Pool)
        requires rendezvous { self.old.queue ≡ None }
        requires offer { IsSome self.old.offer }
        requires open { self.old.tooks ≡ self.old.puts }
        requires held { IsHeldIn pool.old self.old.offer }
        ensures cleared { self.new ≡ cleared self.old }
        ensures pool { pool.new ≡ given_in pool.old self.old.offer }
    {
        let offer = self.offer.take();
        give_back(offer, pool);
    }

    /// The producer writes no more.
    pub fn close_out(&mut self)
        ensures { self.new ≡ record self.old { out_closed = true } }
    {
        self.out_closed = true;
    }

    /// The consumer takes no more.
    pub fn close_in(&mut self)
        ensures { self.new ≡ record self.old { in_closed = true } }
    {
        self.in_closed = true;
    }

    /// Whether the producer closed its end.
    pub fn out_closed(&self) -> bool
        ensures { result ≡ self.now.out_closed }
    {
        self.out_closed
    }

    /// Whether the consumer closed its end.
    pub fn in_closed(&self) -> bool
        ensures { result ≡ self.now.in_closed }
    {
        self.in_closed
    }

    /// How many records were put.
    pub fn puts(&self) -> u64
        ensures value { result ≡ self.now.puts }
        ensures paced { IsPaced self.now.offer self.now.puts self.now.tooks self.now.queue }
    {
        self.puts
    }

    /// How many records were taken.
    pub fn tooks(&self) -> u64
        ensures value { result ≡ self.now.tooks }
        ensures paced { IsPaced self.now.offer self.now.puts self.now.tooks self.now.queue }
    {
        self.tooks
    }

    /// Ends the connector at the end of a run. What it holds is given back: an offer that still stands, the place that
    /// is reserved for it, and all that waits.
    pub fn drain(self, pool: &mut Pool)
        requires { CanDrain pool.old self }
        ensures { pool.new ≡ drained pool.old self }
    {
        let Wire {
            offer,
            puts: _,
            tooks: _,
            out_closed: _,
            in_closed: _,
            queue,
            node,
        } = self;
        give_back(offer, pool);
        match (queue, node) {
            (Some(queue), node) => empty(queue, node, pool),
            (None, None) => {}
            (None, Some(_)) => unreachable!(),
        }
    }
}

// Gives back the grip of an offer, if there is one.
fn give_back(offer: Option<Grip>, pool: &mut Pool)
    requires { IsHeldIn pool.old offer }
    ensures { pool.new ≡ given_in pool.old offer }
{
    match offer {
        Some(grip) => pool.give(grip),
        None => {}
    }
}

// Gives back a reserved place of a queue, if there is one.
fn give_place(queue: &mut Queue, node: Option<Node>, pool: &mut Pool)
    requires room { HasRoom (Some queue.old) (is_some node) }
    requires node { CanUnreserve pool.old (is_some node) }
    ensures queue { queue.new ≡ record queue.old { reserved = 0 } }
    ensures pool { pool.new ≡ unreserved pool.old (is_some node) }
{
    match node {
        Some(node) => pool.give_node(queue, node),
        None => {}
    }
}

// Puts the record of an offer in a queue, behind those that wait there, at the place that is reserved for it.
fn line_up(queue: &mut Queue, node: Option<Node>, offer: Option<Grip>, pool: &mut Pool)
    requires node { is_some node ≡ true }
    requires offer { IsSome offer }
    requires room { HasRoom (Some queue.old) (is_some node) }
    ensures waiting { Some queue.new.waiting ≡ lined_up (Some queue.old.waiting) offer }
    ensures reserved { queue.new.reserved ≡ 0 }
    ensures pool { pool.new ≡ pool.old }
{
    match (node, offer) {
        (Some(node), Some(grip)) => pool.push_back(queue, node, grip),
        _ => unreachable!(),
    }
}

// Gives back the record that has waited longest in a queue, with its place.
#[tactic(auto, using(crate::proofs::Queued::popped_whole))]
fn give_first(queue: &mut Queue, pool: &mut Pool)
    requires first { IsSome (slice_get queue.old.waiting 0) }
    requires held { IsHeldIn pool.old (slice_get queue.old.waiting 0) }
    requires node { 0 < pool.old.nodes }
    ensures queue { queue.new ≡ record queue.old { waiting = drop 1 queue.old.waiting } }
    ensures pool { pool.new ≡ without_node (given_in pool.old (slice_get queue.old.waiting 0)) }
{
    match pool.pop_front(queue) {
        None => unreachable!(),
        Some((node, grip)) => {
            pool.give(grip);
            pool.give_node(queue, node);
        }
    }
}

// Ends a queue: the place that is reserved in it and all that waits is given back, each record with its place.
#[tactic(auto, using(crate::proofs::Queued::first_held, crate::proofs::Queued::first_counted, crate::proofs::Queued::rest_can, crate::proofs::Queued::emptied_first, crate::proofs::Queued::emptied_none, crate::proofs::Queued::drop_shorter))]
fn empty(queue: Queue, node: Option<Node>, pool: &mut Pool)
    requires room { HasRoom (Some queue) (is_some node) }
    requires node { CanUnreserve pool.old (is_some node) }
    requires waiting { CanEmpty queue.waiting (unreserved pool.old (is_some node)) }
    ensures { pool.new ≡ emptied queue.waiting (unreserved pool.old (is_some node)) }
{
    let mut queue = queue;
    give_place(&mut queue, node, pool);
    while queue.front().is_some() {
        give_first(&mut queue, pool);
    }
    queue.close();
}
