ghost use Rattle.std.specs.Prelude.{◌≡◌, ◌<◌, [], None, slice_get, IfOk, OnErr, MatchOption};
ghost use Rattle.std.specs.Option.{option_map};
ghost use Rattle.record_pool.specs.PoolState.{with_node, without_node};
ghost use Rattle.record_pool.specs.Queues.{empty_queue, with_place, without_place, pushed, popped};

use crate::pool::{Grip, Pool};
use pipe_model::NoMemory;
use std::alloc::Global;
use std::collections::VecDeque;
use std::marker::Model;

/// A reserved place in a queue. It is used only with the pool and the queue that it was reserved of, and is given back
/// to them.
pub struct Node {}

/// Records in the order in which they were put, by their grips. A queue isn't let go but closed, when no record waits.
pub struct Queue {
    records: VecDeque<Grip>,
    // There is room for as many records more, so that `push_back` takes no memory.
    reserved: usize,
}

impl Model for Queue {
    ghost use Rattle.std.specs.Prelude.{◌+◌, ◌≤◌};
    ghost use Rattle.std.specs.VecDeque.{deque_len, deque_capacity};
    ghost use Rattle.record_pool.specs.Queues.{QueueState};

    ghost Value = { QueueState };

    ghost view = { λ queue. record { waiting = queue.records.items; reserved = queue.reserved } };

    ghost invariant = { λ queue. deque_len queue.records + queue.reserved ≤ deque_capacity queue.records };
}

impl Queue {
    /// A queue in which nothing waits. It takes no memory.
    pub fn new(alloc: Global) -> Queue
        ensures { result ≡ empty_queue }
    {
        Queue {
            records: VecDeque::new(alloc),
            reserved: 0,
        }
    }

    /// The record that has waited longest.
    pub fn front(&self) -> Option<&Grip>
        ensures { option_map (λ grip. grip.now) result ≡ slice_get self.now.waiting 0 }
    {
        self.records.front()
    }

    /// Ends a queue in which nothing waits.
    pub fn close(self)
        requires { self.waiting ≡ [] }
    {
        let Queue {
            records,
            reserved: _,
        } = self;
        records.destroy_empty();
    }
}

impl Pool {
    /// Reserves a place in a queue. It wants memory too where the count of blocks would pass 64 bits. Want of memory
    /// leaves the pool and the queue as they were.
    pub fn reserve_node(&mut self, queue: &mut Queue) -> Result<Node, NoMemory>
        ensures pool { IfOk result (λ node. self.new ≡ with_node self.old) }
        ensures queue { IfOk result (λ node. queue.new ≡ with_place queue.old) }
        ensures err_pool { OnErr result (self.new ≡ self.old) }
        ensures err_queue { OnErr result (queue.new ≡ queue.old) }
    {
        let Some(blocks) = self.blocks.checked_add(1) else {
            return Err(NoMemory);
        };
        let Some(reserved) = queue.reserved.checked_add(1) else {
            return Err(NoMemory);
        };
        queue.records.reserve(reserved)?;
        queue.reserved = reserved;
        self.blocks = blocks;
        self.nodes += 1;
        Ok(Node {})
    }

    /// Gives a reserved place back. It takes no memory.
    pub fn give_node(&mut self, queue: &mut Queue, node: Node)
        requires node { 0 < self.old.nodes }
        requires reserved { 0 < queue.old.reserved }
        ensures pool { self.new ≡ without_node self.old }
        ensures queue { queue.new ≡ without_place queue.old }
    {
        let Node {} = node;
        queue.reserved -= 1;
        self.blocks -= 1;
        self.nodes -= 1;
    }

    /// Puts a record behind the others, at a reserved place. It takes no memory.
    pub fn push_back(&mut self, queue: &mut Queue, node: Node, grip: Grip)
        requires { 0 < queue.old.reserved }
        ensures queue { queue.new ≡ pushed queue.old grip }
        ensures pool { self.new ≡ self.old }
    {
        let Node {} = node;
        queue.reserved -= 1;
        queue.records.push_back_reserved(grip);
    }

    /// The record that has waited longest leaves the queue, and its place is reserved again: None where none waits. It
    /// takes no memory.
    pub fn pop_front(&mut self, queue: &mut Queue) -> Option<(Node, Grip)>
        ensures front { option_map (λ first. first.1) result ≡ slice_get queue.old.waiting 0 }
        ensures queue { MatchOption result (queue.new ≡ queue.old) (λ first. queue.new ≡ popped queue.old) }
        ensures pool { self.new ≡ self.old }
    {
        let grip = queue.records.pop_front()?;
        queue.reserved += 1;
        Some((Node {}, grip))
    }
}
