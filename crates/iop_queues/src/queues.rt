ghost use Rattle.std.specs.Prelude.{◌≡◌, ◌+◌, ◌^◌, ◌<◌, ◌≤◌, [], ◌∷◌, ◌++◌, replicate, length, IfOk, IfSome, option_map};
ghost use Rattle.iop_cblock.specs.Lists.{AreDisjoint, pushed_front, unlinked};
ghost use Rattle.iop_queues.specs.declared.queues.TheConstants.{FREE};
ghost use Rattle.iop_queues.specs.Queue.{chooses, chooses_next_where, chooses_where, left_by};
ghost use Rattle.iop_queues.specs.Queues.{queue_at, with_queue, total, those_where, others_where, with_priority, prioritized, moved_last, in_place};

use crate::condition::Condition;
use crate::queued::Queued;
use crate::walk::Walk;
use crate::walks::{count_where, next_node, next_node_where, node_where};
use iop_cblock::Arena;
use std::alloc::{AllocError, Global};
use std::marker::Model;

/// The list of the nodes that stand in no queue.
const FREE: u32 = 0;

/// Queues, in which at most `ROOM` items stand together. A queue is a number below that of the
/// queues. No call but `new` takes memory. By arrival an item is put and taken in constant time.
/// All else walks its own queue: `remove_where` and `move_last` once for each item that they take,
/// and `set_priority` takes each item and puts it back.
#[derive(Drop)]
pub struct Queues<T, const ROOM: u32> {
    /// List `FREE` has the nodes of no item, and list q + 1 those of the items of queue q, in
    /// order.
    nodes: Arena,
    /// The item of each node that stands in a queue.
    items: Vec<Option<Queued<T>>>,
    /// How many items stand in all queues together.
    len: usize,
}

impl<T, const ROOM: u32> Model for Queues<T, ROOM> {
    ghost use Rattle.std.specs.Prelude.{List};
    ghost use Rattle.iop_queues.specs.declared.queued.Queued.{Queued};
    ghost use Rattle.iop_queues.specs.Nodes.{queues_in, AreQueues};

    ghost Value = { List (List (Queued T)) };

    ghost view = { λ q. queues_in q.items.items q.nodes.lists };

    ghost invariant = { λ q. AreQueues q.items.items q.nodes q.len ROOM };
}

impl<T: Copy, const ROOM: u32> Queues<T, ROOM> {
    /// Makes so many empty queues. It takes all the memory that the calls will need; `AllocError`
    /// where the host has less.
    pub fn new(alloc: Global, queues: u32) -> Result<Self, AllocError>
        requires { queues + 1 < 2 ^ 32 }
        ensures { IfOk result (λ made. made ≡ replicate queues []) }
    {
        let mut nodes = Arena::new(alloc, ROOM, queues + 1)?;
        for node in 0..ROOM {
            nodes.push_back(FREE, node);
        }
        let items = vec![in alloc; None; ROOM as usize]?;
        let len = 0;
        Ok(Queues { nodes, items, len })
    }

    /// Tells how many items stand in all queues together.
    pub fn len(&self) -> usize
        ensures { result ≡ total self.now }
    {
        self.len
    }

    /// Tells how many items stand in a queue.
    pub fn count(&self, queue: u32) -> usize
        requires { queue < length self.now }
        ensures count { result ≡ length (queue_at queue self.now) }
        ensures few { result ≤ ROOM }
    {
        self.count_where(queue, &Any)
    }

    /// Tells of how many items of a queue a condition holds.
    fn count_where<C: Condition<T>>(&self, queue: u32, condition: &C) -> usize
        requires { queue < length self.now }
        ensures count { result
            ≡ length (those_where (C.holds_for condition.now) (queue_at queue self.now)) }
        ensures few { result ≤ ROOM }
    {
        count_where(&self.nodes, &self.items, queue + 1, condition)
    }

    /// Walks over the items of a queue, in order.
    pub fn walk(&self, queue: u32) -> Walk<'_, T>
        requires { queue < length self.now }
        ensures { result ≡ queue_at queue self.now }
    {
        Walk::new(&self.nodes, &self.items, queue + 1)
    }

    /// Puts an item behind all others of a queue. There is room for it.
    pub fn push(&mut self, queue: u32, queued: Queued<T>)
        requires queue { queue < length self.old }
        requires room { total self.old < ROOM }
        ensures { self.new
            ≡ with_queue queue (queue_at queue self.old ++ queued ∷ []) self.old }
    {
        if let Some(node) = self.nodes.first(FREE) {
            self.items[node as usize] = Some(queued);
            self.nodes.unlink(node);
            self.nodes.push_back(queue + 1, node);
            self.len += 1;
        }
    }

    /// Finds the item that is next in a queue, by priority or by arrival. None exactly where the
    /// queue is empty.
    pub fn peek(&self, queue: u32, by_priority: bool) -> Option<Queued<T>>
        requires { queue < length self.now }
        ensures { result ≡ option_map (λ c. c.one) (chooses by_priority (queue_at queue self.now)) }
    {
        let node = next_node(&self.nodes, &self.items, queue + 1, by_priority)?;
        self.items[node as usize]
    }

    /// Takes the item that is next in a queue, by priority or by arrival. None exactly where the
    /// queue is empty.
    pub fn take(&mut self, queue: u32, by_priority: bool) -> Option<Queued<T>>
        requires queue { queue < length self.old }
        ensures item { result ≡ option_map (λ c. c.one)
            (chooses by_priority (queue_at queue self.old)) }
        ensures left { let own = queue_at queue self.old in
            self.new ≡ with_queue queue (left_by own (chooses by_priority own)) self.old }
        ensures room { IfSome result (λ taken. total self.new < ROOM) }
    {
        let node = next_node(&self.nodes, &self.items, queue + 1, by_priority)?;
        set_free(&mut self.nodes, node);
        self.len -= 1;
        self.items[node as usize]
    }

    /// Takes the first item of a queue of which a condition holds. None exactly where it holds of
    /// none.
    pub fn take_where<C: Condition<T>>(&mut self, queue: u32, condition: &C) -> Option<Queued<T>>
        requires queue { queue < length self.old }
        ensures item { result ≡ option_map (λ c. c.one)
            (chooses_where (C.holds_for condition.now) (queue_at queue self.old)) }
        ensures left { let own = queue_at queue self.old in
            self.new ≡ with_queue queue
            (left_by own (chooses_where (C.holds_for condition.now) own)) self.old }
        ensures room { IfSome result (λ taken. total self.new < ROOM) }
    {
        let node = node_where(&self.nodes, &self.items, queue + 1, condition)?;
        set_free(&mut self.nodes, node);
        self.len -= 1;
        self.items[node as usize]
    }

    /// Takes the item that is next, by priority or by arrival, among those of a queue of which a
    /// condition holds. None exactly where it holds of none.
    pub fn take_next_where<C: Condition<T>>(
        &mut self,
        queue: u32,
        by_priority: bool,
        condition: &C,
    ) -> Option<Queued<T>>
        requires queue { queue < length self.old }
        ensures item { let own = queue_at queue self.old in
            result ≡ option_map (λ c. c.one)
            (chooses_next_where by_priority (C.holds_for condition.now) own) }
        ensures left { let own = queue_at queue self.old in
            self.new ≡ with_queue queue
            (left_by own (chooses_next_where by_priority (C.holds_for condition.now) own))
            self.old }
        ensures room { IfSome result (λ taken. total self.new < ROOM) }
    {
        let node = next_node_where(&self.nodes, &self.items, queue + 1, by_priority, condition)?;
        set_free(&mut self.nodes, node);
        self.len -= 1;
        self.items[node as usize]
    }

    /// Takes the items of which a condition holds out of a queue.
    pub fn remove_where<C: Condition<T>>(&mut self, queue: u32, condition: &C)
        requires queue { queue < length self.old }
        ensures { self.new ≡ with_queue queue
            (others_where (C.holds_for condition.now) (queue_at queue self.old)) self.old }
    {
        while self.take_where(queue, condition).is_some() {}
    }

    /// Empties a queue.
    pub fn clear(&mut self, queue: u32)
        requires queue { queue < length self.old }
        ensures { self.new ≡ with_queue queue [] self.old }
    {
        while self.take(queue, false).is_some() {}
    }

    /// Puts the items of which a condition holds behind all others of a queue, with another
    /// priority.
    pub fn move_last<C: Condition<T>>(&mut self, queue: u32, condition: &C, priority: u8)
        requires queue { queue < length self.old }
        ensures { self.new ≡ with_queue queue
            (moved_last (C.holds_for condition.now) priority (queue_at queue self.old)) self.old }
    {
        for _ in 0..self.count_where(queue, condition) {
            if let Some(queued) = self.take_where(queue, condition) {
                self.push(queue, with_priority(queued, priority));
            }
        }
    }

    /// Gives the items of a queue another priority of which a condition holds. They keep their
    /// places.
    pub fn set_priority<C: Condition<T>>(&mut self, queue: u32, condition: &C, priority: u8)
        requires queue { queue < length self.old }
        ensures { self.new ≡ with_queue queue
            (in_place (C.holds_for condition.now) priority (queue_at queue self.old)) self.old }
    {
        for _ in 0..self.count(queue) {
            if let Some(queued) = self.take(queue, false) {
                self.push(queue, prioritized(queued, condition, priority));
            }
        }
    }
}

/// Moves a node from its list to the free ones.
fn set_free(nodes: &mut Arena, node: u32)
    requires lists { 0 < length nodes.old.lists }
    requires node { node < nodes.old.nodes }
    ensures lists { nodes.new ≡ pushed_front FREE node (unlinked node nodes.old) }
    ensures disjoint { AreDisjoint nodes.new }
{
    nodes.unlink(node);
    nodes.push_front(FREE, node);
}

/// Gives an item another priority.
fn with_priority<T: Copy>(queued: Queued<T>, priority: u8) -> Queued<T>
    ensures { result ≡ with_priority priority queued }
{
    let item = queued.item;
    Queued { priority, item }
}

/// Gives an item another priority, if a condition holds of it.
fn prioritized<T: Copy, C: Condition<T>>(
    queued: Queued<T>,
    condition: &C,
    priority: u8,
) -> Queued<T>
    ensures { result ≡ prioritized (C.holds_for condition.now) priority queued }
{
    if condition.holds(&queued.item) {
        with_priority(queued, priority)
    } else {
        queued
    }
}

/// Holds of every item.
#[derive(Drop)]
struct Any;

impl<T> Condition<T> for Any {
    ghost use Rattle.std.specs.Prelude.{true};

    ghost holds_for = { λ any item. true };

    fn holds(&self, item: &T) -> bool {
        true
    }
}
