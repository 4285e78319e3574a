ghost use Rattle.std.specs.Prelude.{◌≡◌, ◌+◌, ◌<◌, List, [], IfOk, IfSome, length, slice_get};
ghost use Rattle.iop_cblock.specs.Lists.{AreDisjoint, list_at};
ghost use Rattle.iop_ready.specs.declared.entry.Entry.{Entry};
ghost use Rattle.iop_ready.specs.declared.priority.TheConstants.{LOWEST_PRIORITY};
ghost use Rattle.iop_ready.specs.declared.slot.TheConstants.{MOST_THREADS};
ghost use Rattle.iop_ready.specs.Queues.{first_in, Hold, AreQueues, AreBits, AreFilled};

use crate::priority::{LOWEST_PRIORITY, Priority};
use crate::priority_set::PrioritySet;
use crate::ready::Ready;
use crate::slot::{MOST_THREADS, Slot};
use iop_cblock::Arena;
use std::alloc::{AllocError, Global};
use std::marker::Model;

/// The ready threads in a queue for each priority, each call in the same time however many threads
/// are ready.
#[derive(Drop)]
pub struct QueueReady {
    /// The thread of slot s is node s, and the queue of priority p is list p - 1.
    queues: Arena,
    /// The priorities of which a thread is ready.
    filled: PrioritySet,
}

impl Model for QueueReady {
    ghost use Rattle.iop_ready.specs.Queues.{Queues, queues_of, AreSound};

    ghost Value = { Queues };

    ghost view = { λ r. queues_of r.queues r.filled };

    ghost invariant = { λ r. AreSound (queues_of r.queues r.filled) };
}

impl QueueReady {
    /// Makes queues of no thread. They take all the memory that they will need; `AllocError` where
    /// the host has less.
    pub fn new(alloc: Global) -> Result<Self, AllocError>
        ensures { IfOk result (λ ready. Hold ready []) }
    {
        let queues = Arena::new(alloc, MOST_THREADS as u32, LOWEST_PRIORITY)?;
        let filled = PrioritySet::new();
        Ok(QueueReady { queues, filled })
    }

    /// Lends the queues: `MOST_THREADS` nodes in `LOWEST_PRIORITY` lists. Node s is the thread of
    /// slot s, and list p - 1 has the threads of priority p in order.
    pub fn arena(&self) -> &Arena
        ensures same { result.now ≡ self.now.arena }
        ensures nodes { result.now.nodes ≡ MOST_THREADS }
        ensures lists { length result.now.lists ≡ LOWEST_PRIORITY }
        ensures queues { (xs : List Entry) → Hold self.now xs → AreQueues result.now xs }
    {
        &self.queues
    }

    /// Gives a word in which bit p is 1 exactly where the queue of priority p has a thread.
    pub fn bits(&self) -> u128
        ensures same { result ≡ self.now.bits }
        ensures filled { AreFilled result self.now.arena }
        ensures threads { (xs : List Entry) → Hold self.now xs → AreBits result xs }
    {
        self.filled.bits()
    }

    /// Finds the first thread of a priority.
    fn first_of(&self, priority: Priority) -> Option<Slot>
        ensures { result ≡ first_in self.now.arena priority }
    {
        let node = self.queues.first(queue_of(priority))?;
        Some(Slot::new(node as u8))
    }
}

impl Ready for QueueReady {
    ghost use Rattle.iop_ready.specs.Queues.{Hold};

    ghost stands = { Hold };

    ghost stands_sound = { λ ready xs hold. hold.sound };

    fn add_last(&mut self, slot: Slot, priority: Priority) {
        self.queues
            .push_back(queue_of(priority), slot.number().into());
        self.filled.insert(priority);
    }

    fn add_first(&mut self, slot: Slot, priority: Priority) {
        self.queues
            .push_front(queue_of(priority), slot.number().into());
        self.filled.insert(priority);
    }

    fn remove(&mut self, slot: Slot) {
        let node = slot.number().into();
        if let Some(queue) = self.queues.list_of(node) {
            self.queues.unlink(node);
            if self.queues.first(queue).is_none() {
                self.filled.remove(priority_of(queue));
            }
        }
    }

    fn rotate(&mut self, priority: Priority) {
        let queue = queue_of(priority);
        if let Some(node) = self.queues.first(queue) {
            self.queues.unlink(node);
            self.queues.push_back(queue, node);
        }
    }

    fn contains(&self, slot: Slot) -> bool {
        self.queues.list_of(slot.number().into()).is_some()
    }

    fn at(&self, priority: Priority, place: usize) -> Option<Slot> {
        let node = node_at(&self.queues, queue_of(priority), place)?;
        Some(Slot::new(node as u8))
    }

    fn best(&self) -> Option<Slot> {
        self.first_of(self.filled.best()?)
    }
}

/// Finds the node at a place of a list. None exactly where so many or fewer nodes stand in it.
fn node_at(queues: &Arena, list: u32, place: usize) -> Option<u32>
    requires list { list < length queues.now.lists }
    requires disjoint { AreDisjoint queues.now }
    ensures node { result ≡ slice_get (list_at list queues.now) place }
    ensures below { IfSome result (λ node. node < queues.now.nodes) }
{
    let mut node = queues.first(list)?;
    for _ in 0..place {
        node = queues.next(node)?;
    }
    Some(node)
}

/// Gives the list that is the queue of a priority.
fn queue_of(priority: Priority) -> u32
    ensures behind { result + 1 ≡ priority }
    ensures below { result < LOWEST_PRIORITY }
{
    u32::from(priority.number()) - 1
}

/// Gives the priority of which a list is the queue.
fn priority_of(queue: u32) -> Priority
    requires { queue < LOWEST_PRIORITY }
    ensures { result ≡ queue + 1 }
{
    Priority::new(queue as u8 + 1)
}
