ghost use Rattle.std.specs.Prelude.{◌≡◌, ◌==◌, ◌<◌, ◌≤◌, [], IfOk, IfSome, if◌then◌else◌, is_some, option_map, find, length, position, true};
ghost use Rattle.iop_objects.specs.Objects.{AreObjects, no_objects, object_of, state_of, waiters_of, waiting, has_room, creates, deletes, with_state, waits, takes_next, takes_next_where, takes_where, drops, requeues};
ghost use Rattle.iop_objects.specs.Restoring.{has_place, with_last};
ghost use Rattle.iop_objects.specs.Standing.{IsInOrder};
ghost use Rattle.iop_base.specs.declared.limits.TheConstants.{LAST_ID};
ghost use Rattle.iop_objects.specs.declared.objects.TheConstants.{MOST_OBJECTS, MOST_WAITERS};

use crate::waiter::Waiter;
use iop_base::{Code, LAST_ID};
use iop_queues::{Condition, Numbers, Queued, Queues};
use std::alloc::{AllocError, Global};
use std::marker::Model;

/// The id of the first object.
pub const FIRST_ID: u32 = 1;

/// The most objects of one kind that can be live.
pub const MOST_OBJECTS: usize = 255;

/// The most threads that can wait for the objects of one kind.
pub const MOST_WAITERS: u32 = 255;

/// A live object.
#[derive(Clone, Copy, Drop)]
pub(crate) struct Live<A> {
    /// Its id.
    pub id: u32,
    /// What is known of it.
    pub state: A,
    /// The queue of those that wait for it.
    pub queue: u32,
}

/// The live objects of one kind, and the threads that wait for each. An object has an id, from
/// `FIRST_ID` on, that is never used again, and a state.
#[derive(Drop)]
pub struct Objects<A, W> {
    /// In the order of their ids.
    pub(crate) live: Vec<Live<A>>,
    /// The queues of no live object.
    free: Numbers<MOST_OBJECTS>,
    pub(crate) waiters: Queues<Waiter<W>, MOST_WAITERS>,
    pub(crate) next: u32,
}

impl<A, W> Model for Objects<A, W> {
    ghost use Rattle.std.specs.Prelude.{◌≤◌, vec_capacity};
    ghost use Rattle.iop_objects.specs.Objects.{Objects as Table};
    ghost use Rattle.iop_objects.specs.declared.objects.TheConstants.{MOST_OBJECTS};

    ghost Value = { Table A W };

    ghost use Rattle.iop_objects.specs.Standing.{objects_in, IsTable};

    ghost view = { λ s. objects_in s.live.items s.waiters s.next };

    ghost invariant = { λ s. IsTable s.live.items s.free s.waiters s.next
        × (MOST_OBJECTS ≤ vec_capacity s.live) };
}

impl<A: Copy, W: Copy> Objects<A, W> {
    /// Makes a table of no object. It takes all the memory that the table will need; `AllocError`
    /// where the host has less.
    pub fn new(alloc: Global) -> Result<Self, AllocError>
        ensures { IfOk result (λ objects. objects ≡ no_objects) }
    {
        let live = Vec::with_capacity(alloc, MOST_OBJECTS)?;
        let free = Numbers::new(alloc)?;
        let waiters = Queues::new(alloc, MOST_OBJECTS as u32)?;
        let next = FIRST_ID;
        Ok(Objects {
            live,
            free,
            waiters,
            next,
        })
    }

    /// Says whether there is room for one more object: fewer than `MOST_OBJECTS` are live, and an id
    /// is left.
    pub fn has_room(&self) -> bool
        ensures { result ≡ has_room self.now }
    {
        self.live.len() < MOST_OBJECTS && self.next <= LAST_ID
    }

    /// Makes an object for which no thread waits, and answers its id. `NO_MEMORY` exactly where
    /// `MOST_OBJECTS` are live or no id is left; nothing changes then.
    pub fn create(&mut self, state: A) -> Result<u32, Code>
        ensures answer { result ≡ (creates self.old state).0 }
        ensures left { self.new ≡ (creates self.old state).1 }
    {
        if self.next > LAST_ID {
            return Err(Code::NO_MEMORY);
        }
        let id = self.next;
        if self.put(id, state) {
            Ok(id)
        } else {
            Err(Code::NO_MEMORY)
        }
    }

    /// Puts an object behind all others, if there is a place. Its id is still to be given, and the
    /// next one is the one behind it then.
    pub(crate) fn put(&mut self, id: u32, state: A) -> bool
        requires order { self.old.next ≤ id }
        requires last { id ≤ LAST_ID }
        ensures may { result ≡ has_place self.old }
        ensures put { self.new ≡ if result then with_last self.old id state else self.old }
    {
        let Some(queue) = self.free.take() else {
            return false;
        };
        self.live.push_reserved(Live { id, state, queue });
        self.next = id + 1;
        true
    }

    /// Deletes an object, if it is live. No thread waits for it.
    pub fn delete(&mut self, id: u32)
        requires none { waiters_of self.old id ≡ [] }
        ensures { self.new ≡ deletes self.old id }
    {
        if let Some(place) = position(&self.live, id) {
            let object = self.live.remove(place);
            self.free.give_back(object.queue);
        }
    }

    /// Reads what is known of an object. None exactly where none of this id is live.
    pub fn state(&self, id: u32) -> Option<A>
        ensures known { result ≡ state_of self.now id }
        ensures sound { AreObjects self.now }
    {
        let place = position(&self.live, id)?;
        Some(self.live[place].state)
    }

    /// Changes what is known of an object, if it is live.
    pub fn set_state(&mut self, id: u32, state: A)
        ensures { self.new ≡ with_state self.old id state }
    {
        if let Some(place) = position(&self.live, id) {
            self.live[place].state = state;
        }
    }

    /// Tells how many threads wait for an object: 0 where none of this id is live.
    pub fn waiters(&self, id: u32) -> usize
        ensures count { result ≡ length (waiters_of self.now id) }
        ensures few { result ≤ MOST_WAITERS }
        ensures sound { AreObjects self.now }
    {
        match queue_of(&self.live, id) {
            Some(queue) => self.waiters.count(queue),
            None => 0,
        }
    }

    /// Lets a thread wait for a live object, behind all others.
    pub fn wait(&mut self, id: u32, waiter: Waiter<W>, priority: u8)
        requires live { is_some (object_of self.old.live id) ≡ true }
        requires room { waiting self.old < MOST_WAITERS }
        ensures { self.new ≡ waits self.old id (record { priority = priority; item = waiter }) }
    {
        if let Some(queue) = queue_of(&self.live, id) {
            let item = waiter;
            self.waiters.push(queue, Queued { priority, item });
        }
    }

    /// Takes the thread out that is next among those that wait for an object, by priority or by
    /// arrival. None exactly where none waits, or no object of this id is live.
    pub fn take_next(&mut self, id: u32, by_priority: bool) -> Option<Waiter<W>>
        ensures answer { result ≡ (takes_next self.old id by_priority).0 }
        ensures left { self.new ≡ (takes_next self.old id by_priority).1 }
    {
        let queue = queue_of(&self.live, id)?;
        let taken = self.waiters.take(queue, by_priority);
        taken.map(|queued| queued.item)
    }

    /// Takes the first thread out that waits for an object and of which a condition holds. None
    /// exactly where it holds of none, or no object of this id is live.
    pub fn take_where<C: Condition<Waiter<W>>>(
        &mut self,
        id: u32,
        condition: &C,
    ) -> Option<Waiter<W>>
        ensures answer { result ≡ (takes_where self.old id (C.holds_for condition.now)).0 }
        ensures left { self.new ≡ (takes_where self.old id (C.holds_for condition.now)).1 }
    {
        let queue = queue_of(&self.live, id)?;
        let taken = self.waiters.take_where(queue, condition);
        taken.map(|queued| queued.item)
    }

    /// Takes the thread out that is next, by priority or by arrival, among those that wait for an
    /// object and of which a condition holds. None exactly where it holds of none, or no object of
    /// this id is live.
    pub fn take_next_where<C: Condition<Waiter<W>>>(
        &mut self,
        id: u32,
        by_priority: bool,
        condition: &C,
    ) -> Option<Waiter<W>>
        ensures answer { let taken =
            takes_next_where self.old id by_priority (C.holds_for condition.now) in
            result ≡ taken.0 }
        ensures left { let taken =
            takes_next_where self.old id by_priority (C.holds_for condition.now) in
            self.new ≡ taken.1 }
    {
        let queue = queue_of(&self.live, id)?;
        let taken = self.waiters.take_next_where(queue, by_priority, condition);
        taken.map(|queued| queued.item)
    }

    /// Takes a thread out of those that wait for an object, if it does.
    pub fn drop_waiter(&mut self, id: u32, thread: u32)
        ensures { self.new ≡ drops self.old id thread }
    {
        if let Some(queue) = queue_of(&self.live, id) {
            self.waiters.remove_where(queue, &IsThread { id: thread });
        }
    }

    /// Changes the priority of a thread that waits for an object, if it does. By priority it waits
    /// behind all others then, by arrival it keeps its place.
    pub fn requeue(&mut self, id: u32, by_priority: bool, thread: u32, priority: u8)
        ensures { self.new ≡ requeues self.old id by_priority thread priority }
    {
        if let Some(queue) = queue_of(&self.live, id) {
            let condition = IsThread { id: thread };
            if by_priority {
                self.waiters.move_last(queue, &condition, priority);
            } else {
                self.waiters.set_priority(queue, &condition, priority);
            }
        }
    }
}

/// Finds where the object of an id stands, by halving.
fn position<A>(live: &[Live<A>], id: u32) -> Option<usize>
    requires { IsInOrder live.now }
    ensures place { result ≡ position (λ object. object.id == id) live.now }
    ensures below { IfSome result (λ place. place < length live.now) }
{
    let place = live.partition_point(|object| object.id < id);
    let object = live.get(place)?;
    (object.id == id).then_some(place)
}

/// Finds the queue of those that wait for an object.
pub(crate) fn queue_of<A>(live: &[Live<A>], id: u32) -> Option<u32>
    requires { IsInOrder live.now }
    ensures { result
        ≡ option_map (λ object. object.queue) (find (λ object. object.id == id) live.now) }
{
    let place = position(live, id)?;
    Some(live[place].queue)
}

/// It is the thread of an id.
#[derive(Drop)]
struct IsThread {
    /// The id.
    id: u32,
}

impl<W> Condition<Waiter<W>> for IsThread {
    ghost use Rattle.std.specs.Prelude.{◌==◌};

    ghost holds_for = { λ condition waiter. waiter.thread == condition.id };

    fn holds(&self, item: &Waiter<W>) -> bool {
        item.thread == self.id
    }
}
