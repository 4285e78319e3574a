//! The objects, read in the order of their ids and put back.

ghost use Rattle.std.specs.Prelude.{◌≡◌, ◌≤◌, if◌then◌else◌, option_map, length, slice_get};
ghost use Rattle.iop_base.specs.declared.limits.TheConstants.{LAST_ID};
ghost use Rattle.iop_objects.specs.Objects.{AreObjects, object_of, waits};
ghost use Rattle.iop_objects.specs.Restoring.{is_ahead, may_follow, with_last, may_wait, may_be_next, with_next};
ghost use Rattle.iop_objects.specs.declared.objects.TheConstants.{MOST_OBJECTS};

use crate::objects::{MOST_WAITERS, Objects, queue_of};
use crate::waiter::Waiter;
use iop_base::LAST_ID;
use iop_queues::Walk;

impl<A: Copy, W: Copy> Objects<A, W> {
    /// Tells how many objects are live.
    pub fn len(&self) -> usize
        ensures count { result ≡ length self.now.live }
        ensures few { result ≤ MOST_OBJECTS }
        ensures sound { AreObjects self.now }
    {
        self.live.len()
    }

    /// Reads the id of the live object at a place in the order of ids, and what is known of it.
    /// None exactly where so many or fewer are live.
    pub fn nth(&self, place: usize) -> Option<(u32, A)>
        ensures { result ≡ option_map (λ o. (o.id, o.state)) (slice_get self.now.live place) }
    {
        let object = self.live.get(place)?;
        Some((object.id, object.state))
    }

    /// Walks over the threads that wait for an object, in order of their arrival. None exactly
    /// where none of this id is live.
    pub fn walk(&self, id: u32) -> Option<Walk<'_, Waiter<W>>>
        ensures { result ≡ option_map (λ o. o.waiters) (object_of self.now.live id) }
    {
        let queue = queue_of(&self.live, id)?;
        Some(self.waiters.walk(queue))
    }

    /// Tells the id of the next object. Where none is left it is the one behind `LAST_ID`.
    pub fn next_id(&self) -> u32
        ensures { result ≡ self.now.next }
    {
        self.next
    }

    /// Puts an object back behind all others, for which no thread waits. The next id is the one
    /// behind its own then. False exactly where its id is below the next one or above `LAST_ID`, or
    /// `MOST_OBJECTS` are live; nothing changes then.
    pub fn put_back(&mut self, id: u32, state: A) -> bool
        ensures may { result ≡ may_follow self.old id }
        ensures put { self.new ≡ if result then with_last self.old id state else self.old }
    {
        if !self.is_ahead(id, LAST_ID) {
            return false;
        }
        self.put(id, state)
    }

    /// Lets a thread wait for an object again, behind all others. False exactly where no object of
    /// this id is live, or `MOST_WAITERS` wait; nothing changes then.
    pub fn put_waiter(&mut self, id: u32, waiter: Waiter<W>, priority: u8) -> bool
        ensures may { result ≡ may_wait self.old id }
        ensures put { self.new ≡ if result
            then waits self.old id (record { priority = priority; item = waiter }) else self.old }
    {
        if !self.may_wait(id) {
            return false;
        }
        self.wait(id, waiter, priority);
        true
    }

    /// Puts the id of the next object back. False exactly where it is below the one that is next or
    /// above the one behind `LAST_ID`; nothing changes then.
    pub fn put_next(&mut self, id: u32) -> bool
        ensures may { result ≡ may_be_next self.old id }
        ensures put { self.new ≡ if result then with_next self.old id else self.old }
    {
        if !self.is_ahead(id, LAST_ID + 1) {
            return false;
        }
        self.next = id;
        true
    }

    /// Says whether an id is still to be given, and at most a last one.
    fn is_ahead(&self, id: u32, last: u32) -> bool
        ensures { result ≡ is_ahead self.now id last }
    {
        self.next <= id && id <= last
    }

    /// Says whether one more thread may wait for the object of an id.
    fn may_wait(&self, id: u32) -> bool
        ensures { result ≡ may_wait self.now id }
    {
        self.state(id).is_some() && self.waiters.len() < MOST_WAITERS as usize
    }
}
