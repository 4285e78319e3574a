//! How event flags, and the threads that wait for them, are put back.

ghost use Rattle.std.specs.Prelude.{◌≡◌, if◌then◌else◌};
ghost use Rattle.iop_event.specs.EventFlags.{waits};
ghost use Rattle.iop_event.specs.Restoring.{is_open, may_follow, may_wait};
ghost use Rattle.iop_objects.specs.Restoring.{may_be_next, with_last, with_next};

use crate::event_flag::{EventFlag, is_attribute};
use crate::event_flags::EventFlags;
use crate::wanted::Wanted;
use iop_objects::Waiter;

impl EventFlags {
    /// Puts an event flag back behind all others, for which no thread waits. The next id is the one
    /// behind its own then. False exactly where its attribute is neither 0 nor `MANY_WAITERS`, its
    /// id is below the next one or above `LAST_ID`, or `MOST_OBJECTS` are live; nothing changes
    /// then.
    pub fn put_back(&mut self, id: u32, flag: EventFlag) -> bool
        ensures may { result ≡ may_follow self.old id flag }
        ensures put { self.new ≡ if result then with_last self.old id flag else self.old }
    {
        if !is_attribute(flag.attr) {
            return false;
        }
        self.objects.put_back(id, flag)
    }

    /// Lets a thread wait for bits of an event flag again, behind all others. False exactly where
    /// it asks for no bit, no event flag of this id is live, a thread waits and one alone may, or
    /// `MOST_WAITERS` wait; nothing changes then.
    pub fn put_waiter(&mut self, id: u32, thread: u32, priority: u8, wanted: Wanted) -> bool
        ensures may { result ≡ may_wait self.old id wanted }
        ensures put { self.new ≡ if result
            then waits self.old id thread priority wanted else self.old }
    {
        if wanted.bits == 0 {
            return false;
        }
        if !self.is_open(id) {
            return false;
        }
        let waiter = Waiter {
            thread,
            wants: wanted,
        };
        self.objects.put_waiter(id, waiter, priority)
    }

    /// Puts the id of the next event flag back. False exactly where it is below the one that is
    /// next or above the one behind `LAST_ID`; nothing changes then.
    pub fn put_next(&mut self, id: u32) -> bool
        ensures may { result ≡ may_be_next self.old id }
        ensures put { self.new ≡ if result then with_next self.old id else self.old }
    {
        self.objects.put_next(id)
    }

    /// Says whether the event flag of an id is live, and none waits for it where one alone may.
    fn is_open(&self, id: u32) -> bool
        ensures { result ≡ is_open self.now id }
    {
        match self.get(id) {
            Some(flag) => !self.is_taken(id, &flag),
            None => false,
        }
    }
}
