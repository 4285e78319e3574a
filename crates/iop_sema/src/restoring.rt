//! How semaphores, and the threads that wait for them, are put back.

ghost use Rattle.std.specs.Prelude.{◌≡◌, if◌then◌else◌};
ghost use Rattle.iop_objects.specs.Restoring.{may_be_next, may_wait, with_last, with_next};
ghost use Rattle.iop_sema.specs.Restoring.{may_follow};
ghost use Rattle.iop_sema.specs.Semaphores.{waits};

use crate::semaphore::Semaphore;
use crate::semaphores::Semaphores;
use iop_objects::Waiter;

impl Semaphores {
    /// Puts a semaphore back behind all others, for which no thread waits. The next id is the one
    /// behind its own then. False exactly where its attribute is neither 0 nor `BY_PRIORITY`, its
    /// first count or its count is over its most, its id is below the next one or above `LAST_ID`,
    /// or `MOST_OBJECTS` are live; nothing changes then.
    pub fn put_back(&mut self, id: u32, semaphore: Semaphore) -> bool
        ensures may { result ≡ may_follow self.old id semaphore }
        ensures put { self.new ≡ if result then with_last self.old id semaphore else self.old }
    {
        if !semaphore.is_sound() {
            return false;
        }
        self.objects.put_back(id, semaphore)
    }

    /// Lets a thread wait for a semaphore again, behind all others. False exactly where no
    /// semaphore of this id is live, or `MOST_WAITERS` wait; nothing changes then.
    pub fn put_waiter(&mut self, id: u32, thread: u32, priority: u8) -> bool
        ensures may { result ≡ may_wait self.old id }
        ensures put { self.new ≡ if result
            then waits self.old id thread priority else self.old }
    {
        self.objects
            .put_waiter(id, Waiter { thread, wants: () }, priority)
    }

    /// Puts the id of the next semaphore back. False exactly where it is below the one that is next
    /// or above the one behind `LAST_ID`; nothing changes then.
    pub fn put_next(&mut self, id: u32) -> bool
        ensures may { result ≡ may_be_next self.old id }
        ensures put { self.new ≡ if result then with_next self.old id else self.old }
    {
        self.objects.put_next(id)
    }
}
