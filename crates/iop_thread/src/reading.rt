//! What is read of the threads, in order: the live ones by their ids, the ready ones by priority.

ghost use Rattle.std.specs.Prelude.{◌≡◌, ◌≤◌, option_map, length};
ghost use Rattle.iop_ready.specs.declared.slot.TheConstants.{MOST_THREADS};
ghost use Rattle.iop_thread.specs.ThreadTable.{ThreadTable};
ghost use Rattle.iop_thread.specs.Reading.{next_above, ready_at};
ghost use Rattle.iop_thread.specs.Standing.{Stands};

use crate::thread::Thread;
use crate::threads::Threads;
use iop_ready::{Priority, Ready};

impl<R: Ready> Threads<R> {
    /// Tells how many threads are live.
    pub fn len(&self) -> usize
        ensures count { (s : ThreadTable) → Stands R.stands self.now s → result ≡ length s.live }
        ensures few { result ≤ MOST_THREADS }
    {
        self.places.len()
    }

    /// Finds the live thread of the least id above this one. None exactly where no live thread has
    /// an id above it.
    pub fn next_above(&self, id: u32) -> Option<&Thread>
        ensures { (s : ThreadTable) → Stands R.stands self.now s
            → option_map (λ t. t.now) result ≡ next_above s.live id }
    {
        let next = self.places.least_above(id)?;
        self.get(next)
    }

    /// Tells the id of the thread at a place among the ready ones of a priority, in order of their
    /// arrival. None exactly where so many or fewer of the priority are ready.
    pub fn ready_at(&self, priority: Priority, place: usize) -> Option<u32>
        ensures { (s : ThreadTable) → Stands R.stands self.now s
            → result ≡ ready_at s priority place }
    {
        let slot = self.ready.at(priority, place)?;
        let found = self.found_in(slot)?;
        Some(found.thread.id)
    }

    /// Tells the id of the next thread that is made. Where none is left it is the one behind
    /// `LAST_ID`.
    pub fn next_id(&self) -> u32
        ensures { (s : ThreadTable) → Stands R.stands self.now s → result ≡ s.next }
    {
        self.next
    }
}
