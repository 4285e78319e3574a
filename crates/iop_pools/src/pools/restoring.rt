//! Pools that are put back, one behind the other.

ghost use Rattle.std.specs.Prelude.{◌≡◌, if◌then◌else◌, []};
ghost use Rattle.iop_objects.specs.Objects.{waits};
ghost use Rattle.iop_objects.specs.Restoring.{may_follow, with_last, may_wait, may_be_next, with_next};
ghost use Rattle.iop_pools.specs.Restoring.{may_be_out, with_out_last};
ghost use Rattle.iop_pools.specs.Standing.{pool_with, IsPool};

use crate::layout::Layout;
use crate::out::Out;
use crate::pools::Pools;
use crate::range::Range;
use crate::walks;
use iop_objects::Waiter;

impl<W: Copy, const MOST: usize> Pools<W, MOST> {
    /// Puts a pool back behind all others, of which nothing is out and for which no thread waits.
    /// False exactly where its id is below the next one or above `LAST_ID`, or `MOST_OBJECTS` are
    /// live; nothing changes then.
    pub(crate) fn put_back(&mut self, id: u32, layout: Layout) -> bool
        requires { IsPool MOST (pool_with layout []) }
        ensures may { result ≡ may_follow self.old id }
        ensures put { self.new
            ≡ if result then with_last self.old id (pool_with layout []) else self.old }
    {
        self.objects.put_back(id, layout)
    }

    /// Puts a range back behind all that are out of a pool. False exactly where no pool of this id
    /// is live, or the range is not some units of it, behind all others; nothing changes then.
    pub(crate) fn put_range(&mut self, id: u32, start: u32, size: u32) -> bool
        ensures may { result ≡ may_be_out self.old id start size }
        ensures put { self.new ≡ if result then with_out_last self.old id start size else self.old }
    {
        let Some(layout) = self.objects.state(id) else {
            return false;
        };
        let last = walks::last(&self.outs, id);
        if !layout.lies_behind(last, start, size) {
            return false;
        }
        let range = Range { start, size };
        self.outs.push_reserved(Out { pool: id, range });
        true
    }

    /// Lets a thread wait for a pool again, behind all others. False exactly where no pool of this
    /// id is live, or `MOST_WAITERS` wait; nothing changes then.
    pub(crate) fn put_waiter(&mut self, id: u32, waiter: Waiter<W>, priority: u8) -> bool
        ensures may { result ≡ may_wait self.old id }
        ensures put { self.new ≡ if result
            then waits self.old id (record { priority = priority; item = waiter }) else self.old }
    {
        self.objects.put_waiter(id, waiter, priority)
    }

    /// Puts the id of the next pool back. False exactly where it is below the one that is next or
    /// above the one behind `LAST_ID`; nothing changes then.
    pub(crate) fn put_next(&mut self, id: u32) -> bool
        ensures may { result ≡ may_be_next self.old id }
        ensures put { self.new ≡ if result then with_next self.old id else self.old }
    {
        self.objects.put_next(id)
    }
}
