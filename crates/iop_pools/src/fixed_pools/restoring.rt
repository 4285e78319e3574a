//! Fixed pools that are put back, one behind the other.

ghost use Rattle.std.specs.Prelude.{◌≡◌, if◌then◌else◌};
ghost use Rattle.iop_objects.specs.Restoring.{may_wait, may_be_next, with_next};
ghost use Rattle.iop_pools.specs.FixedPools.{waits};
ghost use Rattle.iop_pools.specs.FixedRestoring.{may_put, puts, may_put_block, puts_block};

use crate::fixed_layout::FixedLayout;
use crate::fixed_pools::FixedPools;
use iop_objects::Waiter;

impl FixedPools {
    /// Puts a pool back behind all others, of which no block is out and for which no thread waits.
    /// The next id is the one behind its own then.
    ///
    /// False, and no change, exactly where its attribute is neither 0 nor `BY_PRIORITY`, its base
    /// is below `FIRST_BASE` or no multiple of `BLOCK_UNIT`, the size of a block is not 1 to
    /// `MOST_BLOCK_BYTES` or no multiple of `FIXED_UNIT`, the count is not 1 to `MOST_BLOCKS`, it
    /// does not end below 2^32, its id is below the next one or above `LAST_ID`, or `MOST_OBJECTS`
    /// are live.
    pub fn put_back(&mut self, id: u32, layout: FixedLayout) -> bool
        ensures may { result ≡ may_put self.old id layout }
        ensures put { self.new ≡ if result then puts self.old id layout else self.old }
    {
        let Some(layout) = layout.checked() else {
            return false;
        };
        self.pools.put_back(id, layout)
    }

    /// Puts a block back behind all that are out of a pool. False, and no change, exactly where no
    /// pool of this id is live, none of its blocks begins at this address, or the block is not
    /// behind the last one that is out.
    pub fn put_block(&mut self, id: u32, block: u32) -> bool
        ensures may { result ≡ may_put_block self.old id block }
        ensures put { self.new ≡ if result then puts_block self.old id block else self.old }
    {
        let Some(layout) = self.pools.layout(id) else {
            return false;
        };
        self.pools.put_range(id, block, layout.unit)
    }

    /// Lets a thread wait for a block of a pool again, behind all others. False, and no change,
    /// exactly where no pool of this id is live, or `MOST_WAITERS` of iop_objects wait.
    pub fn put_waiter(&mut self, id: u32, thread: u32, priority: u8) -> bool
        ensures may { result ≡ may_wait self.old id }
        ensures put { self.new ≡ if result then waits self.old id thread priority else self.old }
    {
        self.pools
            .put_waiter(id, Waiter { thread, wants: () }, priority)
    }

    /// Puts the id of the next pool back. False, and no change, exactly where it is below the one
    /// that is next or above the one behind `LAST_ID`.
    pub fn put_next(&mut self, id: u32) -> bool
        ensures may { result ≡ may_be_next self.old id }
        ensures put { self.new ≡ if result then with_next self.old id else self.old }
    {
        self.pools.put_next(id)
    }
}
