//! Variable pools that are put back, one behind the other.

ghost use Rattle.std.specs.Prelude.{◌≡◌, if◌then◌else◌};
ghost use Rattle.iop_objects.specs.Restoring.{may_be_next, with_next};
ghost use Rattle.iop_pools.specs.Restoring.{holds_of, may_be_out, with_out_last};
ghost use Rattle.iop_pools.specs.VariableRestoring.{may_put, puts, may_be_wanted, may_put_waiter, puts_waiter};

use crate::variable_layout::VariableLayout;
use crate::variable_pool::VARIABLE_UNIT;
use crate::variable_pools::VariablePools;
use iop_objects::Waiter;

impl VariablePools {
    /// Puts a pool back behind all others, of which nothing is out and for which no thread waits.
    /// The next id is the one behind its own then.
    ///
    /// False, and no change, exactly where its attribute is neither 0 nor `BY_PRIORITY`, its base
    /// is below `FIRST_BASE` or no multiple of `BLOCK_UNIT`, its size is not `LEAST_BYTES` to
    /// `MOST_BYTES` or no multiple of `VARIABLE_UNIT`, it does not end below 2^32, its id is below
    /// the next one or above `LAST_ID`, or `MOST_OBJECTS` are live.
    pub fn put_back(&mut self, id: u32, layout: VariableLayout) -> bool
        ensures may { result ≡ may_put self.old id layout }
        ensures put { self.new ≡ if result then puts self.old id layout else self.old }
    {
        let Some(layout) = layout.checked() else {
            return false;
        };
        self.pools.put_back(id, layout)
    }

    /// Puts a range back behind all that are out of a pool. False, and no change, exactly where no
    /// pool of this id is live, the start is not so many units behind its base, the size is 0 or no
    /// multiple of its unit, the range begins before the last one ends, or it is not inside.
    pub fn put_range(&mut self, id: u32, start: u32, size: u32) -> bool
        ensures may { result ≡ may_be_out self.old id start size }
        ensures put { self.new ≡ if result then with_out_last self.old id start size else self.old }
    {
        self.pools.put_range(id, start, size)
    }

    /// Says whether a pool is live for which a thread may wait for so many bytes.
    fn may_be_wanted(&self, id: u32, size: u32) -> bool
        ensures { result ≡ holds_of self.now id (may_be_wanted size) }
    {
        match self.pools.layout(id) {
            Some(layout) => {
                VARIABLE_UNIT <= size && size % VARIABLE_UNIT == 0 && size <= layout.size
            }
            None => false,
        }
    }

    /// Lets a thread wait for so many bytes of a pool again, behind all others. False, and no
    /// change, exactly where no pool of this id is live, the size is 0, no multiple of
    /// `VARIABLE_UNIT` or over the pool's, or `MOST_WAITERS` of iop_objects wait.
    pub fn put_waiter(&mut self, id: u32, thread: u32, size: u32, priority: u8) -> bool
        ensures may { result ≡ may_put_waiter self.old id size }
        ensures put { self.new
            ≡ if result then puts_waiter self.old id thread priority size else self.old }
    {
        if !self.may_be_wanted(id, size) {
            return false;
        }
        let wants = size;
        self.pools
            .put_waiter(id, Waiter { thread, wants }, priority)
    }

    /// Puts the id of the next pool back. False, and no change, exactly where it is below the one
    /// that is next or above the one behind `LAST_ID`.
    pub fn put_next(&mut self, id: u32) -> bool
        ensures may { result ≡ may_be_next self.old id }
        ensures put { self.new ≡ if result then with_next self.old id else self.old }
    {
        self.pools.put_next(id)
    }
}
