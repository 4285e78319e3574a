ghost use Rattle.std.specs.Prelude.{◌≡◌, ◌+◌, ◌^◌, ◌<◌, ◌≤◌, [], Some, None, IfOk, All, is_some, length, option_map, slice_get, true};
ghost use Rattle.iop_objects.specs.Objects.{AreObjects, no_objects, object_of, state_of, waiters_of, waiting, has_room, takes_next, drops, requeues};
ghost use Rattle.iop_objects.specs.declared.objects.TheConstants.{MOST_OBJECTS, MOST_WAITERS};
ghost use Rattle.iop_pools.specs.Laws.{Apart};
ghost use Rattle.iop_pools.specs.Pools.{Pool, is_by_priority};
ghost use Rattle.iop_pools.specs.Standing.{ArePools};
ghost use Rattle.iop_pools.specs.VariableRestoring.{layout_of};
ghost use Rattle.iop_pools.specs.declared.variable_pool.TheConstants.{MOST_BYTES, MOST_RANGES};
ghost use Rattle.iop_pools.specs.VariablePools.{bytes, pool_length, place_of, status_of, creates, deletes, takes, gives, waits, meets_next};

mod restoring;

use crate::layout::Layout;
use crate::met::Met;
use crate::pools::Pools;
use crate::range_walk::RangeWalk;
use crate::variable_layout::VariableLayout;
use crate::variable_pool::{MOST_RANGES, VARIABLE_UNIT, VariablePool, bytes, pool_length};
use iop_base::Code;
use iop_objects::Waiter;
use iop_queues::{Condition, Walk};
use std::alloc::{AllocError, Global};
use std::marker::Model;

/// The live variable pools, and the threads that wait for memory of each.
#[derive(Drop)]
pub struct VariablePools {
    pools: Pools<u32, MOST_RANGES>,
}

impl Model for VariablePools {
    ghost use Rattle.std.specs.Prelude.{ℕ};
    ghost use Rattle.iop_objects.specs.Objects.{Objects};
    ghost use Rattle.iop_pools.specs.Pools.{Pool};

    ghost Value = { Objects Pool ℕ };

    ghost use Rattle.iop_pools.specs.Standing.{AreVariable};

    ghost view = { λ s. s.pools };

    ghost invariant = { λ s. AreVariable s.pools };
}

/// The greatest size for which there is room, as a condition on the threads that wait.
#[derive(Drop)]
struct Room(u32);

impl Condition<Waiter<u32>> for Room {
    ghost use Rattle.std.specs.Prelude.{◌==◌, ◌&&◌, not, nat_le};

    ghost holds_for = { λ room waiter. not (waiter.wants == 0) && nat_le waiter.wants room.0 };

    fn holds(&self, waiter: &Waiter<u32>) -> bool {
        waiter.wants != 0 && waiter.wants <= self.0
    }
}

impl VariablePools {
    /// Makes a table of no pool. It takes all the memory that the table will need; `AllocError`
    /// where the host has less.
    pub fn new(alloc: Global) -> Result<Self, AllocError>
        ensures { IfOk result (λ pools. pools ≡ no_objects) }
    {
        let pools = Pools::new(alloc)?;
        Ok(VariablePools { pools })
    }

    /// Tells how many pools are live.
    pub fn len(&self) -> usize
        ensures count { result ≡ length self.now.live }
        ensures few { result ≤ MOST_OBJECTS }
        ensures sound { ArePools MOST_RANGES self.now }
    {
        self.pools.len()
    }

    /// Reads the id of the live pool at a place in the order of ids, and how it is laid out. None
    /// exactly where so many or fewer are live.
    pub fn nth(&self, place: usize) -> Option<(u32, VariableLayout)>
        ensures { result
            ≡ option_map (λ o. (o.id, layout_of o.state)) (slice_get self.now.live place) }
    {
        let (id, layout) = self.pools.nth(place)?;
        Some((id, VariableLayout::of(layout)))
    }

    /// Walks over the ranges that are out of a pool, in order of their starts. None exactly where
    /// none of this id is live.
    pub fn ranges(&self, id: u32) -> Option<RangeWalk<'_>>
        ensures { result ≡ option_map (λ x. x.ranges) (state_of self.now id) }
    {
        self.pools.ranges(id)
    }

    /// Walks over the threads that wait for a pool, in order of their arrival. None exactly where
    /// none of this id is live.
    pub fn walk(&self, id: u32) -> Option<Walk<'_, Waiter<u32>>>
        ensures { result ≡ option_map (λ o. o.waiters) (object_of self.now.live id) }
    {
        self.pools.walk(id)
    }

    /// Tells the id of the next pool. Where none is left it is the one behind `LAST_ID`.
    pub fn next_id(&self) -> u32
        ensures { result ≡ self.now.next }
    {
        self.pools.next_id()
    }

    /// Reads what is known of a pool. None exactly where none of this id is live.
    pub fn get(&self, id: u32) -> Option<VariablePool>
        ensures status { result ≡ option_map status_of (state_of self.now id) }
        ensures apart { All (λ o. Apart o.state) self.now.live }
    {
        let layout = self.pools.layout(id)?;
        let free = self.pools.total_free(id)?;
        let greatest = self.pools.greatest_free(id)?;
        Some(VariablePool {
            attr: layout.attr,
            option: layout.option,
            base: layout.base,
            size: layout.size,
            free,
            greatest,
        })
    }

    /// Tells how many threads wait for a pool: 0 where none of this id is live.
    pub fn waiters(&self, id: u32) -> usize
        ensures count { result ≡ length (waiters_of self.now id) }
        ensures few { result ≤ MOST_WAITERS }
        ensures sound { AreObjects self.now }
    {
        self.pools.waiters(id)
    }

    /// Tells how many bytes a pool of a size has: the size, rounded up to a multiple of
    /// `VARIABLE_UNIT`. `ILLEGAL_ATTRIBUTE` exactly where the attribute is neither 0 nor
    /// `BY_PRIORITY`, else `ILLEGAL_SIZE` exactly where the size is not `LEAST_BYTES` to
    /// `MOST_BYTES`.
    pub fn bytes(attr: u32, size: u32) -> Result<u32, Code>
        ensures { result ≡ bytes attr size }
    {
        bytes(attr, size)
    }

    /// Says whether there is room for one more pool: fewer than `MOST_OBJECTS` of iop_objects are
    /// live, and an id is left.
    pub fn has_room(&self) -> bool
        ensures { result ≡ has_room self.now }
    {
        self.pools.has_room()
    }

    /// Makes a pool of a size, rounded up, of which nothing is out, and answers its id. Its memory
    /// begins at the address `base`. `NO_MEMORY` exactly where there is no room for one more pool;
    /// nothing changes then.
    pub fn create(&mut self, attr: u32, option: u32, size: u32, base: u32) -> Result<u32, Code>
        requires size { size ≤ MOST_BYTES }
        requires inside { base + pool_length size < 2 ^ 32 }
        ensures answer { result ≡ (creates self.old attr option size base).0 }
        ensures left { self.new ≡ (creates self.old attr option size base).1 }
    {
        self.pools.create(Layout {
            attr,
            option,
            base,
            size: pool_length(size),
            unit: VARIABLE_UNIT,
        })
    }

    /// Deletes a pool, for which no thread waits. `UNKNOWN_VARIABLE_POOL` exactly where none of
    /// this id is live.
    pub fn delete(&mut self, id: u32) -> Code
        requires none { waiters_of self.old id ≡ [] }
        ensures answer { result ≡ (deletes self.old id).0 }
        ensures left { self.new ≡ (deletes self.old id).1 }
    {
        if self.pools.layout(id).is_none() {
            return Code::UNKNOWN_VARIABLE_POOL;
        }
        self.pools.delete(id);
        Code::OK
    }

    /// Takes memory for a size, rounded up, at the least place where it is free, and answers its
    /// address. `UNKNOWN_VARIABLE_POOL` exactly where none of this id is live, else `ILLEGAL_SIZE`
    /// exactly where the size is 0 or over the pool's, else `NO_MEMORY` exactly where it does not
    /// fit; nothing changes then.
    pub fn take(&mut self, id: u32, size: u32) -> Result<u32, Code>
        ensures answer { result ≡ (takes self.old id size).0 }
        ensures left { self.new ≡ (takes self.old id size).1 }
    {
        let Some(layout) = self.pools.layout(id) else {
            return Err(Code::UNKNOWN_VARIABLE_POOL);
        };
        if size == 0 || size > layout.size {
            return Err(Code::ILLEGAL_SIZE);
        }
        match self.pools.take(id, size) {
            Some(block) => Ok(block),
            None => Err(Code::NO_MEMORY),
        }
    }

    /// Lets a thread wait for memory of a live pool, behind all others: for a size that is rounded
    /// up. The size is one that the pool can have, and does not fit now.
    pub fn wait(&mut self, id: u32, thread: u32, priority: u8, size: u32)
        requires live { is_some (object_of self.old.live id) ≡ true }
        requires room { waiting self.old < MOST_WAITERS }
        requires size { 0 < size }
        requires within { (x : Pool) → state_of self.old id ≡ Some x → size ≤ x.size }
        requires full { (x : Pool) → state_of self.old id ≡ Some x → place_of x size ≡ None }
        ensures { self.new ≡ waits self.old id thread priority size }
    {
        self.pools.wait(
            id,
            Waiter {
                thread,
                wants: pool_length(size),
            },
            priority,
        );
    }

    /// Gives memory back that was taken, and starts at this address. `UNKNOWN_VARIABLE_POOL`
    /// exactly where no pool of this id is live, else `ILLEGAL_BLOCK` exactly where none starts
    /// there; nothing changes then.
    pub fn give(&mut self, id: u32, block: u32) -> Code
        ensures answer { result ≡ (gives self.old id block).0 }
        ensures left { self.new ≡ (gives self.old id block).1 }
    {
        match self.pools.give_back(id, block) {
            Some(true) => Code::OK,
            Some(false) => Code::ILLEGAL_BLOCK,
            None => Code::UNKNOWN_VARIABLE_POOL,
        }
    }

    /// Takes the thread out that is next among those that wait for a pool and whose size fits now,
    /// and its memory with it. None exactly where the size of none fits, or no pool of this id is
    /// live; nothing changes then.
    pub fn next_met(&mut self, id: u32) -> Option<Met>
        ensures answer { result ≡ (meets_next self.old id).0 }
        ensures left { self.new ≡ (meets_next self.old id).1 }
    {
        let room = self.pools.room(id)?;
        let waiter = self.pools.take_waiter_where(id, &Room(room))?;
        let block = self.pools.take(id, waiter.wants)?;
        Some(Met {
            thread: waiter.thread,
            block,
        })
    }

    /// Takes the thread out that is next among those that wait for a pool. None exactly where none
    /// waits, or no pool of this id is live.
    pub fn pop_waiter(&mut self, id: u32) -> Option<u32>
        ensures answer { let taken = takes_next self.old id (is_by_priority self.old id) in
            result ≡ option_map (λ waiter. waiter.thread) taken.0 }
        ensures left { self.new ≡ (takes_next self.old id (is_by_priority self.old id)).1 }
    {
        let waiter = self.pools.take_waiter(id)?;
        Some(waiter.thread)
    }

    /// Takes a thread out of those that wait for a pool, if it does.
    pub fn drop_waiter(&mut self, id: u32, thread: u32)
        ensures { self.new ≡ drops self.old id thread }
    {
        self.pools.drop_waiter(id, thread);
    }

    /// Changes the priority of a thread that waits for a pool, if it does. Where waiters are chosen
    /// by priority it waits behind all others then, else it keeps its place.
    pub fn requeue(&mut self, id: u32, thread: u32, priority: u8)
        ensures { self.new ≡ requeues self.old id (is_by_priority self.old id) thread priority }
    {
        self.pools.requeue(id, thread, priority);
    }
}
