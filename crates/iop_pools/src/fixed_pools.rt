ghost use Rattle.std.specs.Prelude.{◌≡◌, ◌+◌, ◌*◌, ◌^◌, ◌<◌, ◌≤◌, [], Some, None, IfOk, All, is_some, length, option_map, slice_get, true};
ghost use Rattle.iop_objects.specs.Objects.{AreObjects, no_objects, object_of, state_of, waiters_of, waiting, has_room, takes_next, drops, requeues};
ghost use Rattle.iop_objects.specs.declared.objects.TheConstants.{MOST_OBJECTS, MOST_WAITERS};
ghost use Rattle.iop_pools.specs.Laws.{Apart};
ghost use Rattle.iop_pools.specs.Pools.{Pool, is_by_priority, place_for};
ghost use Rattle.iop_pools.specs.FixedRestoring.{blocks_in, layout_of};
ghost use Rattle.iop_pools.specs.Standing.{ArePools};
ghost use Rattle.iop_pools.specs.declared.fixed_pool.TheConstants.{MOST_BLOCK_BYTES, MOST_BLOCKS};
ghost use Rattle.iop_pools.specs.FixedPools.{bytes, block_for, status_of, creates, deletes, takes, gives, waits};

mod restoring;

use crate::block_walk::BlockWalk;
use crate::fixed_layout::FixedLayout;
use crate::fixed_pool::{FixedPool, MOST_BLOCKS, block_for, bytes};
use crate::layout::Layout;
use crate::pools::Pools;
use iop_base::Code;
use iop_objects::Waiter;
use iop_queues::Walk;
use std::alloc::{AllocError, Global};
use std::marker::Model;

/// The live fixed pools, and the threads that wait for a block of each.
#[derive(Drop)]
pub struct FixedPools {
    pools: Pools<(), MOST_BLOCKS>,
}

impl Model for FixedPools {
    ghost use Rattle.std.specs.Prelude.{⊤};
    ghost use Rattle.iop_objects.specs.Objects.{Objects};
    ghost use Rattle.iop_pools.specs.Pools.{Pool};

    ghost Value = { Objects Pool ⊤ };

    ghost view = { λ s. s.pools };
}

impl FixedPools {
    /// Makes a table of no pool. It takes all the memory that the table will need; `AllocError`
    /// where the host has less.
    pub fn new(alloc: Global) -> Result<Self, AllocError>
        ensures { IfOk result (λ pools. pools ≡ no_objects) }
    {
        let pools = Pools::new(alloc)?;
        Ok(FixedPools { pools })
    }

    /// Tells how many pools are live.
    pub fn len(&self) -> usize
        ensures count { result ≡ length self.now.live }
        ensures few { result ≤ MOST_OBJECTS }
        ensures sound { ArePools MOST_BLOCKS self.now }
    {
        self.pools.len()
    }

    /// Reads the id of the live pool at a place in the order of ids, and how it is laid out. None
    /// exactly where so many or fewer are live.
    pub fn nth(&self, place: usize) -> Option<(u32, FixedLayout)>
        ensures { result
            ≡ option_map (λ o. (o.id, layout_of o.state)) (slice_get self.now.live place) }
    {
        let (id, layout) = self.pools.nth(place)?;
        Some((id, FixedLayout::of(layout)))
    }

    /// Walks over the addresses of the blocks that are out of a pool, in rising order. None exactly
    /// where none of this id is live.
    pub fn blocks(&self, id: u32) -> Option<BlockWalk<'_>>
        ensures { result ≡ option_map (λ x. blocks_in x.ranges) (state_of self.now id) }
    {
        let ranges = self.pools.ranges(id)?;
        Some(BlockWalk::new(ranges))
    }

    /// Walks over the threads that wait for a pool, in order of their arrival. None exactly where
    /// none of this id is live.
    pub fn walk(&self, id: u32) -> Option<Walk<'_, Waiter<()>>>
        ensures { result ≡ option_map (λ o. o.waiters) (object_of self.now.live id) }
    {
        self.pools.walk(id)
    }

    /// Tells the id of the next pool. Where none is left it is the one behind `LAST_ID`.
    pub fn next_id(&self) -> u32
        ensures { result ≡ self.now.next }
    {
        self.pools.next_id()
    }

    /// Reads what is known of a pool. None exactly where none of this id is live.
    pub fn get(&self, id: u32) -> Option<FixedPool>
        ensures status { result ≡ option_map status_of (state_of self.now id) }
        ensures apart { All (λ o. Apart o.state) self.now.live }
    {
        let layout = self.pools.layout(id)?;
        let count = layout.size / layout.unit;
        let taken = self.pools.count(id)?;
        Some(FixedPool {
            attr: layout.attr,
            option: layout.option,
            base: layout.base,
            size: layout.unit,
            count,
            free: count - taken as u32,
        })
    }

    /// Tells how many threads wait for a pool: 0 where none of this id is live.
    pub fn waiters(&self, id: u32) -> usize
        ensures count { result ≡ length (waiters_of self.now id) }
        ensures few { result ≤ MOST_WAITERS }
        ensures sound { AreObjects self.now }
    {
        self.pools.waiters(id)
    }

    /// Tells how many bytes a pool of so many blocks has: the size of a block is rounded up to a
    /// multiple of `FIXED_UNIT`. `ILLEGAL_ATTRIBUTE` exactly where the attribute is neither 0 nor
    /// `BY_PRIORITY`, else `ILLEGAL_SIZE` exactly where the size is not 1 to `MOST_BLOCK_BYTES`, or
    /// the count is not 1 to `MOST_BLOCKS`.
    pub fn bytes(attr: u32, size: u32, count: u32) -> Result<u32, Code>
        ensures { result ≡ bytes attr size count }
    {
        bytes(attr, size, count)
    }

    /// Says whether there is room for one more pool: fewer than `MOST_OBJECTS` of iop_objects are
    /// live, and an id is left.
    pub fn has_room(&self) -> bool
        ensures { result ≡ has_room self.now }
    {
        self.pools.has_room()
    }

    /// Makes a pool of so many blocks of a size, rounded up, all of which are free, and answers its
    /// id. Its memory begins at the address `base`. `NO_MEMORY` exactly where there is no room for
    /// one more pool; nothing changes then.
    pub fn create(
        &mut self,
        attr: u32,
        option: u32,
        size: u32,
        count: u32,
        base: u32,
    ) -> Result<u32, Code>
        requires some { 0 < size }
        requires size { size ≤ MOST_BLOCK_BYTES }
        requires count { count ≤ MOST_BLOCKS }
        requires inside { base + block_for size * count < 2 ^ 32 }
        ensures answer { result ≡ (creates self.old attr option size count base).0 }
        ensures left { self.new ≡ (creates self.old attr option size count base).1 }
    {
        let unit = block_for(size);
        self.pools.create(Layout {
            attr,
            option,
            base,
            size: unit * count,
            unit,
        })
    }

    /// Deletes a pool, for which no thread waits. `UNKNOWN_FIXED_POOL` exactly where none of this
    /// id is live.
    pub fn delete(&mut self, id: u32) -> Code
        requires none { waiters_of self.old id ≡ [] }
        ensures answer { result ≡ (deletes self.old id).0 }
        ensures left { self.new ≡ (deletes self.old id).1 }
    {
        if self.pools.layout(id).is_none() {
            return Code::UNKNOWN_FIXED_POOL;
        }
        self.pools.delete(id);
        Code::OK
    }

    /// Takes the least block of a pool that is free, and answers its address. `UNKNOWN_FIXED_POOL`
    /// exactly where none of this id is live, else `NO_MEMORY` exactly where no block is free;
    /// nothing changes then.
    pub fn take(&mut self, id: u32) -> Result<u32, Code>
        ensures answer { result ≡ (takes self.old id).0 }
        ensures left { self.new ≡ (takes self.old id).1 }
    {
        let Some(layout) = self.pools.layout(id) else {
            return Err(Code::UNKNOWN_FIXED_POOL);
        };
        match self.pools.take(id, layout.unit) {
            Some(block) => Ok(block),
            None => Err(Code::NO_MEMORY),
        }
    }

    /// Lets a thread wait for a block of a live pool, behind all others.
    pub fn wait(&mut self, id: u32, thread: u32, priority: u8)
        requires live { is_some (object_of self.old.live id) ≡ true }
        requires room { waiting self.old < MOST_WAITERS }
        ensures { self.new ≡ waits self.old id thread priority }
    {
        self.pools.wait(id, Waiter { thread, wants: () }, priority);
    }

    /// Gives a block back that was taken. It goes to the thread that is next among those that wait,
    /// which is answered, or is free. `UNKNOWN_FIXED_POOL` exactly where no pool of this id is
    /// live, else `ILLEGAL_BLOCK` exactly where no block of it is out at this address; nothing
    /// changes then.
    pub fn give(&mut self, id: u32, block: u32) -> Result<Option<u32>, Code>
        ensures answer { result ≡ (gives self.old id block).0 }
        ensures left { self.new ≡ (gives self.old id block).1 }
    {
        if self.pools.layout(id).is_none() {
            return Err(Code::UNKNOWN_FIXED_POOL);
        }
        if !self.pools.is_out(id, block) {
            return Err(Code::ILLEGAL_BLOCK);
        }
        if let Some(waiter) = self.pools.take_waiter(id) {
            return Ok(Some(waiter.thread));
        }
        self.pools.give_back(id, block);
        Ok(None)
    }

    /// Takes the thread out that is next among those that wait for a pool. None exactly where none
    /// waits, or no pool of this id is live.
    pub fn pop_waiter(&mut self, id: u32) -> Option<u32>
        ensures answer { let taken = takes_next self.old id (is_by_priority self.old id) in
            result ≡ option_map (λ waiter. waiter.thread) taken.0 }
        ensures left { self.new ≡ (takes_next self.old id (is_by_priority self.old id)).1 }
    {
        let waiter = self.pools.take_waiter(id)?;
        Some(waiter.thread)
    }

    /// Takes a thread out of those that wait for a pool, if it does.
    pub fn drop_waiter(&mut self, id: u32, thread: u32)
        ensures { self.new ≡ drops self.old id thread }
    {
        self.pools.drop_waiter(id, thread);
    }

    /// Changes the priority of a thread that waits for a pool, if it does. Where waiters are chosen
    /// by priority it waits behind all others then, else it keeps its place.
    pub fn requeue(&mut self, id: u32, thread: u32, priority: u8)
        ensures { self.new ≡ requeues self.old id (is_by_priority self.old id) thread priority }
    {
        self.pools.requeue(id, thread, priority);
    }
}
