ghost use Rattle.std.specs.Prelude.{◌≡◌, ◌*◌, ◌^◌, ◌<◌, ◌≤◌, [], IfOk, IfSome, Some, is_some, option_map, option_and_then, slice_get, true, length};
ghost use Rattle.iop_objects.specs.Objects.{AreObjects, no_objects, object_of, state_of, waiters_of, waiting, has_room, creates, deletes, waits, takes_next, takes_next_where, drops, requeues};
ghost use Rattle.iop_objects.specs.declared.objects.TheConstants.{MOST_OBJECTS, MOST_WAITERS};
ghost use Rattle.iop_pools.specs.Pools.{Pool, is_by_priority, free_of, greatest_free, room_of, takes_place, frees, has_out};
ghost use Rattle.iop_pools.specs.Standing.{layout_of, pool_with, IsPool, ArePools};

mod restoring;

use crate::layout::Layout;
use crate::out::Out;
use crate::range::Range;
use crate::range_walk::RangeWalk;
use crate::walks;
use iop_base::Code;
use iop_objects::{MOST_OBJECTS, Objects, Waiter};
use iop_queues::{Condition, Walk};
use std::alloc::{AllocError, Global};
use std::marker::Model;

/// The live pools of one kind, of which each has `MOST` units at most, and the threads that wait
/// for each.
#[derive(Drop)]
pub(crate) struct Pools<W, const MOST: usize> {
    objects: Objects<Layout, W>,
    /// The ranges that are out of all pools: those of each in order of their starts.
    outs: Vec<Out>,
}

impl<W, const MOST: usize> Model for Pools<W, MOST> {
    ghost use Rattle.std.specs.Prelude.{◌*◌, ◌≤◌, vec_capacity};
    ghost use Rattle.iop_objects.specs.Objects.{Objects};
    ghost use Rattle.iop_objects.specs.declared.objects.TheConstants.{MOST_OBJECTS};
    ghost use Rattle.iop_pools.specs.Pools.{Pool};

    ghost Value = { Objects Pool W };

    ghost use Rattle.iop_pools.specs.Standing.{pools_in, IsTable};

    ghost view = { λ s. pools_in s.objects s.outs.items };

    ghost invariant = { λ s. IsTable s.objects s.outs.items MOST
        × (MOST_OBJECTS * MOST ≤ vec_capacity s.outs) };
}

impl<W: Copy, const MOST: usize> Pools<W, MOST> {
    /// Makes a table of no pool. It takes all the memory that the table will need; `AllocError`
    /// where the host has less.
    pub(crate) fn new(alloc: Global) -> Result<Self, AllocError>
        requires { MOST < 2 ^ 32 }
        ensures { IfOk result (λ pools. pools ≡ no_objects) }
    {
        let objects = Objects::new(alloc)?;
        let outs = Vec::with_capacity(alloc, MOST_OBJECTS * MOST)?;
        Ok(Pools { objects, outs })
    }

    /// Tells how many pools are live.
    pub(crate) fn len(&self) -> usize
        ensures count { result ≡ length self.now.live }
        ensures few { result ≤ MOST_OBJECTS }
        ensures pools { ArePools MOST self.now }
    {
        self.objects.len()
    }

    /// Reads the id of the live pool at a place in the order of ids, and what is known of it but
    /// for its ranges. None exactly where so many or fewer are live.
    pub(crate) fn nth(&self, place: usize) -> Option<(u32, Layout)>
        ensures known { result
            ≡ option_map (λ o. (o.id, layout_of o.state)) (slice_get self.now.live place) }
        ensures unit { IfSome result (λ found. 0 < found.1.unit) }
    {
        self.objects.nth(place)
    }

    /// Walks over the ranges that are out of a pool. None exactly where none of this id is live.
    pub(crate) fn ranges(&self, id: u32) -> Option<RangeWalk<'_>>
        ensures { result ≡ option_map (λ x. x.ranges) (state_of self.now id) }
    {
        let _ = self.objects.state(id)?;
        Some(RangeWalk::new(&self.outs, id))
    }

    /// Walks over the threads that wait for a pool. None exactly where none of this id is live.
    pub(crate) fn walk(&self, id: u32) -> Option<Walk<'_, Waiter<W>>>
        ensures { result ≡ option_map (λ o. o.waiters) (object_of self.now.live id) }
    {
        self.objects.walk(id)
    }

    /// Tells the id of the next pool.
    pub(crate) fn next_id(&self) -> u32
        ensures { result ≡ self.now.next }
    {
        self.objects.next_id()
    }

    /// Reads what is known of a pool but for its ranges. None exactly where none of this id is
    /// live.
    pub(crate) fn layout(&self, id: u32) -> Option<Layout>
        ensures known { result ≡ option_map layout_of (state_of self.now id) }
        ensures sound { (x : Pool) → state_of self.now id ≡ Some x → IsPool MOST x }
        ensures pools { ArePools MOST self.now }
    {
        self.objects.state(id)
    }

    /// Says whether the threads that wait for a pool are chosen by priority: false where none of
    /// this id is live.
    fn by_priority(&self, id: u32) -> bool
        ensures { result ≡ is_by_priority self.now id }
    {
        match self.layout(id) {
            Some(layout) => layout.by_priority(),
            None => false,
        }
    }

    /// Tells how many threads wait for a pool: 0 where none of this id is live.
    pub(crate) fn waiters(&self, id: u32) -> usize
        ensures count { result ≡ length (waiters_of self.now id) }
        ensures few { result ≤ MOST_WAITERS }
        ensures sound { AreObjects self.now }
    {
        self.objects.waiters(id)
    }

    /// Tells the size of the greatest free range of a pool. None exactly where none of this id is
    /// live.
    pub(crate) fn greatest_free(&self, id: u32) -> Option<u32>
        ensures { result ≡ option_map greatest_free (state_of self.now id) }
    {
        let layout = self.objects.state(id)?;
        let end = layout.base + layout.size;
        Some(walks::greatest_free(&self.outs, id, layout.base, end))
    }

    /// Counts the bytes that are free in a pool. None exactly where none of this id is live.
    pub(crate) fn total_free(&self, id: u32) -> Option<u32>
        ensures { result ≡ option_map free_of (state_of self.now id) }
    {
        let layout = self.objects.state(id)?;
        let end = layout.base + layout.size;
        Some(walks::total_free(&self.outs, id, layout.base, end))
    }

    /// Counts the ranges that are out of a pool. None exactly where none of this id is live.
    pub(crate) fn count(&self, id: u32) -> Option<usize>
        ensures { result ≡ option_map (λ x. length x.ranges) (state_of self.now id) }
    {
        let _ = self.objects.state(id)?;
        Some(walks::count(&self.outs, id))
    }

    /// Says whether a range of a pool starts at an address.
    pub(crate) fn is_out(&self, id: u32, block: u32) -> bool
        ensures { result ≡ has_out self.now id block }
    {
        walks::place_of(&self.outs, id, block).is_some()
    }

    /// Says whether there is room for one more pool.
    pub(crate) fn has_room(&self) -> bool
        ensures { result ≡ has_room self.now }
    {
        self.objects.has_room()
    }

    /// Makes a pool of which nothing is out, and answers its id. `NO_MEMORY` exactly where there is
    /// no room for one more; nothing changes then.
    pub(crate) fn create(&mut self, layout: Layout) -> Result<u32, Code>
        requires { IsPool MOST (pool_with layout []) }
        ensures answer { result ≡ (creates self.old (pool_with layout [])).0 }
        ensures left { self.new ≡ (creates self.old (pool_with layout [])).1 }
    {
        self.objects.create(layout)
    }

    /// Deletes a pool, if it is live. No thread waits for it.
    pub(crate) fn delete(&mut self, id: u32)
        requires none { waiters_of self.old id ≡ [] }
        ensures { self.new ≡ deletes self.old id }
    {
        self.objects.delete(id);
        self.outs.retain(|out| out.pool != id);
    }

    /// Takes memory for a size, rounded up to units, at the least place of a pool where it is free,
    /// and answers the place. None exactly where there is none, or no pool of this id is live;
    /// nothing changes then.
    pub(crate) fn take(&mut self, id: u32, size: u32) -> Option<u32>
        requires { 0 < size }
        ensures answer { result ≡ (takes_place self.old id size).0 }
        ensures left { self.new ≡ (takes_place self.old id size).1 }
    {
        let layout = self.objects.state(id)?;
        let units = size.div_ceil(layout.unit);
        if units > layout.size / layout.unit {
            return None;
        }
        let len = units * layout.unit;
        let end = layout.base + layout.size;
        let start = walks::first_free(&self.outs, id, layout.base, end, len)?;
        walks::put(&mut self.outs, id, Range { start, size: len });
        Some(start)
    }

    /// Tells the greatest size for which a pool has room. None exactly where none of this id is
    /// live.
    pub(crate) fn room(&self, id: u32) -> Option<u32>
        ensures known { result ≡ option_map room_of (state_of self.now id) }
        ensures sound { (x : Pool) → state_of self.now id ≡ Some x → IsPool MOST x }
    {
        let layout = self.objects.state(id)?;
        let greatest = self.greatest_free(id)?;
        Some(greatest / layout.unit * layout.unit)
    }

    /// Gives the range of a pool back that starts at an address, and says whether there was one.
    /// None exactly where no pool of this id is live.
    pub(crate) fn give_back(&mut self, id: u32, block: u32) -> Option<bool>
        ensures answer { result ≡ (frees self.old id block).0 }
        ensures left { self.new ≡ (frees self.old id block).1 }
    {
        let _ = self.objects.state(id)?;
        match walks::place_of(&self.outs, id, block) {
            Some(place) => {
                self.outs.remove(place);
                Some(true)
            }
            None => Some(false),
        }
    }

    /// Lets a thread wait for a live pool, behind all others.
    pub(crate) fn wait(&mut self, id: u32, waiter: Waiter<W>, priority: u8)
        requires live { is_some (object_of self.old.live id) ≡ true }
        requires room { waiting self.old < MOST_WAITERS }
        ensures { self.new ≡ waits self.old id (record { priority = priority; item = waiter }) }
    {
        self.objects.wait(id, waiter, priority);
    }

    /// Takes the thread out that is next among those that wait for a pool. None exactly where none
    /// waits, or no pool of this id is live.
    pub(crate) fn take_waiter(&mut self, id: u32) -> Option<Waiter<W>>
        ensures answer { result ≡ (takes_next self.old id (is_by_priority self.old id)).0 }
        ensures left { self.new ≡ (takes_next self.old id (is_by_priority self.old id)).1 }
    {
        let by_priority = self.by_priority(id);
        self.objects.take_next(id, by_priority)
    }

    /// Takes the thread out that is next among those that wait for a pool and of which a condition
    /// holds. None exactly where it holds of none, or no pool of this id is live.
    pub(crate) fn take_waiter_where<C: Condition<Waiter<W>>>(
        &mut self,
        id: u32,
        condition: &C,
    ) -> Option<Waiter<W>>
        ensures answer { let by_priority = is_by_priority self.old id in
            result ≡ (takes_next_where self.old id by_priority (C.holds_for condition.now)).0 }
        ensures left { let by_priority = is_by_priority self.old id in
            self.new ≡ (takes_next_where self.old id by_priority (C.holds_for condition.now)).1 }
    {
        let by_priority = self.by_priority(id);
        self.objects.take_next_where(id, by_priority, condition)
    }

    /// Takes a thread out of those that wait for a pool, if it does.
    pub(crate) fn drop_waiter(&mut self, id: u32, thread: u32)
        ensures { self.new ≡ drops self.old id thread }
    {
        self.objects.drop_waiter(id, thread);
    }

    /// Changes the priority of a thread that waits for a pool, if it does. Where waiters are chosen
    /// by priority it waits behind all others then, else it keeps its place.
    pub(crate) fn requeue(&mut self, id: u32, thread: u32, priority: u8)
        ensures { self.new ≡ requeues self.old id (is_by_priority self.old id) thread priority }
    {
        let by_priority = self.by_priority(id);
        self.objects.requeue(id, by_priority, thread, priority);
    }
}
