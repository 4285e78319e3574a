//! The places in which the records of threads stand.

ghost use Rattle.std.specs.Prelude.{◌≡◌, ◌≤◌, IfOk, is_none, is_some, option_map, Some, None, min, length, filter, filter_map, slice_set};
ghost use Rattle.std.specs.List.{position, reduce};
ghost use Rattle.iop_ready.specs.declared.slot.TheConstants.{MOST_THREADS};
ghost use Rattle.iop_thread.specs.ThreadPlaces.{has_id, id_above, thread_at, place_of, HasAlone};

use crate::thread::Thread;
use iop_ready::{MOST_THREADS, Slot};
use std::alloc::{AllocError, Global};
use std::marker::Model;

/// A record of a thread, or none, in each place.
#[derive(Drop)]
pub(crate) struct Places {
    places: Vec<Option<Thread>>,
}

impl Model for Places {
    ghost use Rattle.std.specs.Prelude.{◌≡◌, List, Option, length};
    ghost use Rattle.iop_ready.specs.declared.slot.TheConstants.{MOST_THREADS};
    ghost use Rattle.iop_thread.specs.declared.thread.Thread.{Thread};

    ghost Value = { List (Option Thread) };

    ghost view = { λ p. p.places.items };

    ghost invariant = { λ p. length p.places.items ≡ MOST_THREADS };
}

impl Places {
    /// Makes places with one thread, in the first. `AllocError` where the host has too little memory.
    pub(crate) fn new(alloc: Global, first: Thread) -> Result<Self, AllocError>
        ensures { IfOk result (λ places. HasAlone (Some first) places) }
    {
        let mut places = vec![in alloc; None; MOST_THREADS]?;
        places[0] = Some(first);
        Ok(Places { places })
    }

    /// Makes places with no thread. `AllocError` where the host has too little memory.
    pub(crate) fn empty(alloc: Global) -> Result<Self, AllocError>
        ensures { IfOk result (λ places. HasAlone None places) }
    {
        let mut places = Places::new(alloc, Thread::loader())?;
        places.clear(Slot::new(0));
        Ok(places)
    }

    /// Finds the place where the thread of an id stands.
    pub(crate) fn find(&self, id: u32) -> Option<Slot>
        ensures { result ≡ place_of self.now id }
    {
        let place = position(&self.places, id)?;
        Some(Slot::new(place as u8))
    }

    /// Tells how many threads stand in the places.
    pub(crate) fn len(&self) -> usize
        ensures count { result ≡ length (filter is_some self.now) }
        ensures few { result ≤ MOST_THREADS }
    {
        count(&self.places)
    }

    /// Finds the least id of a thread above this one.
    pub(crate) fn least_above(&self, id: u32) -> Option<u32>
        ensures { result ≡ reduce min (filter_map (id_above id) self.now) }
    {
        least_above(&self.places, id)
    }

    /// Finds the first place in which no thread stands.
    pub(crate) fn free(&self) -> Option<Slot>
        ensures { result ≡ position is_none self.now }
    {
        let place = free_position(&self.places)?;
        Some(Slot::new(place as u8))
    }

    /// Reads the thread in a place.
    pub(crate) fn get(&self, slot: Slot) -> Option<&Thread>
        ensures { option_map (λ t. t.now) result ≡ thread_at self.now slot }
    {
        self.places[slot.number() as usize].as_ref()
    }

    /// Puts a thread in a place.
    pub(crate) fn put(&mut self, slot: Slot, thread: Thread)
        ensures { self.new ≡ slice_set self.old slot (Some thread) }
    {
        self.places[slot.number() as usize] = Some(thread);
    }

    /// Clears a place.
    pub(crate) fn clear(&mut self, slot: Slot)
        ensures { self.new ≡ slice_set self.old slot None }
    {
        self.places[slot.number() as usize] = None;
    }
}

/// Finds the first of some places in which a thread of this id stands.
fn position(places: &[Option<Thread>], id: u32) -> Option<usize>
    ensures { result ≡ position (has_id id) places.now }
{
    places.iter().position(|place| has_id(place, id))
}

/// Counts the threads in some places.
fn count(places: &[Option<Thread>]) -> usize
    ensures { result ≡ length (filter is_some places.now) }
{
    places.iter().filter(|place| place.is_some()).count()
}

/// Finds the least id above this one of a thread in some places.
fn least_above(places: &[Option<Thread>], id: u32) -> Option<u32>
    ensures { result ≡ reduce min (filter_map (id_above id) places.now) }
{
    places.iter().filter_map(|place| id_above(place, id)).min()
}

/// Tells the id of the thread in a place, if it is above this one.
fn id_above(place: &Option<Thread>, id: u32) -> Option<u32>
    ensures { result ≡ id_above id place.now }
{
    match place {
        Some(thread) if thread.id > id => Some(thread.id),
        _ => None,
    }
}

/// Finds the first of some places in which no thread stands.
fn free_position(places: &[Option<Thread>]) -> Option<usize>
    ensures { result ≡ position is_none places.now }
{
    places.iter().position(|place| place.is_none())
}

/// Says whether a thread of this id stands in a place.
fn has_id(place: &Option<Thread>, id: u32) -> bool
    ensures { result ≡ has_id id place.now }
{
    match place {
        Some(thread) => thread.id == id,
        None => false,
    }
}
