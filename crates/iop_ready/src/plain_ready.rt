ghost use Rattle.std.specs.Prelude.{◌≡◌, [], IfOk, slice_get};
ghost use Rattle.iop_ready.specs.ReadyList.{is_listed, of_priority, first_of, best_of, with_later, StandsFor};

use crate::entry::Entry;
use crate::priority::Priority;
use crate::ready::Ready;
use crate::slot::{MOST_THREADS, Slot};
use std::alloc::{AllocError, Global};
use std::marker::Model;

/// The ready threads in a plain list, in order of their arrival.
#[derive(Drop)]
pub struct PlainReady {
    entries: Vec<Entry>,
}

impl Model for PlainReady {
    ghost use Rattle.std.specs.Prelude.{List, ◌≤◌, vec_capacity};
    ghost use Rattle.iop_ready.specs.declared.entry.Entry.{Entry};
    ghost use Rattle.iop_ready.specs.declared.slot.TheConstants.{MOST_THREADS};
    ghost use Rattle.iop_ready.specs.ReadyList.{IsReadyList};

    ghost Value = { List Entry };

    ghost view = { λ r. r.entries.items };

    ghost invariant = { λ r. IsReadyList r.entries.items
        × (MOST_THREADS ≤ vec_capacity r.entries) };
}

impl PlainReady {
    /// Makes a list of no thread. It takes all the memory that the list will need; `AllocError`
    /// where the host has less.
    pub fn new(alloc: Global) -> Result<Self, AllocError>
        ensures { IfOk result (λ ready. StandsFor ready []) }
    {
        let entries = Vec::with_capacity(alloc, MOST_THREADS)?;
        Ok(PlainReady { entries })
    }
}

impl Ready for PlainReady {
    ghost use Rattle.iop_ready.specs.ReadyList.{StandsFor};

    ghost stands = { StandsFor };

    ghost stands_sound = { λ ready xs stands. stands.right };

    fn add_last(&mut self, slot: Slot, priority: Priority) {
        self.entries.push_reserved(Entry { slot, priority });
    }

    fn add_first(&mut self, slot: Slot, priority: Priority) {
        let _ = self.entries.insert(0, Entry { slot, priority });
    }

    fn remove(&mut self, slot: Slot) {
        self.entries.retain(|entry| entry.slot != slot);
    }

    fn rotate(&mut self, priority: Priority) {
        if let Some(entry) = first_of(&self.entries, priority) {
            self.remove(entry.slot);
            self.add_last(entry.slot, entry.priority);
        }
    }

    fn contains(&self, slot: Slot) -> bool {
        is_listed(&self.entries, slot)
    }

    fn at(&self, priority: Priority, place: usize) -> Option<Slot> {
        entry_at(&self.entries, priority, place).map(|entry| entry.slot)
    }

    fn best(&self) -> Option<Slot> {
        best_of(&self.entries).map(|entry| entry.slot)
    }
}

/// Says whether the thread of a slot is among the entries.
fn is_listed(entries: &[Entry], slot: Slot) -> bool
    ensures { result ≡ is_listed slot entries.now }
{
    entries.iter().any(|entry| entry.slot == slot)
}

/// Finds the thread at a place among those of a priority.
fn entry_at(entries: &[Entry], priority: Priority, place: usize) -> Option<Entry>
    ensures { result ≡ slice_get (of_priority priority entries.now) place }
{
    entries
        .iter()
        .filter(|entry| entry.priority == priority)
        .nth(place)
        .copied()
}

/// Finds the first thread of a priority.
fn first_of(entries: &[Entry], priority: Priority) -> Option<Entry>
    ensures { result ≡ first_of priority entries.now }
{
    entries
        .iter()
        .find(|entry| entry.priority == priority)
        .copied()
}

/// Finds the first thread of the best priority.
fn best_of(entries: &[Entry]) -> Option<Entry>
    ensures { result ≡ best_of entries.now }
{
    let mut best = None;
    for entry in entries {
        best = Some(better(best, *entry));
    }
    best
}

/// Chooses between the best so far and one that comes later.
fn better(best: Option<Entry>, later: Entry) -> Entry
    ensures { result ≡ with_later best later }
{
    match best {
        Some(first) if first.priority.number() <= later.priority.number() => first,
        _ => later,
    }
}
