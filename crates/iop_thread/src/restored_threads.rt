ghost use Rattle.std.specs.Prelude.{◌≡◌, ◌==◌, IfOk, IfSome, MatchOption, Some, [], if◌then◌else◌, is_some, true, false};
ghost use Rattle.std.specs.List.{list_any};
ghost use Rattle.iop_base.specs.declared.limits.TheConstants.{LAST_ID};
ghost use Rattle.iop_thread.specs.Moves.{IsThere};
ghost use Rattle.iop_thread.specs.Restored.{Restores, IsRestored};
ghost use Rattle.iop_thread.specs.Restoring.{no_threads, is_ahead, may_stand_beside, may_follow, with_last, is_unlisted, is_none_worse, may_be_listed, with_last_ready, is_listed_in, are_listed, is_complete};
ghost use Rattle.iop_thread.specs.Standing.{Stands};
ghost use Rattle.iop_thread.specs.States.{is_running};
ghost use Rattle.iop_thread.specs.ThreadPlaces.{thread_at};
ghost use Rattle.iop_thread.specs.ThreadTable.{ThreadTable, thread_of, priority_of};

use crate::found::Found;
use crate::places::Places;
use crate::thread::{LOADER, Thread};
use crate::threads::Threads;
use iop_base::LAST_ID;
use iop_ready::{LOWEST_PRIORITY, MOST_THREADS, Priority, Ready, Slot};
use std::alloc::{AllocError, Global};

/// Threads that are put back into a table of none: first each thread, then the ready list. A thread
/// that is ready is not in the ready list before it is put there.
#[derive(Drop)]
pub struct RestoredThreads<R> {
    pub(crate) threads: Threads<R>,
}

impl<R: Ready> RestoredThreads<R> {
    /// Makes a table of no thread, beside a list of ready threads in which none is. It takes all
    /// the memory that the threads will need; `AllocError` where the host has less.
    pub fn new(alloc: Global, ready: R) -> Result<Self, AllocError>
    where
        R: Drop,
        requires none { R.stands ready [] }
        ensures { IfOk result (λ restored. Restores R.stands restored no_threads) }
    {
        let places = Places::empty(alloc)?;
        let threads = Threads::idle(places, ready, LOADER);
        Ok(RestoredThreads { threads })
    }

    /// Puts a thread back behind all others. The next id is the one behind its own then. False
    /// exactly where its id is below the next one or above `LAST_ID`, it runs beside another one
    /// that does, or `MOST_THREADS` are live; nothing changes then.
    pub fn put_back(&mut self, thread: Thread) -> bool
        ensures may { (s : ThreadTable) → Restores R.stands self.old s
            → result ≡ may_follow s thread }
        ensures put { (s : ThreadTable) → Restores R.stands self.old s
            → Restores R.stands self.new (if result then with_last s thread else s) }
    {
        if !self.threads.is_ahead(thread.id, LAST_ID) {
            return false;
        }
        if !self.may_stand_beside(&thread) {
            return false;
        }
        let Some(slot) = self.threads.places.free() else {
            return false;
        };
        self.threads.running = self.running_beside(&thread, slot);
        self.threads.places.put(slot, thread);
        self.threads.next = thread.id + 1;
        true
    }

    /// Puts the thread of an id back into the ready list, behind all others. False exactly where
    /// none of this id is live, it is not ready, it is in the list, or one of a worse priority is;
    /// nothing changes then.
    pub fn put_ready(&mut self, id: u32) -> bool
        requires sound { IsRestored R.stands self.old }
        ensures may { (s : ThreadTable) → Restores R.stands self.old s
            → result ≡ may_be_listed s id }
        ensures put { (s : ThreadTable) → Restores R.stands self.old s
            → Restores R.stands self.new (if result then with_last_ready s id else s) }
    {
        let Some(found) = self.find_unlisted(id) else {
            return false;
        };
        if !self.is_none_worse(&found.thread) {
            return false;
        }
        self.threads
            .ready
            .add_last(found.slot, found.thread.priority);
        true
    }

    /// Gives the table, in which the thread of this id runs, or none does. None exactly where
    /// another one runs, or a thread is ready that was not put back into the ready list.
    pub fn finish(self, running: Option<u32>) -> Option<Threads<R>>
    where
        R: Drop,
        ensures may { (s : ThreadTable) → Restores R.stands self s
            → is_some result ≡ is_complete s running }
        ensures table { (s : ThreadTable) → Restores R.stands self s
            → IfSome result (λ threads. Stands R.stands threads s) }
    {
        if !self.are_listed() {
            return None;
        }
        let threads = self.threads;
        if threads.running() != running {
            return None;
        }
        Some(threads)
    }

    /// Says whether a thread may be live beside those that are: one alone runs.
    fn may_stand_beside(&self, thread: &Thread) -> bool
        ensures { (s : ThreadTable) → Restores R.stands self.now s
            → result ≡ may_stand_beside s thread.now }
    {
        !(thread.state.is_running() && self.threads.running.is_some())
    }

    /// Tells the place of the thread that runs when this one comes, to a place.
    fn running_beside(&self, thread: &Thread, slot: Slot) -> Option<Slot>
        ensures { result ≡ if is_running thread.now.state then Some slot
            else self.now.threads.running }
    {
        if thread.state.is_running() {
            Some(slot)
        } else {
            self.threads.running
        }
    }

    /// Finds the thread of an id, with its place, if it is ready and not in the ready list.
    fn find_unlisted(&self, id: u32) -> Option<Found>
        ensures { (s : ThreadTable) → Restores R.stands self.now s → MatchOption result
            (is_unlisted s id ≡ false)
            (λ found. (is_unlisted s id ≡ true) × (thread_of s.live id ≡ Some found.thread)
            × IsThere self.now.threads.places found) }
    {
        let slot = self.threads.places.find(id)?;
        let found = self.threads.found_in(slot)?;
        if !found.thread.state.is_ready() {
            return None;
        }
        if self.threads.ready.contains(slot) {
            return None;
        }
        Some(found)
    }

    /// Says whether no thread in the ready list has a worse priority than this one.
    fn is_none_worse(&self, thread: &Thread) -> bool
        ensures { (s : ThreadTable) → Restores R.stands self.now s
            → result ≡ is_none_worse s thread.now.priority }
    {
        for better in thread.priority.number()..LOWEST_PRIORITY as u8 {
            if self.is_ready_at(Priority::new(better + 1)) {
                return false;
            }
        }
        true
    }

    /// Says whether a thread of a priority is in the ready list.
    fn is_ready_at(&self, priority: Priority) -> bool
        ensures { (s : ThreadTable) → Restores R.stands self.now s
            → result ≡ list_any (λ id. priority_of s.live id == priority) s.ready }
    {
        self.threads.ready.at(priority, 0).is_some()
    }

    /// Says whether each thread that is ready is in the ready list.
    fn are_listed(&self) -> bool
        ensures { (s : ThreadTable) → Restores R.stands self.now s → result ≡ are_listed s }
    {
        for place in 0..MOST_THREADS as u8 {
            if !self.is_listed(Slot::new(place)) {
                return false;
            }
        }
        true
    }

    /// Says whether the thread in a place, if there is one, is in the ready list if it is ready.
    fn is_listed(&self, slot: Slot) -> bool
        ensures { (s : ThreadTable) → Restores R.stands self.now s
            → result ≡ is_listed_in s (thread_at self.now.threads.places slot) }
    {
        let Some(found) = self.threads.found_in(slot) else {
            return true;
        };
        !found.thread.state.is_ready() || self.threads.ready.contains(slot)
    }
}
