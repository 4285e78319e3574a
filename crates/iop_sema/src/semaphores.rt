ghost use Rattle.std.specs.Prelude.{◌≡◌, ◌<◌, ◌≤◌, [], IfOk, is_some, option_map, true, length, slice_get};
ghost use Rattle.iop_objects.specs.Objects.{AreObjects, no_objects, object_of, state_of, waiters_of, waiting, takes_next, drops, requeues};
ghost use Rattle.iop_objects.specs.declared.objects.TheConstants.{MOST_OBJECTS, MOST_WAITERS};
ghost use Rattle.iop_sema.specs.Semaphores.{creates, deletes, signals, takes, waits, is_by_priority};

use crate::semaphore::{Semaphore, is_attribute};
use iop_base::Code;
use iop_objects::{Objects, Waiter};
use iop_queues::Walk;
use std::alloc::{AllocError, Global};
use std::marker::Model;

/// The live semaphores, and the threads that wait for each.
#[derive(Drop)]
pub struct Semaphores {
    pub(crate) objects: Objects<Semaphore, ()>,
}

impl Model for Semaphores {
    ghost use Rattle.std.specs.Prelude.{⊤};
    ghost use Rattle.iop_objects.specs.Objects.{Objects};
    ghost use Rattle.iop_sema.specs.declared.semaphore.Semaphore.{Semaphore};

    ghost Value = { Objects Semaphore ⊤ };

    ghost view = { λ s. s.objects };
}

impl Semaphores {
    /// Makes a table of no semaphore. It takes all the memory that the table will need;
    /// `AllocError` where the host has less.
    pub fn new(alloc: Global) -> Result<Self, AllocError>
        ensures { IfOk result (λ semaphores. semaphores ≡ no_objects) }
    {
        let objects = Objects::new(alloc)?;
        Ok(Semaphores { objects })
    }

    /// Reads what is known of a semaphore. None exactly where none of this id is live.
    pub fn get(&self, id: u32) -> Option<Semaphore>
        ensures { result ≡ state_of self.now id }
    {
        self.objects.state(id)
    }

    /// Tells how many threads wait for a semaphore: 0 where none of this id is live.
    pub fn waiters(&self, id: u32) -> usize
        ensures count { result ≡ length (waiters_of self.now id) }
        ensures few { result ≤ MOST_WAITERS }
        ensures sound { AreObjects self.now }
    {
        self.objects.waiters(id)
    }

    /// Tells how many semaphores are live.
    pub fn len(&self) -> usize
        ensures count { result ≡ length self.now.live }
        ensures few { result ≤ MOST_OBJECTS }
    {
        self.objects.len()
    }

    /// Reads the id of the live semaphore at a place in the order of ids, and what is known of it.
    /// None exactly where so many or fewer are live.
    pub fn nth(&self, place: usize) -> Option<(u32, Semaphore)>
        ensures { result ≡ option_map (λ o. (o.id, o.state)) (slice_get self.now.live place) }
    {
        self.objects.nth(place)
    }

    /// Walks over the threads that wait for a semaphore, in order of their arrival. None exactly
    /// where none of this id is live.
    pub fn walk(&self, id: u32) -> Option<Walk<'_, Waiter<()>>>
        ensures { result ≡ option_map (λ o. o.waiters) (object_of self.now.live id) }
    {
        self.objects.walk(id)
    }

    /// Tells the id of the next semaphore. Where none is left it is the one behind `LAST_ID`.
    pub fn next_id(&self) -> u32
        ensures { result ≡ self.now.next }
    {
        self.objects.next_id()
    }

    /// Makes a semaphore, and answers its id. `ILLEGAL_ATTRIBUTE` exactly where the attribute is
    /// neither 0 nor `BY_PRIORITY`, else `SEMAPHORE_OVERFLOW` exactly where the first count is over
    /// the most, else `NO_MEMORY` exactly where there is no room for one more; nothing changes then.
    pub fn create(&mut self, attr: u32, option: u32, initial: u32, max: u32) -> Result<u32, Code>
        ensures answer { result ≡ (creates self.old attr option initial max).0 }
        ensures left { self.new ≡ (creates self.old attr option initial max).1 }
    {
        if !is_attribute(attr) {
            return Err(Code::ILLEGAL_ATTRIBUTE);
        }
        if initial > max {
            return Err(Code::SEMAPHORE_OVERFLOW);
        }
        self.objects.create(Semaphore {
            attr,
            option,
            initial,
            max,
            count: initial,
        })
    }

    /// Deletes a semaphore, for which no thread waits. `UNKNOWN_SEMAPHORE` exactly where none of this
    /// id is live.
    pub fn delete(&mut self, id: u32) -> Code
        requires none { waiters_of self.old id ≡ [] }
        ensures answer { result ≡ (deletes self.old id).0 }
        ensures left { self.new ≡ (deletes self.old id).1 }
    {
        if self.get(id).is_none() {
            return Code::UNKNOWN_SEMAPHORE;
        }
        self.objects.delete(id);
        Code::OK
    }

    /// Signals a semaphore. The thread that is next among those that wait for it waits no more and is
    /// answered; where none waits, the count grows by one. `UNKNOWN_SEMAPHORE` exactly where none of
    /// this id is live, else `SEMAPHORE_OVERFLOW` exactly where none waits and the count is at its
    /// most; nothing changes then.
    pub fn signal(&mut self, id: u32) -> Result<Option<u32>, Code>
        ensures answer { result ≡ (signals self.old id).0 }
        ensures left { self.new ≡ (signals self.old id).1 }
    {
        let Some(semaphore) = self.get(id) else {
            return Err(Code::UNKNOWN_SEMAPHORE);
        };
        if let Some(waiter) = self.objects.take_next(id, semaphore.by_priority()) {
            return Ok(Some(waiter.thread));
        }
        if semaphore.count >= semaphore.max {
            return Err(Code::SEMAPHORE_OVERFLOW);
        }
        let count = semaphore.count + 1;
        self.objects.set_state(id, Semaphore { count, ..semaphore });
        Ok(None)
    }

    /// Takes one of a semaphore's count. `UNKNOWN_SEMAPHORE` exactly where none of this id is live,
    /// else `SEMAPHORE_ZERO` exactly where the count is 0; nothing changes then.
    pub fn take(&mut self, id: u32) -> Code
        ensures answer { result ≡ (takes self.old id).0 }
        ensures left { self.new ≡ (takes self.old id).1 }
    {
        let Some(semaphore) = self.get(id) else {
            return Code::UNKNOWN_SEMAPHORE;
        };
        if semaphore.count == 0 {
            return Code::SEMAPHORE_ZERO;
        }
        let count = semaphore.count - 1;
        self.objects.set_state(id, Semaphore { count, ..semaphore });
        Code::OK
    }

    /// Lets a thread wait for a live semaphore, behind all others.
    pub fn wait(&mut self, id: u32, thread: u32, priority: u8)
        requires live { is_some (object_of self.old.live id) ≡ true }
        requires room { waiting self.old < MOST_WAITERS }
        ensures { self.new ≡ waits self.old id thread priority }
    {
        self.objects
            .wait(id, Waiter { thread, wants: () }, priority);
    }

    /// Takes the thread out that is next among those that wait for a semaphore. None exactly where none
    /// waits, or no semaphore of this id is live.
    pub fn pop_waiter(&mut self, id: u32) -> Option<u32>
        ensures answer { result ≡ option_map (λ waiter. waiter.thread)
            (takes_next self.old id (is_by_priority self.old id)).0 }
        ensures left { self.new ≡ (takes_next self.old id (is_by_priority self.old id)).1 }
    {
        let by_priority = self.by_priority(id);
        let waiter = self.objects.take_next(id, by_priority)?;
        Some(waiter.thread)
    }

    /// Takes a thread out of those that wait for a semaphore, if it does.
    pub fn drop_waiter(&mut self, id: u32, thread: u32)
        ensures { self.new ≡ drops self.old id thread }
    {
        self.objects.drop_waiter(id, thread);
    }

    /// Changes the priority of a thread that waits for a semaphore, if it does. Where waiters are chosen
    /// by priority it waits behind all others then, else it keeps its place.
    pub fn requeue(&mut self, id: u32, thread: u32, priority: u8)
        ensures { self.new ≡ requeues self.old id (is_by_priority self.old id) thread priority }
    {
        let by_priority = self.by_priority(id);
        self.objects.requeue(id, by_priority, thread, priority);
    }

    /// Says whether the threads that wait for a semaphore are chosen by priority: false where none of
    /// this id is live.
    fn by_priority(&self, id: u32) -> bool
        ensures { result ≡ is_by_priority self.now id }
    {
        match self.get(id) {
            Some(semaphore) => semaphore.by_priority(),
            None => false,
        }
    }
}
