ghost use Rattle.std.specs.Prelude.{◌≡◌, ◌<◌, ◌≤◌, Bool, [], IfOk, is_some, option_map, true, false, length, slice_get};
ghost use Rattle.iop_objects.specs.Objects.{AreObjects, no_objects, object_of, state_of, waiters_of, waiting, takes_next, drops, requeues};
ghost use Rattle.iop_objects.specs.declared.objects.TheConstants.{MOST_OBJECTS, MOST_WAITERS};
ghost use Rattle.iop_event.specs.EventFlags.{creates, deletes, sets, meets_next, clears, is_taken, tests, waits};

use crate::event_flag::{EventFlag, MANY_WAITERS, is_attribute};
use crate::met::Met;
use crate::wanted::{Wanted, holds, pattern_after};
use iop_base::Code;
use iop_objects::{Objects, Waiter};
use iop_queues::{Condition, Walk};
use std::alloc::{AllocError, Global};
use std::marker::Model;

/// The live event flags, and the threads that wait for each.
#[derive(Drop)]
pub struct EventFlags {
    pub(crate) objects: Objects<EventFlag, Wanted>,
}

impl Model for EventFlags {
    ghost use Rattle.iop_objects.specs.Objects.{Objects};
    ghost use Rattle.iop_event.specs.declared.event_flag.EventFlag.{EventFlag};
    ghost use Rattle.iop_event.specs.declared.wanted.Wanted.{Wanted};

    ghost Value = { Objects EventFlag Wanted };

    ghost view = { λ s. s.objects };
}

/// A pattern of bits, as a condition on the threads that wait.
#[derive(Drop)]
struct Pattern(u32);

impl Condition<Waiter<Wanted>> for Pattern {
    ghost use Rattle.iop_event.specs.WakeConditions.{is_met};

    ghost holds_for = { λ pattern waiter. is_met pattern.0 waiter };

    fn holds(&self, waiter: &Waiter<Wanted>) -> bool {
        holds(waiter.wants.bits, waiter.wants.mode, self.0)
    }
}

impl EventFlags {
    /// Makes a table of no event flag. It takes all the memory that the table will need;
    /// `AllocError` where the host has less.
    pub fn new(alloc: Global) -> Result<Self, AllocError>
        ensures { IfOk result (λ flags. flags ≡ no_objects) }
    {
        let objects = Objects::new(alloc)?;
        Ok(EventFlags { objects })
    }

    /// Reads what is known of an event flag. None exactly where none of this id is live.
    pub fn get(&self, id: u32) -> Option<EventFlag>
        ensures flag { result ≡ state_of self.now id }
        ensures objects { AreObjects self.now }
    {
        self.objects.state(id)
    }

    /// Tells how many threads wait for an event flag: 0 where none of this id is live.
    pub fn waiters(&self, id: u32) -> usize
        ensures count { result ≡ length (waiters_of self.now id) }
        ensures few { result ≤ MOST_WAITERS }
        ensures sound { AreObjects self.now }
    {
        self.objects.waiters(id)
    }

    /// Tells how many event flags are live.
    pub fn len(&self) -> usize
        ensures count { result ≡ length self.now.live }
        ensures few { result ≤ MOST_OBJECTS }
    {
        self.objects.len()
    }

    /// Reads the id of the live event flag at a place in the order of ids, and what is known of it.
    /// None exactly where so many or fewer are live.
    pub fn nth(&self, place: usize) -> Option<(u32, EventFlag)>
        ensures { result ≡ option_map (λ o. (o.id, o.state)) (slice_get self.now.live place) }
    {
        self.objects.nth(place)
    }

    /// Walks over the threads that wait for an event flag, in order of their arrival. None exactly
    /// where none of this id is live.
    pub fn walk(&self, id: u32) -> Option<Walk<'_, Waiter<Wanted>>>
        ensures { result ≡ option_map (λ o. o.waiters) (object_of self.now.live id) }
    {
        self.objects.walk(id)
    }

    /// Tells the id of the next event flag. Where none is left it is the one behind `LAST_ID`.
    pub fn next_id(&self) -> u32
        ensures { result ≡ self.now.next }
    {
        self.objects.next_id()
    }

    /// Makes an event flag, and answers its id. `ILLEGAL_ATTRIBUTE` exactly where the attribute is
    /// neither 0 nor `MANY_WAITERS`, else `NO_MEMORY` exactly where there is no room for one more;
    /// nothing changes then.
    pub fn create(&mut self, attr: u32, option: u32, bits: u32) -> Result<u32, Code>
        ensures answer { result ≡ (creates self.old attr option bits).0 }
        ensures left { self.new ≡ (creates self.old attr option bits).1 }
    {
        if !is_attribute(attr) {
            return Err(Code::ILLEGAL_ATTRIBUTE);
        }
        self.objects.create(EventFlag {
            attr,
            option,
            first: bits,
            pattern: bits,
        })
    }

    /// Deletes an event flag, for which no thread waits. `UNKNOWN_EVENT_FLAG` exactly where none of
    /// this id is live.
    pub fn delete(&mut self, id: u32) -> Code
        requires none { waiters_of self.old id ≡ [] }
        ensures answer { result ≡ (deletes self.old id).0 }
        ensures left { self.new ≡ (deletes self.old id).1 }
    {
        if self.get(id).is_none() {
            return Code::UNKNOWN_EVENT_FLAG;
        }
        self.objects.delete(id);
        Code::OK
    }

    /// Sets bits of an event flag. `UNKNOWN_EVENT_FLAG` exactly where none of this id is live.
    pub fn set(&mut self, id: u32, bits: u32) -> Code
        ensures answer { result ≡ (sets self.old id bits).0 }
        ensures left { self.new ≡ (sets self.old id bits).1 }
    {
        let Some(flag) = self.get(id) else {
            return Code::UNKNOWN_EVENT_FLAG;
        };
        let pattern = flag.pattern | bits;
        self.objects.set_state(id, EventFlag { pattern, ..flag });
        Code::OK
    }

    /// Takes the first thread out that waits for an event flag and whose condition holds, and
    /// clears the pattern if its mode says so. None exactly where the condition of none holds, or
    /// no event flag of this id is live; nothing changes then.
    pub fn next_met(&mut self, id: u32) -> Option<Met>
        ensures answer { result ≡ (meets_next self.old id).0 }
        ensures left { self.new ≡ (meets_next self.old id).1 }
    {
        let flag = self.get(id)?;
        let waiter = self.objects.take_where(id, &Pattern(flag.pattern))?;
        let pattern = pattern_after(waiter.wants.mode, flag.pattern);
        self.objects.set_state(id, EventFlag { pattern, ..flag });
        Some(Met {
            thread: waiter.thread,
            place: waiter.wants.place,
            pattern: flag.pattern,
        })
    }

    /// Clears the bits of an event flag that are not in a mask. `UNKNOWN_EVENT_FLAG` exactly where
    /// none of this id is live.
    pub fn clear(&mut self, id: u32, mask: u32) -> Code
        ensures answer { result ≡ (clears self.old id mask).0 }
        ensures left { self.new ≡ (clears self.old id mask).1 }
    {
        let Some(flag) = self.get(id) else {
            return Code::UNKNOWN_EVENT_FLAG;
        };
        let pattern = flag.pattern & mask;
        self.objects.set_state(id, EventFlag { pattern, ..flag });
        Code::OK
    }

    /// Tests a condition on bits by a mode. Where it holds the pattern is answered, and cleared if
    /// the mode says so. `UNKNOWN_EVENT_FLAG` exactly where no event flag of this id is live, else
    /// `EMPTY_PATTERN` exactly where no bit is asked for, else `SECOND_WAITER` exactly where a
    /// thread waits and one alone may, else `FLAG_CONDITION` exactly where the condition does not
    /// hold; nothing changes then.
    pub fn test(&mut self, id: u32, bits: u32, mode: u32) -> Result<u32, Code>
        ensures answer { result ≡ (tests self.old id bits mode).0 }
        ensures left { self.new ≡ (tests self.old id bits mode).1 }
    {
        let Some(flag) = self.get(id) else {
            return Err(Code::UNKNOWN_EVENT_FLAG);
        };
        if bits == 0 {
            return Err(Code::EMPTY_PATTERN);
        }
        if self.is_taken(id, &flag) {
            return Err(Code::SECOND_WAITER);
        }
        if !holds(bits, mode, flag.pattern) {
            return Err(Code::FLAG_CONDITION);
        }
        let pattern = pattern_after(mode, flag.pattern);
        self.objects.set_state(id, EventFlag { pattern, ..flag });
        Ok(flag.pattern)
    }

    /// Lets a thread wait for bits of a live event flag, behind all others.
    pub fn wait(&mut self, id: u32, thread: u32, priority: u8, wanted: Wanted)
        requires live { is_some (object_of self.old.live id) ≡ true }
        requires room { waiting self.old < MOST_WAITERS }
        ensures { self.new ≡ waits self.old id thread priority wanted }
    {
        self.objects.wait(
            id,
            Waiter {
                thread,
                wants: wanted,
            },
            priority,
        );
    }

    /// Takes the thread out that is first among those that wait for an event flag. None exactly
    /// where none waits, or no event flag of this id is live.
    pub fn pop_waiter(&mut self, id: u32) -> Option<u32>
        ensures answer { let taken = takes_next self.old id false in
            result ≡ option_map (λ waiter. waiter.thread) taken.0 }
        ensures left { self.new ≡ (takes_next self.old id false).1 }
    {
        let waiter = self.objects.take_next(id, false)?;
        Some(waiter.thread)
    }

    /// Takes a thread out of those that wait for an event flag, if it does.
    pub fn drop_waiter(&mut self, id: u32, thread: u32)
        ensures { self.new ≡ drops self.old id thread }
    {
        self.objects.drop_waiter(id, thread);
    }

    /// Changes the priority of a thread that waits for an event flag, if it does. It keeps its
    /// place.
    pub fn requeue(&mut self, id: u32, thread: u32, priority: u8)
        ensures { self.new ≡ requeues self.old id false thread priority }
    {
        self.objects.requeue(id, false, thread, priority);
    }

    /// Says whether no other thread may wait for an event flag.
    pub(crate) fn is_taken(&self, id: u32, flag: &EventFlag) -> bool
        ensures { result ≡ is_taken self.now id flag.now }
    {
        flag.attr != MANY_WAITERS && self.waiters(id) != 0
    }
}
