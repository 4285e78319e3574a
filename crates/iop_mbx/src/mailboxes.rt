#![tactic(auto, using(crate::proofs::Reading::readings))]

ghost use Rattle.std.specs.Prelude.{◌≡◌, ◌<◌, ◌≤◌, [], IfOk, is_some, if◌then◌else◌, option_map, option_and_then, true, length};
ghost use Rattle.iop_objects.specs.Objects.{AreObjects, no_objects, object_of, state_of, waiters_of, waiting, drops, requeues};
ghost use Rattle.iop_objects.specs.Restoring.{may_follow};
ghost use Rattle.iop_objects.specs.declared.objects.TheConstants.{MOST_OBJECTS, MOST_WAITERS};
ghost use Rattle.iop_mbx.specs.declared.mailboxes.TheConstants.{MOST_MESSAGES};
ghost use Rattle.iop_mbx.specs.Mailboxes.{without_messages, messages_of, next_message, is_by_priority, has_room, creates, deletes, takes_waiter, takes_waiter_of, puts, gets, waits};
ghost use Rattle.iop_mbx.specs.Restoring.{with_last};

use crate::mailbox::{Mailbox, is_attribute};
use iop_base::Code;
use iop_objects::{MOST_OBJECTS, Objects, Waiter};
use iop_queues::{Numbers, Queued, Queues};
use std::alloc::{AllocError, Global};
use std::marker::Model;

/// The most messages that can stand in all mailboxes together.
pub const MOST_MESSAGES: u32 = 4096;

/// A mailbox, and the queue of its messages.
#[derive(Clone, Copy, Drop)]
pub(crate) struct Numbered {
    pub mailbox: Mailbox,
    /// The number of the queue.
    pub queue: u32,
}

/// The live mailboxes, the messages of each, and the threads that wait for one. A message is the
/// address that was sent.
#[derive(Drop)]
pub struct Mailboxes {
    pub(crate) objects: Objects<Numbered, u32>,
    /// The queues of no live mailbox.
    free: Numbers<MOST_OBJECTS>,
    pub(crate) messages: Queues<u32, MOST_MESSAGES>,
}

impl Model for Mailboxes {
    ghost use Rattle.std.specs.Prelude.{ℕ};
    ghost use Rattle.iop_objects.specs.Objects.{Objects};
    ghost use Rattle.iop_objects.specs.declared.objects.TheConstants.{MOST_OBJECTS};
    ghost use Rattle.iop_mbx.specs.Mailboxes.{Mailbox as Known};

    ghost Value = { Objects Known ℕ };

    ghost use Rattle.iop_mbx.specs.Standing.{mailboxes_in, queues_of};
    ghost use Rattle.iop_queues.specs.Numbers.{AreAssigned};

    ghost view = { λ s. mailboxes_in s.objects s.messages };

    ghost invariant = { λ s.
        AreAssigned MOST_OBJECTS (queues_of s.objects) s.free s.messages };
}

impl Mailboxes {
    /// Makes a table of no mailbox. It takes all the memory that the table will need; `AllocError`
    /// where the host has less.
    pub fn new(alloc: Global) -> Result<Self, AllocError>
        ensures { IfOk result (λ mailboxes. mailboxes ≡ no_objects) }
    {
        Ok(Mailboxes {
            objects: Objects::new(alloc)?,
            free: Numbers::new(alloc)?,
            messages: Queues::new(alloc, MOST_OBJECTS as u32)?,
        })
    }

    /// Reads the attribute and the option of a mailbox. None exactly where none of this id is live.
    pub fn get(&self, id: u32) -> Option<Mailbox>
        ensures { result ≡ option_map without_messages (state_of self.now id) }
    {
        self.objects.state(id).map(|numbered| numbered.mailbox)
    }

    /// Tells how many threads wait for a mailbox: 0 where none of this id is live.
    pub fn waiters(&self, id: u32) -> usize
        ensures count { result ≡ length (waiters_of self.now id) }
        ensures few { result ≤ MOST_WAITERS }
        ensures sound { AreObjects self.now }
    {
        self.objects.waiters(id)
    }

    /// Tells how many messages a mailbox has: 0 where none of this id is live.
    pub fn messages(&self, id: u32) -> usize
        ensures count { result ≡ length (messages_of self.now id) }
        ensures few { result ≤ MOST_MESSAGES }
    {
        match self.objects.state(id) {
            Some(numbered) => self.messages.count(numbered.queue),
            None => 0,
        }
    }

    /// Reads the message of a mailbox that is received next. None exactly where it has none, or no
    /// mailbox of this id is live.
    pub fn next_message(&self, id: u32) -> Option<u32>
        ensures { result ≡ option_and_then
            (λ x. option_map (λ c. c.one.item) (next_message x)) (state_of self.now id) }
    {
        let numbered = self.objects.state(id)?;
        let by_priority = numbered.mailbox.messages_by_priority();
        let message = self.messages.peek(numbered.queue, by_priority)?;
        Some(message.item)
    }

    /// Says whether one more message can be queued: fewer than `MOST_MESSAGES` stand.
    pub fn has_room(&self) -> bool
        ensures { result ≡ has_room self.now }
    {
        self.messages.len() < MOST_MESSAGES as usize
    }

    /// Makes a mailbox, and answers its id. `ILLEGAL_ATTRIBUTE` exactly where the attribute has
    /// other bits than the two that are known, else `NO_MEMORY` exactly where there is no room for
    /// one more; nothing changes then.
    pub fn create(&mut self, attr: u32, option: u32) -> Result<u32, Code>
        ensures answer { result ≡ (creates self.old attr option).0 }
        ensures left { self.new ≡ (creates self.old attr option).1 }
    {
        if !is_attribute(attr) {
            return Err(Code::ILLEGAL_ATTRIBUTE);
        }
        let id = self.objects.next_id();
        if self.add(id, Mailbox { attr, option }) {
            Ok(id)
        } else {
            Err(Code::NO_MEMORY)
        }
    }

    /// Adds a mailbox behind all others, which has no message, and for which no thread waits. False
    /// exactly where its id is below the next one or above `LAST_ID`, or `MOST_OBJECTS` are live;
    /// nothing changes then.
    pub(crate) fn add(&mut self, id: u32, mailbox: Mailbox) -> bool
        ensures may { result ≡ may_follow self.old id }
        ensures put { self.new ≡ if result then with_last self.old id mailbox else self.old }
    {
        let Some(queue) = self.free.take() else {
            return false;
        };
        if self.objects.put_back(id, Numbered { mailbox, queue }) {
            return true;
        }
        self.free.give_back(queue);
        false
    }

    /// Deletes a mailbox, for which no thread waits, with its messages. `UNKNOWN_MAILBOX` exactly
    /// where none of this id is live.
    pub fn delete(&mut self, id: u32) -> Code
        requires none { waiters_of self.old id ≡ [] }
        ensures answer { result ≡ (deletes self.old id).0 }
        ensures left { self.new ≡ (deletes self.old id).1 }
    {
        let Some(numbered) = self.objects.state(id) else {
            return Code::UNKNOWN_MAILBOX;
        };
        self.messages.clear(numbered.queue);
        self.free.give_back(numbered.queue);
        self.objects.delete(id);
        Code::OK
    }

    /// Takes the thread out that is next among those that wait for a mailbox; none where none
    /// waits. `UNKNOWN_MAILBOX` exactly where no mailbox of this id is live.
    pub fn waiter(&mut self, id: u32) -> Result<Option<Waiter<u32>>, Code>
        ensures answer { result ≡ (takes_waiter_of self.old id).0 }
        ensures left { self.new ≡ (takes_waiter_of self.old id).1 }
    {
        match self.get(id) {
            Some(mailbox) => Ok(self.objects.take_next(id, mailbox.waiters_by_priority())),
            None => Err(Code::UNKNOWN_MAILBOX),
        }
    }

    /// Queues a message behind the others of a mailbox. `UNKNOWN_MAILBOX` exactly where none of
    /// this id is live, else `NO_MEMORY` exactly where there is no room; nothing changes then.
    pub fn put(&mut self, id: u32, message: u32, priority: u8) -> Code
        ensures answer { result ≡ (puts self.old id message priority).0 }
        ensures left { self.new ≡ (puts self.old id message priority).1 }
    {
        let Some(numbered) = self.objects.state(id) else {
            return Code::UNKNOWN_MAILBOX;
        };
        if !self.has_room() {
            return Code::NO_MEMORY;
        }
        let item = message;
        self.messages
            .push(numbered.queue, Queued { priority, item });
        Code::OK
    }

    /// Receives the message of a mailbox that is next, by priority or by arrival. `UNKNOWN_MAILBOX`
    /// exactly where none of this id is live, else `NO_MESSAGE` exactly where it has none; nothing
    /// changes then.
    pub fn take_message(&mut self, id: u32) -> Result<u32, Code>
        ensures answer { result ≡ (gets self.old id).0 }
        ensures left { self.new ≡ (gets self.old id).1 }
    {
        let Some(numbered) = self.objects.state(id) else {
            return Err(Code::UNKNOWN_MAILBOX);
        };
        let by_priority = numbered.mailbox.messages_by_priority();
        match self.messages.take(numbered.queue, by_priority) {
            Some(message) => Ok(message.item),
            None => Err(Code::NO_MESSAGE),
        }
    }

    /// Lets a thread wait for a message of a live mailbox, behind all others. The message is to be
    /// written to a guest's address then.
    pub fn wait(&mut self, id: u32, thread: u32, priority: u8, place: u32)
        requires live { is_some (object_of self.old.live id) ≡ true }
        requires room { waiting self.old < MOST_WAITERS }
        ensures { self.new ≡ waits self.old id thread priority place }
    {
        self.objects.wait(
            id,
            Waiter {
                thread,
                wants: place,
            },
            priority,
        );
    }

    /// Takes the thread out that is next among those that wait for a mailbox. None exactly where
    /// none waits, or no mailbox of this id is live.
    pub fn pop_waiter(&mut self, id: u32) -> Option<u32>
        ensures answer { let taken = takes_waiter self.old id in
            result ≡ option_map (λ waiter. waiter.thread) taken.0 }
        ensures left { self.new ≡ (takes_waiter self.old id).1 }
    {
        let by_priority = self.by_priority(id);
        let waiter = self.objects.take_next(id, by_priority)?;
        Some(waiter.thread)
    }

    /// Takes a thread out of those that wait for a mailbox, if it does.
    pub fn drop_waiter(&mut self, id: u32, thread: u32)
        ensures { self.new ≡ drops self.old id thread }
    {
        self.objects.drop_waiter(id, thread);
    }

    /// Changes the priority of a thread that waits for a mailbox, if it does. Where waiters are
    /// chosen by priority it waits behind all others then, else it keeps its place.
    pub fn requeue(&mut self, id: u32, thread: u32, priority: u8)
        ensures { self.new ≡ requeues self.old id (is_by_priority self.old id) thread priority }
    {
        let by_priority = self.by_priority(id);
        self.objects.requeue(id, by_priority, thread, priority);
    }

    /// Says whether the threads that wait for a mailbox are chosen by priority: false where none of
    /// this id is live.
    fn by_priority(&self, id: u32) -> bool
        ensures { result ≡ is_by_priority self.now id }
    {
        match self.get(id) {
            Some(mailbox) => mailbox.waiters_by_priority(),
            None => false,
        }
    }
}
