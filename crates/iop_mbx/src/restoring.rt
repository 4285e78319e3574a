//! Mailboxes, the threads that wait for them and their messages, read in order and put back.
#![tactic(auto, using(crate::proofs::Reading::readings))]

ghost use Rattle.std.specs.Prelude.{◌≡◌, ◌≤◌, if◌then◌else◌, option_map, length, slice_get};
ghost use Rattle.iop_mbx.specs.Mailboxes.{without_messages, puts, waits};
ghost use Rattle.iop_objects.specs.Objects.{object_of, state_of};
ghost use Rattle.iop_objects.specs.declared.objects.TheConstants.{MOST_OBJECTS};
ghost use Rattle.iop_mbx.specs.Restoring.{may_follow, may_queue, with_last};
ghost use Rattle.iop_objects.specs.Restoring.{may_be_next, may_wait, with_next};

use crate::mailbox::{Mailbox, is_attribute};
use crate::mailboxes::Mailboxes;
use iop_objects::Waiter;
use iop_queues::Walk;

impl Mailboxes {
    /// Tells how many mailboxes are live.
    pub fn len(&self) -> usize
        ensures count { result ≡ length self.now.live }
        ensures few { result ≤ MOST_OBJECTS }
    {
        self.objects.len()
    }

    /// Reads the id of the live mailbox at a place in the order of ids, and its attribute and
    /// option. None exactly where so many or fewer are live.
    pub fn nth(&self, place: usize) -> Option<(u32, Mailbox)>
        ensures { result ≡ option_map (λ o. (o.id, without_messages o.state))
            (slice_get self.now.live place) }
    {
        let (id, numbered) = self.objects.nth(place)?;
        Some((id, numbered.mailbox))
    }

    /// Walks over the threads that wait for a mailbox, in order of their arrival. None exactly
    /// where none of this id is live.
    pub fn walk(&self, id: u32) -> Option<Walk<'_, Waiter<u32>>>
        ensures { result ≡ option_map (λ o. o.waiters) (object_of self.now.live id) }
    {
        self.objects.walk(id)
    }

    /// Walks over the messages of a mailbox, in the order in which they were queued. None exactly
    /// where none of this id is live.
    pub fn walk_messages(&self, id: u32) -> Option<Walk<'_, u32>>
        ensures { result ≡ option_map (λ x. x.messages) (state_of self.now id) }
    {
        let numbered = self.objects.state(id)?;
        Some(self.messages.walk(numbered.queue))
    }

    /// Tells the id of the next mailbox. Where none is left it is the one behind `LAST_ID`.
    pub fn next_id(&self) -> u32
        ensures { result ≡ self.now.next }
    {
        self.objects.next_id()
    }

    /// Puts a mailbox back behind all others, which has no message, and for which no thread waits.
    /// The next id is the one behind its own then. False exactly where its attribute has other bits
    /// than the two that are known, its id is below the next one or above `LAST_ID`, or
    /// `MOST_OBJECTS` are live; nothing changes then.
    pub fn put_back(&mut self, id: u32, mailbox: Mailbox) -> bool
        ensures may { result ≡ may_follow self.old id mailbox }
        ensures put { self.new ≡ if result then with_last self.old id mailbox else self.old }
    {
        if !is_attribute(mailbox.attr) {
            return false;
        }
        self.add(id, mailbox)
    }

    /// Lets a thread wait for a message of a mailbox again, behind all others. The message is to be
    /// written to a guest's address then. False exactly where no mailbox of this id is live, or
    /// `MOST_WAITERS` wait; nothing changes then.
    pub fn put_waiter(&mut self, id: u32, thread: u32, priority: u8, place: u32) -> bool
        ensures may { result ≡ may_wait self.old id }
        ensures put { self.new ≡ if result
            then waits self.old id thread priority place else self.old }
    {
        let waiter = Waiter {
            thread,
            wants: place,
        };
        self.objects.put_waiter(id, waiter, priority)
    }

    /// Queues a message behind the others of a mailbox again. False exactly where no mailbox of
    /// this id is live, its priority is not 0 where the mailbox does not look at it, or
    /// `MOST_MESSAGES` stand; nothing changes then.
    pub fn put_message(&mut self, id: u32, message: u32, priority: u8) -> bool
        ensures may { result ≡ may_queue self.old id priority }
        ensures put { self.new ≡ if result
            then (puts self.old id message priority).1 else self.old }
    {
        if !self.may_queue(id, priority) {
            return false;
        }
        let _ = self.put(id, message, priority);
        true
    }

    /// Puts the id of the next mailbox back. False exactly where it is below the one that is next
    /// or above the one behind `LAST_ID`; nothing changes then.
    pub fn put_next(&mut self, id: u32) -> bool
        ensures may { result ≡ may_be_next self.old id }
        ensures put { self.new ≡ if result then with_next self.old id else self.old }
    {
        self.objects.put_next(id)
    }

    /// Says whether a message of a priority may stand behind the others of a mailbox.
    fn may_queue(&self, id: u32, priority: u8) -> bool
        ensures { result ≡ may_queue self.now id priority }
    {
        match self.get(id) {
            Some(mailbox) => mailbox.can_have(priority) && self.has_room(),
            None => false,
        }
    }
}
