//! The kinds of objects that threads wait for: what is looked at of each.

ghost use Rattle.std.specs.Prelude.{◌≡◌, ℕ, nat_lt, Bool, true, not, List, length, slice_get, is_some};
ghost use Rattle.std.specs.List.{list_all};
ghost use Rattle.iop_event.specs.WakeConditions.{is_met};
ghost use Rattle.iop_kernel.specs.System.{words_place};
ghost use Rattle.iop_objects.specs.Objects.{state_of, waiters_of};
ghost use Rattle.iop_objects.specs.declared.waiter.Waiter.{Waiter as Waiting};
ghost use Rattle.iop_queues.specs.declared.queued.Queued.{Queued};
ghost use Rattle.iop_saved_checks.specs.Idle.{is_idle_where};
ghost use Rattle.iop_saved_checks.specs.Objects.{ids_of};
ghost use Rattle.iop_saved_checks.specs.Places.{has_place};
ghost use Rattle.iop_saved_checks.specs.Waiters.{walked};
ghost use Rattle.iop_stubs.specs.Stubs.{Memory};
ghost use Rattle.iop_thread.specs.declared.kind.Kind.{Kind as WaitKind};
ghost use Rattle.iop_thread.specs.declared.kind.Kind.TheVariants.{Semaphore, EventFlag, Mailbox, VariablePool, FixedPool};

use iop_event::{EventFlags, Wanted, holds};
use iop_mbx::Mailboxes;
use iop_objects::Waiter;
use iop_pools::{FixedPools, VariablePools};
use iop_queues::Walk;
use iop_sema::Semaphores;
use iop_stubs::Guest;
use iop_thread::Kind;

/// A table of objects for which threads wait.
pub(crate) trait Waited {
    /// What a thread wants that waits for one.
    type Wants: Copy;

    /// Their kind.
    ghost kind: { WaitKind };

    /// The ids of those that are live.
    ghost ids: { Self → List ℕ };

    /// The threads that wait for the one of an id.
    ghost waiters: { Self → ℕ → List (Queued (Waiting Self.Wants)) };

    /// Whether a thread has a place in memory for what it is told.
    ghost has_place: { Memory → Self.Wants → Bool };

    /// Whether there is nothing to be had for those that wait for the one of an id.
    ghost is_idle: { Self → ℕ → Bool };

    /// Tells their kind.
    fn kind() -> Kind
        ensures { result ≡ kind };

    /// Tells how many are live.
    fn len(&self) -> usize
        ensures { result ≡ length (ids self.now) };

    /// Reads the id of the live one at a place in the order of ids. None exactly where so many or
    /// fewer are live.
    fn id_at(&self, place: usize) -> Option<u32>
        ensures { result ≡ slice_get (ids self.now) place };

    /// Walks over the threads that wait for the one of an id. None where none of this id is live.
    fn walk(&self, id: u32) -> Option<Walk<'_, Waiter<Self::Wants>>>
        ensures { walked result ≡ waiters self.now id };

    /// Says whether a thread has a place in memory for what it is told.
    fn has_place(wants: Self::Wants, guest: &Guest) -> bool
        ensures { result ≡ has_place guest.now wants };

    /// Says whether there is nothing to be had for those that wait for the one of an id.
    fn is_idle(&self, id: u32) -> bool
        ensures { result ≡ is_idle self.now id };
}

impl Waited for Semaphores {
    type Wants = ();

    ghost kind = { Semaphore };

    ghost ids = { λ s. ids_of s };

    ghost waiters = { λ s id. waiters_of s id };

    ghost has_place = { λ memory wants. true };

    ghost is_idle = { λ s id. is_idle_where Semaphore (state_of s id) (waiters_of s id) };

    fn kind() -> Kind {
        Kind::Semaphore
    }

    fn len(&self) -> usize {
        self.len()
    }

    fn id_at(&self, place: usize) -> Option<u32> {
        let (id, _) = self.nth(place)?;
        Some(id)
    }

    fn walk(&self, id: u32) -> Option<Walk<'_, Waiter<()>>> {
        self.walk(id)
    }

    fn has_place(_wants: (), _guest: &Guest) -> bool {
        true
    }

    fn is_idle(&self, id: u32) -> bool {
        match self.get(id) {
            Some(semaphore) => self.waiters(id) == 0 || semaphore.count == 0,
            None => true,
        }
    }
}

impl Waited for EventFlags {
    type Wants = Wanted;

    ghost kind = { EventFlag };

    ghost ids = { λ s. ids_of s };

    ghost waiters = { λ s id. waiters_of s id };

    ghost has_place = { λ memory wants. has_place EventFlag memory wants };

    ghost is_idle = { λ s id. is_idle_where EventFlag (state_of s id) (waiters_of s id) };

    fn kind() -> Kind {
        Kind::EventFlag
    }

    fn len(&self) -> usize {
        self.len()
    }

    fn id_at(&self, place: usize) -> Option<u32> {
        let (id, _) = self.nth(place)?;
        Some(id)
    }

    fn walk(&self, id: u32) -> Option<Walk<'_, Waiter<Wanted>>> {
        self.walk(id)
    }

    fn has_place(wants: Wanted, guest: &Guest) -> bool {
        wants.place == 0 || has_word(wants.place, guest)
    }

    fn is_idle(&self, id: u32) -> bool {
        match self.get(id) {
            Some(flag) => none_is_met(self.walk(id), flag.pattern),
            None => true,
        }
    }
}

impl Waited for Mailboxes {
    type Wants = u32;

    ghost kind = { Mailbox };

    ghost ids = { λ s. ids_of s };

    ghost waiters = { λ s id. waiters_of s id };

    ghost has_place = { λ memory wants. has_place Mailbox memory wants };

    ghost is_idle = { λ s id. is_idle_where Mailbox (state_of s id) (waiters_of s id) };

    fn kind() -> Kind {
        Kind::Mailbox
    }

    fn len(&self) -> usize {
        self.len()
    }

    fn id_at(&self, place: usize) -> Option<u32> {
        let (id, _) = self.nth(place)?;
        Some(id)
    }

    fn walk(&self, id: u32) -> Option<Walk<'_, Waiter<u32>>> {
        self.walk(id)
    }

    fn has_place(wants: u32, guest: &Guest) -> bool {
        has_word(wants, guest)
    }

    fn is_idle(&self, id: u32) -> bool {
        self.waiters(id) == 0 || self.messages(id) == 0
    }
}

impl Waited for VariablePools {
    type Wants = u32;

    ghost kind = { VariablePool };

    ghost ids = { λ s. ids_of s };

    ghost waiters = { λ s id. waiters_of s id };

    ghost has_place = { λ memory wants. true };

    ghost is_idle = { λ s id. is_idle_where VariablePool (state_of s id) (waiters_of s id) };

    fn kind() -> Kind {
        Kind::VariablePool
    }

    fn len(&self) -> usize {
        self.len()
    }

    fn id_at(&self, place: usize) -> Option<u32> {
        let (id, _) = self.nth(place)?;
        Some(id)
    }

    fn walk(&self, id: u32) -> Option<Walk<'_, Waiter<u32>>> {
        self.walk(id)
    }

    fn has_place(_wants: u32, _guest: &Guest) -> bool {
        true
    }

    fn is_idle(&self, id: u32) -> bool {
        match self.get(id) {
            Some(pool) => all_want_more(self.walk(id), pool.greatest),
            None => true,
        }
    }
}

impl Waited for FixedPools {
    type Wants = ();

    ghost kind = { FixedPool };

    ghost ids = { λ s. ids_of s };

    ghost waiters = { λ s id. waiters_of s id };

    ghost has_place = { λ memory wants. true };

    ghost is_idle = { λ s id. is_idle_where FixedPool (state_of s id) (waiters_of s id) };

    fn kind() -> Kind {
        Kind::FixedPool
    }

    fn len(&self) -> usize {
        self.len()
    }

    fn id_at(&self, place: usize) -> Option<u32> {
        let (id, _) = self.nth(place)?;
        Some(id)
    }

    fn walk(&self, id: u32) -> Option<Walk<'_, Waiter<()>>> {
        self.walk(id)
    }

    fn has_place(_wants: (), _guest: &Guest) -> bool {
        true
    }

    fn is_idle(&self, id: u32) -> bool {
        match self.get(id) {
            Some(pool) => self.waiters(id) == 0 || pool.free == 0,
            None => true,
        }
    }
}

/// Says whether a word at an address is wholly in RAM, and the address a multiple of 4.
fn has_word(at: u32, guest: &Guest) -> bool
    ensures { result ≡ is_some (words_place guest.now at 1) }
{
    at % 4 == 0 && guest.ram().contains(at, 4)
}

/// Says whether no condition of those that wait holds on a pattern.
fn none_is_met(waiters: Option<Walk<'_, Waiter<Wanted>>>, pattern: u32) -> bool
    ensures { result ≡ list_all (λ x. not (is_met pattern x.item)) (walked waiters.entry) }
{
    let Some(mut walk) = waiters else {
        return true;
    };
    while let Some(queued) = walk.next() {
        let wants = queued.item.wants;
        if holds(wants.bits, wants.mode, pattern) {
            return false;
        }
    }
    true
}

/// Says whether all those that wait want more than so many bytes.
fn all_want_more(waiters: Option<Walk<'_, Waiter<u32>>>, most: u32) -> bool
    ensures { result ≡ list_all (λ x. nat_lt most x.item.wants) (walked waiters.entry) }
{
    let Some(mut walk) = waiters else {
        return true;
    };
    while let Some(queued) = walk.next() {
        if queued.item.wants <= most {
            return false;
        }
    }
    true
}
