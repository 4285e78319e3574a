//! Those that wait for an object.

ghost use Rattle.std.specs.Prelude.{◌≡◌, ◌==◌, ◌&&◌};
ghost use Rattle.iop_kernel.specs.Kinds.{is_kind};
ghost use Rattle.iop_kernel.specs.Placing.{is_for};
ghost use Rattle.iop_kernel.specs.Waits.{threads_of};
ghost use Rattle.iop_saved_checks.specs.Waiters.{is_waiter, are_waiters, walked};
ghost use Rattle.iop_thread.specs.Placing.{times};
ghost use Rattle.iop_thread.specs.Standing.{Stands};
ghost use Rattle.iop_thread.specs.ThreadTable.{ThreadTable};

use crate::waited::Waited;
use iop_objects::Waiter;
use iop_queues::{Queued, Walk};
use iop_ready::Ready;
use iop_stubs::Guest;
use iop_thread::{Kind, Threads, Wait};

/// Says whether a thread is once among those over whom one walks.
pub(crate) fn is_once<W: Copy>(waiters: Option<Walk<'_, Waiter<W>>>, thread: u32) -> bool
    ensures { result ≡ (times thread (threads_of (walked waiters.entry)) == 1) }
{
    let Some(mut walk) = waiters else {
        return false;
    };
    let mut found = false;
    while let Some(queued) = walk.next() {
        if queued.item.thread == thread {
            if found {
                return false;
            }
            found = true;
        }
    }
    found
}

/// Says whether those that wait for the object of an id do so by their states, with their
/// priorities, and have places for what they are told.
pub(crate) fn are_waiters<T: Waited, R: Ready>(
    waiters: Option<Walk<'_, Waiter<T::Wants>>>,
    id: u32,
    threads: &Threads<R>,
    guest: &Guest,
) -> bool
    ensures { (s : ThreadTable) → Stands R.stands threads.now s
        → result ≡ are_waiters s T.kind id (T.has_place guest.now) (walked waiters.entry) }
{
    let Some(mut walk) = waiters else {
        return true;
    };
    while let Some(queued) = walk.next() {
        if !is_waiter(queued, T::kind(), id, threads) {
            return false;
        }
        if !T::has_place(queued.item.wants, guest) {
            return false;
        }
    }
    true
}

/// Says whether one that waits for an object is a thread that does so by its state, and stands
/// there with its priority.
fn is_waiter<W: Copy, R: Ready>(
    queued: Queued<Waiter<W>>,
    kind: Kind,
    id: u32,
    threads: &Threads<R>,
) -> bool
    ensures { (s : ThreadTable) → Stands R.stands threads.now s
        → result ≡ is_waiter s kind id queued }
{
    let Some(thread) = threads.get(queued.item.thread) else {
        return false;
    };
    is_for(kind, id, thread.state.wait()) && queued.priority == thread.priority.number()
}

/// Says whether that is the object of a kind and of an id.
fn is_for(kind: Kind, id: u32, wait: Option<Wait>) -> bool
    ensures { result ≡ is_for kind id wait }
{
    match wait {
        Some(Wait::Object(other, one)) => is_kind(kind, other) && one == id,
        _ => false,
    }
}

/// Says whether two kinds are one.
fn is_kind(kind: Kind, other: Kind) -> bool
    ensures { result ≡ is_kind kind other }
{
    matches!(
        (kind, other),
        (Kind::Semaphore, Kind::Semaphore)
            | (Kind::EventFlag, Kind::EventFlag)
            | (Kind::Mailbox, Kind::Mailbox)
            | (Kind::VariablePool, Kind::VariablePool)
            | (Kind::FixedPool, Kind::FixedPool)
    )
}
