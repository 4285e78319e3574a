//! The threads, and the delays of those that wait for a time.

ghost use Rattle.std.specs.Prelude.{◌≡◌, Some};
ghost use Rattle.std.specs.List.{list_any};
ghost use Rattle.iop_kernel.specs.Placing.{is_for_delay};
ghost use Rattle.iop_kernel.specs.Standing.{Holds};
ghost use Rattle.iop_kernel.specs.System.{Kernel as State, may_dispatch};
ghost use Rattle.iop_saved_checks.specs.Threads.{is_awaited, is_unwoken, has_loaded, is_behind, is_in_turn, thread_agrees, threads_agree, delays_agree};
ghost use Rattle.iop_thread.specs.Standing.{Stands};
ghost use Rattle.iop_thread.specs.States.{wait_in, is_ready};
ghost use Rattle.iop_thread.specs.ThreadTable.{ThreadTable, running_thread};
ghost use Rattle.iop_thread.specs.Waits.{wait_of};
ghost use Rattle.iop_thread.specs.declared.wait.Wait.TheVariants.{Object};
ghost use Rattle.iop_time.specs.Timers.{is_delay_of};

use crate::waiters::is_once;
use iop_kernel::Kernel;
use iop_ready::{MOST_THREADS, Ready};
use iop_thread::{Kind, State as ThreadState, Thread, Threads, Wait};
use iop_time::Delay;

/// Says whether each thread agrees with what it waits for, and with the thread that runs.
pub(crate) fn threads_agree<R: Ready>(kernel: &Kernel<R>) -> bool
    ensures { (k : State) → Holds R.stands kernel.now k → result ≡ threads_agree k }
{
    let mut last = 0;
    for _ in 0..MOST_THREADS {
        let Some(thread) = kernel.threads.next_above(last) else {
            return true;
        };
        if !thread_agrees(kernel, thread) {
            return false;
        }
        last = thread.id;
    }
    true
}

/// Says whether a thread agrees with what it waits for, and with the thread that runs.
fn thread_agrees<R: Ready>(kernel: &Kernel<R>, thread: &Thread) -> bool
    ensures { (k : State) → Holds R.stands kernel.now k → result ≡ thread_agrees k thread.now }
{
    is_awaited(kernel, thread)
        && is_unwoken(thread)
        && has_loaded(&thread.state)
        && is_in_turn(kernel, thread)
}

/// Says whether a thread that waits for a time has a delay, and one that waits for an object is
/// once among those that wait for it.
fn is_awaited<R: Ready>(kernel: &Kernel<R>, thread: &Thread) -> bool
    ensures { (k : State) → Holds R.stands kernel.now k
        → result ≡ is_awaited k thread.now.id (wait_in thread.now.state) }
{
    match thread.state.wait() {
        Some(Wait::Delay) => is_delayed(kernel.timers.delays(), thread.id),
        Some(Wait::Object(kind, id)) => is_queued(kernel, kind, id, thread.id),
        _ => true,
    }
}

/// Says whether a delay is that of a thread.
fn is_delayed(delays: &[Delay], thread: u32) -> bool
    ensures { result ≡ list_any (is_delay_of thread) delays.now }
{
    delays.iter().any(|delay| delay.thread == thread)
}

/// Says whether a thread is once among those that wait for the object of a kind and an id.
fn is_queued<R: Ready>(kernel: &Kernel<R>, kind: Kind, id: u32, thread: u32) -> bool
    ensures { (k : State) → Holds R.stands kernel.now k
        → result ≡ is_awaited k thread (Some (Object kind id)) }
{
    match kind {
        Kind::Semaphore => is_once(kernel.semaphores.walk(id), thread),
        Kind::EventFlag => is_once(kernel.event_flags.walk(id), thread),
        Kind::Mailbox => is_once(kernel.mailboxes.walk(id), thread),
        Kind::VariablePool => is_once(kernel.variable_pools.walk(id), thread),
        Kind::FixedPool => is_once(kernel.fixed_pools.walk(id), thread),
    }
}

/// Says whether a thread has no wakeups if it sleeps.
fn is_unwoken(thread: &Thread) -> bool
    ensures { result ≡ is_unwoken thread.now }
{
    match thread.state.wait() {
        Some(Wait::Sleep) => thread.wakeups == 0,
        _ => true,
    }
}

/// Says whether nothing is pending of a load where a thread waits.
fn has_loaded(state: &ThreadState) -> bool
    ensures { result ≡ has_loaded state.now }
{
    match state {
        ThreadState::Waiting(_, own) | ThreadState::WaitingSuspended(_, own) => own
            .pending
            .is_none(),
        _ => true,
    }
}

/// Says whether a thread is not one that is to be dispatched now: another may not run now, it is
/// not ready, or it is no better than the one that runs.
fn is_in_turn<R: Ready>(kernel: &Kernel<R>, thread: &Thread) -> bool
    ensures { (k : State) → Holds R.stands kernel.now k → result ≡ is_in_turn k thread.now }
{
    if !may_dispatch(kernel) || !is_ready(&thread.state) {
        return true;
    }
    let Some(running) = kernel.threads.running() else {
        return false;
    };
    let Some(running) = kernel.threads.get(running) else {
        return false;
    };
    running.priority.number() <= thread.priority.number()
}

/// Says whether another thread is to run now if it is better.
fn may_dispatch<R: Ready>(kernel: &Kernel<R>) -> bool
    ensures { (k : State) → Holds R.stands kernel.now k → result ≡ may_dispatch k }
{
    kernel.interrupts && kernel.dispatching && kernel.handler.is_none()
}

/// Says whether a thread is ready.
fn is_ready(state: &ThreadState) -> bool
    ensures { result ≡ is_ready state.now }
{
    matches!(state, ThreadState::Ready(_))
}

/// Says whether each delay is that of a thread that waits for a time.
pub(crate) fn delays_agree<R: Ready>(kernel: &Kernel<R>) -> bool
    ensures { (k : State) → Holds R.stands kernel.now k → result ≡ delays_agree k }
{
    for delay in kernel.timers.delays() {
        if !waits_for_time(&kernel.threads, delay.thread) {
            return false;
        }
    }
    true
}

/// Says whether a thread waits for a time.
fn waits_for_time<R: Ready>(threads: &Threads<R>, id: u32) -> bool
    ensures { (s : ThreadTable) → Stands R.stands threads.now s
        → result ≡ is_for_delay (wait_of s id) }
{
    let Some(thread) = threads.get(id) else {
        return false;
    };
    matches!(thread.state.wait(), Some(Wait::Delay))
}
