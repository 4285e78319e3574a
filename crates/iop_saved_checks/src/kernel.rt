//! The whole kernel.

ghost use Rattle.std.specs.Prelude.{◌≡◌};
ghost use Rattle.iop_kernel.specs.Standing.{Holds};
ghost use Rattle.iop_kernel.specs.System.{Kernel as State};
ghost use Rattle.iop_kernel.specs.Kinds.{table};
ghost use Rattle.iop_saved_checks.specs.Kernels.{is_awake, all_objects_agree, agrees};
ghost use Rattle.iop_saved_checks.specs.Objects.{objects_agree};

use crate::made::threads_can_be;
use crate::objects::objects_agree;
use crate::pools::pools_are_inside;
use crate::threads::{delays_agree, threads_agree};
use iop_kernel::Kernel;
use iop_ready::Ready;
use iop_stubs::Guest;
use iop_thread::Kind;

/// Says whether the tables of a kernel agree with each other and with memory, so that it is one in
/// which a machine can stand where the budget of a run ends.
///
/// A thread runs, or another may; each that waits for a time has a delay, each that waits for an
/// object is once among those that wait for it, and no other thread is; a thread that sleeps has no
/// wakeups, and nothing is pending of a load where a thread waits; there is nothing to be had for
/// those that wait for an object, and each of them has a place in memory for what it is told; no
/// thread is to be dispatched now; and threads and pools are such as the calls of a guest make
/// them.
#[tactic(auto, unfolding(crate::specs::Kernels::agrees))]
pub fn agrees<R: Ready>(kernel: &Kernel<R>, guest: &Guest) -> bool
    ensures { (k : State) → Holds R.stands kernel.now k → result ≡ agrees guest.now k }
{
    let ram = guest.ram();
    is_awake(kernel)
        && threads_agree(kernel)
        && delays_agree(kernel)
        && all_objects_agree(kernel, guest)
        && threads_can_be(&kernel.threads, ram)
        && pools_are_inside(kernel, ram)
}

/// Says whether the objects of all kinds agree with the threads and with memory.
#[tactic(auto, unfolding(crate::specs::Kernels::all_objects_agree))]
fn all_objects_agree<R: Ready>(kernel: &Kernel<R>, guest: &Guest) -> bool
    ensures { (k : State) → Holds R.stands kernel.now k → result ≡ all_objects_agree guest.now k }
{
    kind_agrees(kernel, Kind::Semaphore, guest)
        && kind_agrees(kernel, Kind::EventFlag, guest)
        && kind_agrees(kernel, Kind::Mailbox, guest)
        && kind_agrees(kernel, Kind::VariablePool, guest)
        && kind_agrees(kernel, Kind::FixedPool, guest)
}

/// Says whether the objects of a kind agree with the threads and with memory.
fn kind_agrees<R: Ready>(kernel: &Kernel<R>, kind: Kind, guest: &Guest) -> bool
    ensures { (k : State) → Holds R.stands kernel.now k
        → result ≡ objects_agree guest.now k.threads kind (table kind k) }
{
    let threads = &kernel.threads;
    match kind {
        Kind::Semaphore => objects_agree(&kernel.semaphores, threads, guest),
        Kind::EventFlag => objects_agree(&kernel.event_flags, threads, guest),
        Kind::Mailbox => objects_agree(&kernel.mailboxes, threads, guest),
        Kind::VariablePool => objects_agree(&kernel.variable_pools, threads, guest),
        Kind::FixedPool => objects_agree(&kernel.fixed_pools, threads, guest),
    }
}

/// Says whether a thread runs, or another may: at once, or once the handler that runs has returned.
fn is_awake<R: Ready>(kernel: &Kernel<R>) -> bool
    ensures { (k : State) → Holds R.stands kernel.now k → result ≡ is_awake k }
{
    match kernel.threads.running() {
        Some(_) => true,
        None => kernel.dispatching && (kernel.handler.is_some() || kernel.interrupts),
    }
}
