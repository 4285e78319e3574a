//! The kernel and its processor.

ghost use Rattle.std.specs.Prelude.{◌≡◌, [], OnOk, true, Some, MatchBool};
ghost use Rattle.iop_kernel.specs.Standing.{Holds, IsHeld, core};
ghost use Rattle.iop_kernel.specs.System.{Kernel as State};
ghost use Rattle.iop_saved_kernel.specs.Executing.{head_in, cause_in};
ghost use Rattle.iop_saved_kernel.specs.Next.{next_in};
ghost use Rattle.iop_saved_kernel.specs.Parts.{parts_in, written_form, steady_form_of_parts, core_back, may_be_next, with_next, had_number};
ghost use Rattle.iop_saved_kernel.specs.Restored.{HoldsCore};
ghost use Rattle.iop_saved_kernel.specs.Restoring.{Restores};
ghost use Rattle.iop_snapshot.specs.Writing.{place_of, Writes};

use crate::executing::{Executing, registers_had};
use crate::head::KernelHead;
use crate::next::{Next, restore_next, save_next};
use crate::objects::{Objects, save_objects};
use crate::priorities::ThreadPriorities;
use crate::threads::{restore_threads, save_threads};
use crate::timers::{restore_timers, save_timers};
use iop_base::WriteFault;
use iop_exec::Cpu;
use iop_kernel::{ActiveHandler, Cause, Kernel};
use iop_ports::Sink;
use iop_ready::Ready;
use iop_saved_tables::{restore_lines, save_lines};
use iop_snapshot::{Decoder, Encoder, SnapFault};
use std::alloc::Global;

/// A kernel that was put back, and its processor.
#[derive(Drop)]
pub struct RestoredKernel<R> {
    /// The kernel.
    pub kernel: Kernel<R>,
    /// Its processor.
    pub cpu: Cpu,
}

/// Writes a kernel and its processor.
pub fn save_kernel<R: Ready, S: Sink>(
    kernel: &Kernel<R>,
    cpu: &Cpu,
    encoder: &mut Encoder<'_, S>,
) -> Result<(), WriteFault>
    requires sound { IsHeld R.stands kernel.now }
    ensures written { (k : State) → Holds R.stands kernel.now k
        → Writes result (written_form.spell (parts_in (core k cpu.now)))
        (place_of S.told encoder.old) (place_of S.told encoder.new) }
    ensures fits { OnOk result ((k : State) → Holds R.stands kernel.now k
        → written_form.fits (parts_in (core k cpu.now)) ≡ true) }
{
    Executing::new(head_of(kernel), cpu, kernel.handler).save(encoder)?;
    save_threads(&kernel.threads, encoder)?;
    save_objects(kernel, encoder)?;
    save_timers(&kernel.timers, encoder)?;
    save_lines(&kernel.irqs, encoder)?;
    save_next(next_of(kernel), encoder)
}

/// Tells what a kernel has beside its tables.
fn head_of<R: Ready>(kernel: &Kernel<R>) -> KernelHead
    ensures { (k : State) → Holds R.stands kernel.now k → result ≡ head_in k }
{
    KernelHead {
        clock: kernel.clock,
        interrupts: kernel.interrupts,
        dispatching: kernel.dispatching,
        running: kernel.threads.running(),
        cause: cause_in(kernel.handler),
    }
}

/// Tells what a handler was begun for, if one is active.
fn cause_in(handler: Option<ActiveHandler>) -> Option<Cause>
    ensures { result ≡ cause_in handler }
{
    match handler {
        None => None,
        Some(handler) => Some(handler.cause),
    }
}

/// Tells what a kernel gives out next.
fn next_of<R: Ready>(kernel: &Kernel<R>) -> Next
    requires sound { IsHeld R.stands kernel.now }
    ensures { (k : State) → Holds R.stands kernel.now k → result ≡ next_in k }
{
    Next {
        thread: kernel.threads.next_id(),
        semaphore: kernel.semaphores.next_id(),
        event_flag: kernel.event_flags.next_id(),
        mailbox: kernel.mailboxes.next_id(),
        variable_pool: kernel.variable_pools.next_id(),
        fixed_pool: kernel.fixed_pools.next_id(),
        timer: kernel.timers.next_number(),
    }
}

/// Reads a kernel and its processor and puts them back, beside a list of ready threads in which
/// none is. `Bad` exactly where none can be read that can be put back, unless memory runs out.
pub fn restore_kernel<R: Ready + Drop>(
    alloc: Global,
    ready: R,
    decoder: &mut Decoder<'_>,
) -> Result<RestoredKernel<R>, SnapFault>
    requires none { R.stands ready [] }
    ensures { Restores steady_form_of_parts core_back (HoldsCore R.stands) result decoder.old
        decoder.new }
{
    let Some(executing) = Executing::restore(decoder) else {
        return Err(SnapFault::Bad);
    };
    let threads = restore_threads(alloc, ready, executing.head.running, decoder)?;
    let priorities = ThreadPriorities::of(&threads);
    let objects = Objects::restore(alloc, &priorities, decoder)?;
    let timers = restore_timers(alloc, decoder)?;
    let Some(irqs) = restore_lines(decoder) else {
        return Err(SnapFault::Bad);
    };
    let Some(next) = restore_next(decoder) else {
        return Err(SnapFault::Bad);
    };
    let mut kernel = Kernel {
        clock: executing.head.clock,
        interrupts: executing.head.interrupts,
        dispatching: executing.head.dispatching,
        handler: executing.handler(),
        threads,
        semaphores: objects.semaphores,
        event_flags: objects.event_flags,
        mailboxes: objects.mailboxes,
        variable_pools: objects.variable_pools,
        fixed_pools: objects.fixed_pools,
        timers,
        irqs,
    };
    if !had_number(executing.head.cause, next.timer) {
        return Err(SnapFault::Bad);
    }
    if !put_next(&mut kernel, &next) {
        return Err(SnapFault::Bad);
    }
    let cpu = registers_had(executing.cpu);
    Ok(RestoredKernel { kernel, cpu })
}

/// Says whether an alarm that a handler was begun for had a number: from 1 to below the next one.
fn had_number(cause: Option<Cause>, next: u64) -> bool
    ensures { result ≡ had_number next cause }
{
    match cause {
        Some(Cause::Alarm(number)) => 0 < number && number < next,
        _ => true,
    }
}

/// Puts back what is given out next. False exactly where a table refuses it.
fn put_next<R: Ready>(kernel: &mut Kernel<R>, next: &Next) -> bool
    ensures { (k : State) → Holds R.stands kernel.old k → (result ≡ may_be_next k next.now)
        × (result ≡ true → Holds R.stands kernel.new (with_next k next.now)) }
{
    kernel.threads.put_next(next.thread)
        && kernel.semaphores.put_next(next.semaphore)
        && kernel.event_flags.put_next(next.event_flag)
        && kernel.mailboxes.put_next(next.mailbox)
        && kernel.variable_pools.put_next(next.variable_pool)
        && kernel.fixed_pools.put_next(next.fixed_pool)
        && kernel.timers.put_next(next.timer)
}
