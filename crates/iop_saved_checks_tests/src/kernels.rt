//! Kernels as the bytes of a snapshot.

ghost use Rattle.std.specs.Prelude.{IfOk};
ghost use Rattle.iop_kernel.specs.Standing.{IsHeld};
ghost use Rattle.iop_ready.specs.KernelReady.{KernelStands};

use iop_ready::KernelReady;
use iop_saved_checks::agrees;
use iop_saved_kernel::{RestoredKernel, restore_kernel};
use iop_snapshot::{Decoder, SnapFault};
use iop_stubs::Guest;
use std::alloc::{AllocError, Global};

/// The numbers of a thread: id, attribute, option, entry, stack, its size, `$gp`, first priority,
/// priority, state, what it waits for, the id of that, and wakeups.
pub(crate) type Numbers = [u32; 13];

/// A kernel: whether interrupts are on, the id of the thread that runs or 0, the threads, the ids
/// of the ready ones, and the lists of semaphores, event flags, mailboxes, variable pools, fixed
/// pools, alarms and delays, each its length and then its numbers.
#[derive(Clone, Copy)]
pub(crate) struct Saved<'a> {
    pub(crate) interrupts: bool,
    pub(crate) running: u32,
    pub(crate) threads: &'a [Numbers],
    pub(crate) ready: &'a [u32],
    pub(crate) lists: &'a [u32],
}

/// The loader's thread in a state, with what it waits for and its wakeups.
pub(crate) fn loader(state: u32, wait: u32, wait_id: u32, wakeups: u32) -> Numbers {
    [
        1,
        0x0200_0000,
        0,
        0,
        0xC000,
        0x4000,
        0,
        8,
        8,
        state,
        wait,
        wait_id,
        wakeups,
    ]
}

/// Another thread, of a priority, that is ready.
pub(crate) fn ready(id: u32, priority: u32) -> Numbers {
    [
        id,
        0x0200_0000,
        0,
        0x10000,
        0x20000,
        0x400,
        0,
        9,
        priority,
        2,
        0,
        0,
        0,
    ]
}

/// A dormant thread: its id, attribute, option, entry, stack, its size, `$gp` and first priority; and
/// its wakeups.
pub(crate) fn dormant(numbers: [u32; 8], wakeups: u32) -> Numbers {
    let [id, attr, option, entry, stack, size, gp, priority] = numbers;
    [
        id, attr, option, entry, stack, size, gp, priority, priority, 0x10, 0, 0, wakeups,
    ]
}

/// A processor at address 0, all zero: 36 words, no slot, and nothing pending.
fn processor() -> [u8; 150] {
    let mut cpu = [0; 150];
    cpu[140] = 4;
    cpu
}

/// Writes numbers, each of four bytes.
fn append(bytes: &mut Vec<u8>, numbers: &[u32]) -> Result<(), AllocError> {
    for number in numbers {
        bytes.extend_from_slice(&number.to_le_bytes())?;
    }
    Ok(())
}

/// Writes a thread, with its registers where it keeps some.
fn append_thread(bytes: &mut Vec<u8>, thread: &Numbers) -> Result<(), AllocError> {
    append(bytes, thread)?;
    if matches!(thread[9], 2 | 4 | 8 | 0xC) {
        bytes.extend_from_slice(&processor())?;
    }
    Ok(())
}

/// Tells a length as the count of a list, which is one that four bytes can tell.
fn count(length: usize) -> u32 {
    u32::try_from(length).unwrap_or(u32::MAX)
}

/// Writes a kernel at moment 9, that goes on with thread 3, objects 2 and number 2.
fn bytes_of(alloc: Global, saved: Saved<'_>) -> Result<Vec<u8>, AllocError> {
    let mut bytes = Vec::from_slice(alloc, &[9, 0, 0, 0, 0, 0, 0, 0])?;
    bytes.extend_from_slice(&[u8::from(saved.interrupts), 1])?;
    append(&mut bytes, &[saved.running])?;
    bytes.extend_from_slice(&[0; 9])?;
    if saved.running != 0 {
        bytes.extend_from_slice(&processor())?;
    }
    append(&mut bytes, &[count(saved.threads.len())])?;
    for thread in saved.threads {
        append_thread(&mut bytes, thread)?;
    }
    append(&mut bytes, &[count(saved.ready.len())])?;
    append(&mut bytes, saved.ready)?;
    append(&mut bytes, saved.lists)?;
    bytes.extend_from_slice(&[0; 64 * 15])?;
    append(&mut bytes, &[3, 2, 2, 2, 2, 2, 2, 0])?;
    Ok(bytes)
}

/// Reads a kernel and puts it back.
fn restored(alloc: Global, bytes: &[u8]) -> Result<RestoredKernel<KernelReady>, SnapFault>
    ensures { IfOk result (λ made. IsHeld KernelStands made.kernel) }
{
    restore_kernel(alloc, KernelReady::new(alloc)?, &mut Decoder::new(bytes))
}

/// Says whether the tables of a kernel agree that was put back.
pub(crate) fn agrees_again(
    alloc: Global,
    guest: &Guest,
    saved: Saved<'_>,
) -> Result<bool, SnapFault> {
    let bytes = bytes_of(alloc, saved)?;
    let made = restored(alloc, &bytes)?;
    Ok(agrees(&made.kernel, guest))
}
