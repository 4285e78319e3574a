//! A kernel in which all has begun: an alarm's handler has interrupted a thread, and each list has
//! something.

use crate::tests::{LOADER, comes_back, processor, restored, with_byte};
use iop_exec::Cpu;
use iop_kernel::{ActiveHandler, Cause, Kernel};
use iop_ready::{KernelReady, Priority};
use iop_saved_kernel::RestoredKernel;
use iop_thread::registers_at;
use std::alloc::{AllocError, Global};
use std::process::Abort;
use std::test::Fail;

/// Its head.
const HEAD: [u8; 23] = [
    1, 2, 3, 4, 5, 6, 7, 8, // the moment
    0, 1, // interrupts are off, dispatch is enabled
    3, 0, 0, 0, // the thread that runs
    2, 4, 0, 0, 0, 0, 0, 0, 0, // the handler of alarm 4
];

/// A thread, but for its id, its state, what it waits for, and the id of that.
const THREAD: [u8; 52] = [
    0, 0, 0, 0, 0, 0, 0, 2, 0x20, 0, 0, 0, 0, 0, 2, 0, // id, attributes, option and entry
    0, 1, 1, 0, 0, 3, 0, 0, 0x21, 0, 0, 0, // stack, its size and gp
    0x28, 0, 0, 0, 0x29, 0, 0, 0, // first priority and priority
    0, 0, 0, 0, 0, 0, 0, 0, 0, 0, 0, 0, // state, what it waits for, and the id of that
    0x2A, 0, 0, 0, // wakeups
];

/// Its objects, one of each kind.
const OBJECTS: [u8; 173] = [
    1, 0, 0, 0, // semaphores: id, attributes, option, first, highest and count, and a thread
    2, 0, 0, 0, 1, 0, 0, 0, 0x31, 0, 0, 0, 3, 0, 0, 0, 9, 0, 0, 0, 0, 0, 0, 0, //
    1, 0, 0, 0, 6, 0, 0, 0, //
    1, 0, 0, 0, // event flags: id, attributes, option, first bits and bits, and no thread
    3, 0, 0, 0, 2, 0, 0, 0, 0x32, 0, 0, 0, 5, 0, 0, 0, 6, 0, 0, 0, //
    0, 0, 0, 0, //
    1, 0, 0, 0, // mailboxes: id, attributes and option, no thread, and a message and its priority
    4, 0, 0, 0, 5, 0, 0, 0, 0x33, 0, 0, 0, //
    0, 0, 0, 0, //
    1, 0, 0, 0, 0, 0, 3, 0, 7, //
    1, 0, 0, 0, // variable pools: id, attributes, option, base and size, a range, and no thread
    5, 0, 0, 0, 1, 0, 0, 0, 0x34, 0, 0, 0, 0, 0, 4, 0, 0, 1, 0, 0, //
    1, 0, 0, 0, 0x10, 0, 4, 0, 0x20, 0, 0, 0, //
    0, 0, 0, 0, //
    1, 0, 0, 0, // fixed pools: id, attributes, option, base, size and count, a block, and no thread
    6, 0, 0, 0, 0, 0, 0, 0, 0x35, 0, 0, 0, 0, 0, 5, 0, 8, 0, 0, 0, 7, 0, 0, 0, //
    1, 0, 0, 0, 0x10, 0, 5, 0, //
    0, 0, 0, 0,
];

/// Its alarm and its delay.
const TIMERS: [u8; 56] = [
    1, 0, 0, 0, // alarms: number and moment, handler, argument and gp
    6, 0, 0, 0, 0, 0, 0, 0, 9, 2, 3, 4, 5, 6, 7, 8, //
    4, 0, 6, 0, 0x41, 0, 0, 0, 0x42, 0, 0, 0, //
    1, 0, 0, 0, // delays: number and moment, and thread
    5, 0, 0, 0, 0, 0, 0, 0, 8, 2, 3, 4, 5, 6, 7, 8, //
    7, 0, 0, 0,
];

/// The last of its lines: enabled, with a handler, its argument and gp. The first one is raised.
const LAST_LINE: [u8; 15] = [0, 1, 1, 8, 0, 6, 0, 0x43, 0, 0, 0, 0x44, 0, 0, 0];

/// What it gives out next.
const NEXT: [u8; 32] = [
    0x51, 0, 0, 0, 0x52, 0, 0, 0, 0x53, 0, 0, 0, // threads, semaphores and event flags
    0x54, 0, 0, 0, 0x55, 0, 0, 0, 0x56, 0, 0, 0, // mailboxes, variable and fixed pools
    0x57, 0, 0, 0, 0, 0, 0, 0, // alarms and delays
];

/// The bytes of a thread of an id, in a state, that waits so.
fn thread(id: u8, state: u8, wait: u8, object: u8) -> [u8; 52] {
    let mut bytes = THREAD;
    bytes[0] = id;
    bytes[36] = state;
    bytes[40] = wait;
    bytes[44] = object;
    bytes
}

/// The bytes of its lines.
fn lines() -> [u8; 960] {
    let mut bytes = [0; 960];
    bytes[0] = 1;
    bytes[945..].copy_from_slice(&LAST_LINE);
    bytes
}

/// The bytes of its threads, and of the ready list.
fn threads(alloc: Global) -> Result<Vec<u8>, AllocError> {
    let mut bytes = Vec::from_slice(alloc, &[5, 0, 0, 0])?;
    bytes.extend_from_slice(&LOADER)?;
    // One that runs, one that is ready, one that waits for the semaphore, and a suspended one that
    // waits for its delay.
    bytes.extend_from_slice(&thread(3, 1, 0, 0))?;
    bytes.extend_from_slice(&thread(5, 2, 0, 0))?;
    bytes.extend_from_slice(&processor(0xE5))?;
    bytes.extend_from_slice(&thread(6, 4, 3, 2))?;
    bytes.extend_from_slice(&processor(0xE6))?;
    bytes.extend_from_slice(&thread(7, 0xC, 2, 0))?;
    bytes.extend_from_slice(&processor(0xE7))?;
    bytes.extend_from_slice(&[1, 0, 0, 0, 5, 0, 0, 0])?;
    Ok(bytes)
}

/// All its bytes: the processor of the handler stands in front of the one that it keeps.
fn whole(alloc: Global) -> Result<Vec<u8>, AllocError> {
    let mut bytes = Vec::from_slice(alloc, &HEAD)?;
    bytes.extend_from_slice(&processor(0xE1))?;
    bytes.extend_from_slice(&processor(0xE2))?;
    bytes.extend_from_slice(&threads(alloc)?)?;
    bytes.extend_from_slice(&OBJECTS)?;
    bytes.extend_from_slice(&TIMERS)?;
    bytes.extend_from_slice(&lines())?;
    bytes.extend_from_slice(&NEXT)?;
    Ok(bytes)
}

/// The processor that `processor` spells.
fn spelled(value: u32) -> Cpu {
    let mut cpu = registers_at(0);
    cpu.regs[1] = value;
    cpu
}

/// The options of its objects, or 0 where one is not live.
fn options(kernel: &Kernel<KernelReady>) -> [u32; 5] {
    [
        kernel.semaphores.get(2).map_or(0, |found| found.option),
        kernel.event_flags.get(3).map_or(0, |found| found.option),
        kernel.mailboxes.get(4).map_or(0, |found| found.option),
        kernel.variable_pools.get(5).map_or(0, |found| found.option),
        kernel.fixed_pools.get(6).map_or(0, |found| found.option),
    ]
}

/// What it gives out next.
fn next(kernel: &Kernel<KernelReady>) -> [u32; 6] {
    [
        kernel.threads.next_id(),
        kernel.semaphores.next_id(),
        kernel.event_flags.next_id(),
        kernel.mailboxes.next_id(),
        kernel.variable_pools.next_id(),
        kernel.fixed_pools.next_id(),
    ]
}

/// Compares what it tells with what was spelled.
fn tells_all(rt: &impl Abort, made: &RestoredKernel<KernelReady>) {
    let kernel = &made.kernel;
    assert_eq!(rt; kernel.clock, 0x0807_0605_0403_0201);
    assert_eq!(rt; kernel.interrupts, false);
    assert_eq!(rt; kernel.dispatching, true);
    assert_eq!(rt; kernel.threads.running(), Some(3));
    assert_eq!(rt; made.cpu, spelled(0xE1));
    let handler = ActiveHandler {
        cause: Cause::Alarm(4),
        kept: spelled(0xE2),
    };
    assert_eq!(rt; kernel.handler, Some(handler));
    assert_eq!(rt; kernel.threads.ready_at(Priority::new(0x29), 0), Some(5));
    assert_eq!(rt; options(kernel), [0x31, 0x32, 0x33, 0x34, 0x35]);
    assert_eq!(rt; next(kernel), [0x51, 0x52, 0x53, 0x54, 0x55, 0x56]);
    assert_eq!(rt; kernel.timers.next_number(), 0x57);
    let alarm = kernel.timers.alarms().first();
    assert_eq!(rt; alarm.map(|alarm| alarm.handler), Some(0x6_0004));
    let delay = kernel.timers.delays().first();
    assert_eq!(rt; delay.map(|delay| delay.thread), Some(7));
    assert_eq!(rt; kernel.irqs.line(0).raised, true);
    assert_eq!(rt; kernel.irqs.line(63).enabled, true);
}

#[test]
fn a_whole_kernel_comes_back(rt: HostRuntime) -> Result<(), Fail> {
    let alloc = rt.alloc();
    let bytes = whole(alloc)?;
    assert_eq!(rt; comes_back(&rt, alloc, &bytes)?, true);
    match restored(alloc, &bytes) {
        Ok(made) => tells_all(&rt, &made),
        Err(fault) => assert_eq!(rt; Some(fault), None),
    }
    Ok(())
}

#[test]
fn which_whole_kernels_come_back(rt: HostRuntime) -> Result<(), Fail> {
    let alloc = rt.alloc();
    let bytes = whole(alloc)?;
    // The place of a byte, what stands there in its place, and whether that is a kernel: another
    // thread that runs, or none; a delay slot, of the handler and of what it keeps.
    let rows = [
        (10, 5, false),
        (10, 0, false),
        (23 + 144, 1, true),
        (23 + 150 + 144, 1, false),
    ];
    for (place, byte, taken) in rows {
        let changed = with_byte(alloc, &bytes, place, byte)?;
        assert_eq!(rt; comes_back(&rt, alloc, &changed)?, taken);
    }
    Ok(())
}
