ghost use Rattle.std.specs.Prelude.{IfOk};
ghost use Rattle.iop_kernel.specs.Standing.{IsHeld};
ghost use Rattle.iop_ready.specs.KernelReady.{KernelStands};

use iop_exec::Cpu;
use iop_kernel::Kernel;
use iop_ports::MemSink;
use iop_ready::KernelReady;
use iop_saved_kernel::{RestoredKernel, restore_kernel, save_kernel};
use iop_snapshot::{Decoder, Encoder, SnapFault};
use iop_thread::registers_at;
use std::alloc::{AllocError, Global};
use std::process::Abort;
use std::test::Fail;

/// The head of a kernel at first: moment 0, interrupts on and dispatch enabled, and nothing that
/// executes.
const HEAD: [u8; 23] = [
    0, 0, 0, 0, 0, 0, 0, 0, 1, 1, 0, 0, 0, 0, 0, 0, 0, 0, 0, 0, 0, 0, 0,
];

/// The loader's thread, which is dormant.
pub(crate) const LOADER: [u8; 52] = [
    1, 0, 0, 0, 0, 0, 0, 2, 0, 0, 0, 0, 0, 0, 0, 0, // id, attributes, option and entry
    0, 0xC0, 0, 0, 0, 0x40, 0, 0, 0, 0, 0, 0, // stack, its size and gp
    8, 0, 0, 0, 8, 0, 0, 0, // first priority and priority
    0x10, 0, 0, 0, 0, 0, 0, 0, 0, 0, 0, 0, // state, what it waits for, and the id of that
    0, 0, 0, 0, // wakeups
];

/// What it gives out next: thread 2, objects 1, and number 1.
const NEXT: [u8; 32] = [
    2, 0, 0, 0, 1, 0, 0, 0, 1, 0, 0, 0, 1, 0, 0, 0, 1, 0, 0, 0, 1, 0, 0, 0, 1, 0, 0, 0, 0, 0, 0, 0,
];

/// How many bytes stand between the loader's thread and that, all zero: the ready list and seven
/// lists of none, and 64 lines of 15.
const BETWEEN: usize = 4 + 7 * 4 + 64 * 15;

/// How many bytes it takes.
const WHOLE: usize = 23 + 4 + 52 + BETWEEN + 32;

/// The bytes of a kernel at first, behind these of its head and of the processor that somebody has.
fn bytes_behind(alloc: Global, head: &[u8]) -> Result<Vec<u8>, AllocError> {
    let mut bytes = Vec::from_slice(alloc, head)?;
    bytes.extend_from_slice(&[1, 0, 0, 0])?;
    bytes.extend_from_slice(&LOADER)?;
    bytes.extend_from_slice(&[0; BETWEEN])?;
    bytes.extend_from_slice(&NEXT)?;
    Ok(bytes)
}

/// Makes a copy of bytes with another one at a place, if there is one.
pub(crate) fn with_byte(
    alloc: Global,
    bytes: &[u8],
    place: usize,
    byte: u8,
) -> Result<Vec<u8>, AllocError> {
    let mut changed = Vec::from_slice(alloc, bytes)?;
    if let Some(old) = changed.get_mut(place) {
        *old = byte;
    }
    Ok(changed)
}

/// Makes a kernel at first.
fn at_first(alloc: Global) -> Result<Kernel<KernelReady>, AllocError>
    ensures { IfOk result (λ kernel. IsHeld KernelStands kernel) }
{
    Kernel::new(alloc, KernelReady::new(alloc)?)
}

/// Writes a kernel and its processor.
fn bytes_of(alloc: Global, kernel: &Kernel<KernelReady>, cpu: &Cpu) -> Result<MemSink, AllocError>
    requires { IsHeld KernelStands kernel.now }
{
    let mut sink = MemSink::new(alloc, 4000, Vec::new(alloc))?;
    let mut encoder = Encoder::new(&mut sink);
    let _ = save_kernel(kernel, cpu, &mut encoder);
    Ok(sink)
}

/// Reads a kernel and its processor, and puts them back.
pub(crate) fn restored(
    alloc: Global,
    bytes: &[u8],
) -> Result<RestoredKernel<KernelReady>, SnapFault>
    ensures { IfOk result (λ made. IsHeld KernelStands made.kernel) }
{
    let mut decoder = Decoder::new(bytes);
    restore_kernel(alloc, KernelReady::new(alloc)?, &mut decoder)
}

/// Says whether bytes are a kernel that is written as they are.
pub(crate) fn comes_back(rt: &impl Abort, alloc: Global, bytes: &[u8]) -> Result<bool, AllocError> {
    match restored(alloc, bytes) {
        Ok(made) => Ok(bytes_of(alloc, &made.kernel, &made.cpu)?.bytes() == bytes),
        Err(fault) => {
            assert_eq!(rt; fault, SnapFault::Bad);
            Ok(false)
        }
    }
}

/// A processor that stands at 0, of whose registers the first behind register 0 has this value.
pub(crate) fn processor(value: u8) -> [u8; 150] {
    let mut bytes = [0; 150];
    bytes[4] = value;
    bytes[140] = 4;
    bytes
}

/// The bytes of a kernel at first in which a handler is active: of this kind, 1 for a line and 2
/// for an alarm, and of this number.
fn with_handler(alloc: Global, kind: u8, number: u8) -> Result<Vec<u8>, AllocError> {
    let mut head = Vec::from_slice(alloc, &HEAD[..14])?;
    head.extend_from_slice(&[kind, number, 0, 0, 0, 0, 0, 0, 0])?;
    head.extend_from_slice(&processor(0))?;
    bytes_behind(alloc, &head)
}

#[test]
fn a_kernel_at_first_comes_back(rt: HostRuntime) -> Result<(), Fail> {
    let alloc = rt.alloc();
    let sink = bytes_of(alloc, &at_first(alloc)?, &registers_at(0))?;
    let mut bytes = bytes_behind(alloc, &HEAD)?;
    assert_eq!(rt; bytes.len(), WHOLE);
    assert_eq!(rt; sink.bytes(), bytes.as_slice());
    assert_eq!(rt; comes_back(&rt, alloc, &bytes)?, true);
    bytes.truncate(WHOLE - 1);
    assert_eq!(rt; comes_back(&rt, alloc, &bytes)?, false);
    Ok(())
}

#[test]
fn which_kernels_come_back(rt: HostRuntime) -> Result<(), Fail> {
    let alloc = rt.alloc();
    let bytes = bytes_behind(alloc, &HEAD)?;
    // The place of a byte, what stands there in its place, and whether that is a kernel: interrupts
    // off, and no truth value; a thread that runs, though none does; what is given out next.
    let rows = [
        (8, 0, true),
        (8, 2, false),
        (10, 1, false),
        (WHOLE - 32, 1, false),
        (WHOLE - 32, 3, true),
        (WHOLE - 28, 0, false),
        (WHOLE - 8, 0, false),
        (WHOLE - 8, 2, true),
    ];
    for (place, byte, taken) in rows {
        let changed = with_byte(alloc, &bytes, place, byte)?;
        assert_eq!(rt; comes_back(&rt, alloc, &changed)?, taken);
    }
    Ok(())
}

#[test]
fn which_handlers_come_back(rt: HostRuntime) -> Result<(), Fail> {
    let alloc = rt.alloc();
    // Its kind and number, the next number of an alarm or a delay, and whether that is a kernel: a
    // handler's alarm had a number, from 1 to below the next one.
    let rows = [
        (1, 0, 1, true),
        (1, 63, 1, true),
        (1, 64, 1, false),
        (2, 0, 1, false),
        (2, 1, 1, false),
        (2, 0, 2, false),
        (2, 1, 2, true),
        (2, 2, 2, false),
        (3, 1, 2, false),
        (0, 0, 1, false),
    ];
    for (kind, number, next, taken) in rows {
        let bytes = with_handler(alloc, kind, number)?;
        let changed = with_byte(alloc, &bytes, WHOLE + 150 - 8, next)?;
        assert_eq!(rt; comes_back(&rt, alloc, &changed)?, taken);
    }
    Ok(())
}
