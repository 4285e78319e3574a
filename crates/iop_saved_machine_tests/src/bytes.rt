//! The bytes of a machine, part by part.

ghost use Rattle.std.specs.Prelude.{IfOk};
ghost use Rattle.iop_base.specs.Places.{IsRamSize};
ghost use Rattle.iop_kernel.specs.Standing.{IsHeld};
ghost use Rattle.iop_ready.specs.KernelReady.{KernelStands};

use iop_kernel::Kernel;
use iop_ports::MemSink;
use iop_ram::Ram;
use iop_ready::KernelReady;
use iop_saved_kernel::save_kernel;
use iop_snapshot::Encoder;
use iop_thread::registers_at;
use std::alloc::{AllocError, Global};

/// How many bytes the smaller RAM has.
pub(crate) const SMALL: u32 = 0x20_0000;

/// How many bytes the larger RAM has.
pub(crate) const LARGE: u32 = 0x80_0000;

/// The letters of the head, and how many MiB RAM has.
const HEAD: [u8; 12] = [b'I', b'O', b'P', b'S', b'N', b'A', b'P', b'1', 2, 0, 0, 0];

/// Its blocks, a library and a stub.
const TABLES: [u8; 60] = [
    2, 0, 0, 0, // blocks: starts and sizes
    0, 0, 0, 0, 0, 0, 1, 0, //
    0, 1, 1, 0, 0, 3, 0, 0, //
    1, 0, 0, 0, // libraries: name, major version and table
    b'a', b'b', 0, 0, 0, 0, 0, 0, 1, 0, 2, 1, 0, //
    1, 0, 0, 0, // stubs: place, name and major version, index and target
    8, 1, 1, 0, b'a', b'b', 0, 0, 0, 0, 0, 0, 1, 4, 0, 0, 2, 1, 0,
];

/// A module that was begun: that it is there, its number, where it stands and how long it is. And
/// the number of the next one.
const BEGUN: [u8; 17] = [1, 3, 0, 0, 0, 0, 1, 1, 0, 0, 3, 0, 0, 4, 0, 0, 0];

/// An event: its tick, its line, and that the line rises.
const EVENTS: [u8; 14] = [1, 0, 0, 0, 3, 1, 0, 0, 0, 0, 0, 0, 5, 1];

/// A module that was not loaded yet: its name, and its file.
const MODULES: [u8; 16] = [1, 0, 0, 0, 1, 0, 0, 0, b'm', 3, 0, 0, 0, 0x7F, 0x80, 0xFF];

/// A word for module 2.
const ARGS: [u8; 18] = [1, 0, 0, 0, 2, 0, 0, 0, 1, 0, 0, 0, 2, 0, 0, 0, b'a', b'b'];

/// A word for the module of the name `m`.
const NAMED: [u8; 18] = [1, 0, 0, 0, 1, 0, 0, 0, b'm', 1, 0, 0, 0, 1, 0, 0, 0, b'c'];

/// A list of none.
const NONE: [u8; 4] = [0; 4];

/// The words of the stub in RAM, a jump to 0x10200 and its index, and where they stand.
const STUB: [u8; 8] = [0x80, 0x40, 0, 8, 4, 0, 0, 0x24];

const STUB_PLACE: u32 = 0x1_0108;

/// Where the kernel ends, a kernel at first, and its tables, and what is still to be loaded where
/// no words and no modules are.
pub(crate) const BEHIND_KERNEL: usize = 12 + 1103;

pub(crate) const BEHIND_TABLES: usize = BEHIND_KERNEL + 60;

pub(crate) const BEHIND_LOADING: usize = BEHIND_TABLES + 17 + 4 + 14 + 4 + 4;

/// Makes a kernel at first.
fn kernel_at_first(alloc: Global) -> Result<Kernel<KernelReady>, AllocError>
    ensures { IfOk result (λ kernel. IsHeld KernelStands kernel) }
{
    Kernel::new(alloc, KernelReady::new(alloc)?)
}

/// Writes a kernel at first, whose processor stands at 0.
fn kernel(alloc: Global) -> Result<MemSink, AllocError> {
    let mut sink = MemSink::new(alloc, 4000, Vec::new(alloc))?;
    let kernel = kernel_at_first(alloc)?;
    let _ = save_kernel(&kernel, &registers_at(0), &mut Encoder::new(&mut sink));
    Ok(sink)
}

/// Makes RAM of this size in which the stub's words stand.
fn ram(alloc: Global, size: u32) -> Result<Ram, AllocError>
    requires { IsRamSize size }
{
    let mut ram = Ram::new(alloc, size)?;
    let _ = ram.store_bytes(STUB_PLACE, &STUB);
    Ok(ram)
}

/// Appends all bytes of RAM of this size to others.
fn append_ram(alloc: Global, size: u32, bytes: &mut Vec<u8>) -> Result<(), AllocError>
    requires { IsRamSize size }
{
    let ram = ram(alloc, size)?;
    if let Some(all) = ram.window(0, size) {
        bytes.extend_from_slice(all)?;
    }
    Ok(())
}

/// The bytes of a list, or of one of none.
fn list_if(there: bool, list: &[u8]) -> &[u8] {
    if there { list } else { &NONE }
}

/// The bytes of a machine of a kernel at first, with or without words and modules that are left.
pub(crate) fn machine(alloc: Global, with_words: bool) -> Result<Vec<u8>, AllocError> {
    let mut bytes = Vec::from_slice(alloc, &HEAD)?;
    bytes.extend_from_slice(kernel(alloc)?.bytes())?;
    bytes.extend_from_slice(&TABLES)?;
    bytes.extend_from_slice(&BEGUN)?;
    bytes.extend_from_slice(list_if(with_words, &MODULES))?;
    bytes.extend_from_slice(&EVENTS)?;
    bytes.extend_from_slice(list_if(with_words, &ARGS))?;
    bytes.extend_from_slice(list_if(with_words, &NAMED))?;
    append_ram(alloc, SMALL, &mut bytes)?;
    Ok(bytes)
}

/// The bytes of the machine without words, in whose head these MiB stand, and whose RAM is the
/// larger one.
pub(crate) fn large_machine(alloc: Global, mib: u8) -> Result<Vec<u8>, AllocError> {
    let mut bytes = machine(alloc, false)?;
    bytes.truncate(BEHIND_LOADING);
    append_ram(alloc, LARGE, &mut bytes)?;
    with_byte(alloc, &bytes, 8, mib)
}

/// Makes a copy of bytes with another one at a place, if there is one.
pub(crate) fn with_byte(
    alloc: Global,
    bytes: &[u8],
    place: usize,
    byte: u8,
) -> Result<Vec<u8>, AllocError> {
    let mut changed = Vec::from_slice(alloc, bytes)?;
    if let Some(old) = changed.get_mut(place) {
        *old = byte;
    }
    Ok(changed)
}
