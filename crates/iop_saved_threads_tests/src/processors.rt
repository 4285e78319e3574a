//! Which bytes processors are, and which bytes are none.

use iop_exec::{Cpu, Pending};
use iop_isa::Reg;
use iop_ports::MemSink;
use iop_saved_threads::{restore_cpu, restore_kept, save_cpu};
use iop_snapshot::{Decoder, Encoder};
use iop_thread::registers_at;
use std::alloc::{AllocError, Global};
use std::process::Abort;
use std::test::Fail;

/// How many bytes a processor takes.
pub(crate) const CPU: usize = 150;

/// The places of some numbers of a processor.
const REGISTER_0: usize = 0;

const NEXT: usize = 140;

pub(crate) const IN_SLOT: usize = 144;

const PENDING_REGISTER: usize = 145;

const PENDING_VALUE: usize = 146;

/// The bytes of a processor in a delay slot, with a value that is pending. No two of its numbers
/// are equal.
const BYTES: [u8; CPU] = [
    0, 0, 0, 0, 1, 2, 3, 4, 0x42, 0, 0, 0, 0x43, 0, 0, 0, // registers 0 to 3
    0x44, 0, 0, 0, 0x45, 0, 0, 0, 0x46, 0, 0, 0, 0x47, 0, 0, 0, // 4 to 7
    0x48, 0, 0, 0, 0x49, 0, 0, 0, 0x4A, 0, 0, 0, 0x4B, 0, 0, 0, // 8 to 11
    0x4C, 0, 0, 0, 0x4D, 0, 0, 0, 0x4E, 0, 0, 0, 0x4F, 0, 0, 0, // 12 to 15
    0x50, 0, 0, 0, 0x51, 0, 0, 0, 0x52, 0, 0, 0, 0x53, 0, 0, 0, // 16 to 19
    0x54, 0, 0, 0, 0x55, 0, 0, 0, 0x56, 0, 0, 0, 0x57, 0, 0, 0, // 20 to 23
    0x58, 0, 0, 0, 0x59, 0, 0, 0, 0x5A, 0, 0, 0, 0x5B, 0, 0, 0, // 24 to 27
    0x5C, 0, 0, 0, 0x5D, 0, 0, 0, 0x5E, 0, 0, 0, 5, 6, 7, 8, // 28 to 31
    0x11, 0x81, 0, 0, 0x22, 0x82, 0, 0, // HI and LO
    0, 0, 1, 0, 0, 0, 2, 0, // the place of the instruction, and that of the next one
    1, // it stands in a delay slot
    9, 10, 11, 12, 13, // the register that is pending, and its value
];

/// That processor.
fn in_slot() -> Cpu {
    Cpu {
        regs: [
            0, 0x403_0201, 0x42, 0x43, 0x44, 0x45, 0x46, 0x47, 0x48, 0x49, 0x4A, 0x4B, 0x4C, 0x4D,
            0x4E, 0x4F, 0x50, 0x51, 0x52, 0x53, 0x54, 0x55, 0x56, 0x57, 0x58, 0x59, 0x5A, 0x5B,
            0x5C, 0x5D, 0x5E, 0x807_0605,
        ],
        hi: 0x8111,
        lo: 0x8222,
        pc: 0x1_0000,
        next: 0x2_0000,
        in_slot: true,
        pending: Some(Pending {
            reg: Reg::new(9),
            value: 0x0D0C_0B0A,
        }),
    }
}

/// The same processor in no delay slot, and its bytes.
pub(crate) fn kept() -> Cpu {
    let mut cpu = in_slot();
    cpu.next = 0x1_0004;
    cpu.in_slot = false;
    cpu
}

pub(crate) fn bytes_of_kept() -> [u8; CPU] {
    let mut bytes = BYTES;
    bytes[NEXT] = 4;
    bytes[NEXT + 2] = 1;
    bytes[IN_SLOT] = 0;
    bytes
}

/// Writes a processor.
fn bytes_of_cpu(alloc: Global, cpu: &Cpu) -> Result<MemSink, AllocError> {
    let mut sink = MemSink::new(alloc, 200, Vec::new(alloc))?;
    let mut encoder = Encoder::new(&mut sink);
    let _ = save_cpu(cpu, &mut encoder);
    Ok(sink)
}

#[test]
fn a_processor_is_39_numbers(rt: HostRuntime) -> Result<(), Fail> {
    let alloc = rt.alloc();
    assert_eq!(rt; bytes_of_cpu(alloc, &in_slot())?.bytes(), BYTES.as_slice());
    assert_eq!(rt;
        bytes_of_cpu(alloc, &kept())?.bytes(),
        bytes_of_kept().as_slice()
    );
    Ok(())
}

/// Makes a copy of bytes with another one at a place, if there is one.
pub(crate) fn with_byte(
    alloc: Global,
    bytes: &[u8],
    place: usize,
    byte: u8,
) -> Result<Vec<u8>, AllocError> {
    let mut changed = Vec::from_slice(alloc, bytes)?;
    if let Some(old) = changed.get_mut(place) {
        *old = byte;
    }
    Ok(changed)
}

#[test]
fn which_bytes_are_a_processor(rt: HostRuntime) -> Result<(), Fail> {
    let alloc = rt.alloc();
    // A byte of the one in a slot, whether it may execute then, and whether it may be kept.
    let rows = [
        (CPU, 0, true, false),
        (REGISTER_0, 1, false, false),
        (IN_SLOT, 0, false, false),
        (IN_SLOT, 2, false, false),
        (PENDING_REGISTER, 0, false, false),
        (PENDING_REGISTER, 31, true, false),
        (PENDING_REGISTER, 32, false, false),
    ];
    for (place, byte, executes, keeps) in rows {
        let bytes = with_byte(alloc, &BYTES, place, byte)?;
        assert_eq!(rt; restore_cpu(&mut Decoder::new(&bytes)).is_some(), executes);
        assert_eq!(rt; restore_kept(&mut Decoder::new(&bytes)).is_some(), keeps);
    }
    // The same of one that stands in no slot.
    let rows = [
        (CPU, 0, true, true),
        (NEXT, 8, false, false),
        (IN_SLOT, 1, true, false),
        (PENDING_VALUE, 1, false, false),
    ];
    let sink = bytes_of_cpu(alloc, &registers_at(0x1_0000))?;
    for (place, byte, executes, keeps) in rows {
        let bytes = with_byte(alloc, sink.bytes(), place, byte)?;
        assert_eq!(rt; restore_cpu(&mut Decoder::new(&bytes)).is_some(), executes);
        assert_eq!(rt; restore_kept(&mut Decoder::new(&bytes)).is_some(), keeps);
    }
    Ok(())
}

#[test]
fn a_processor_comes_back(rt: HostRuntime) {
    let mut decoder = Decoder::new(&BYTES);
    assert_eq!(rt; restore_cpu(&mut decoder), Some(in_slot()));
    assert_eq!(rt; decoder.left(), 0);
    assert_eq!(rt; restore_cpu(&mut decoder), None);
    assert_eq!(rt;
        restore_kept(&mut Decoder::new(&bytes_of_kept())),
        Some(kept())
    );
}
