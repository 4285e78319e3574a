ghost use Rattle.std.specs.Prelude.{IfOk};
ghost use Rattle.iop_kernel.specs.Standing.{IsHeld};
ghost use Rattle.iop_ready.specs.KernelReady.{KernelStands};

use crate::bytes::{
    BEHIND_KERNEL, BEHIND_LOADING, BEHIND_TABLES, LARGE, SMALL, large_machine, machine, with_byte,
};
use iop_modload::ImagePlace;
use iop_ports::MemSink;
use iop_ready::KernelReady;
use iop_saved_machine::{BegunModule, LentMachine, Loading, RestoredMachine, restore_machine};
use iop_script::Raise;
use iop_snapshot::{Encoder, SnapFault};
use iop_stubs::Stub;
use iop_thread::registers_at;
use std::alloc::{AllocError, Global};
use std::process::Abort;
use std::test::Fail;

/// Reads a machine and puts it back.
fn restored(alloc: Global, bytes: &[u8]) -> Result<RestoredMachine<KernelReady>, SnapFault>
    ensures { IfOk result (λ made. IsHeld KernelStands made.core.kernel) }
{
    restore_machine(alloc, KernelReady::new(alloc)?, bytes)
}

/// Writes a machine, but for its modules and words.
fn bytes_of(alloc: Global, made: &RestoredMachine<KernelReady>) -> Result<MemSink, AllocError>
    requires { IsHeld KernelStands made.now.core.kernel }
{
    let mut sink = MemSink::new(alloc, 0x21_0000, Vec::new(alloc))?;
    let loading = &made.loading;
    if made.blocks.used().len() < 100 && loading.events.len() < 100 {
        let lent = LentMachine {
            kernel: &made.core.kernel,
            cpu: &made.core.cpu,
            guest: &made.guest,
            blocks: &made.blocks,
            registry: &made.registry,
            begun: loading.begun,
            next: loading.next,
            modules: &[],
            events: &loading.events,
            args: &[],
            named: &[],
        };
        let _ = lent.save(&mut Encoder::new(&mut sink));
    }
    Ok(sink)
}

/// Reads a machine, puts it back, and writes it again, but for its modules and words.
fn again(alloc: Global, bytes: &[u8]) -> Result<MemSink, SnapFault> {
    let made = restored(alloc, bytes)?;
    Ok(bytes_of(alloc, &made)?)
}

/// Says whether bytes are a machine without modules and words that is written as they are.
fn comes_back(rt: &impl Abort, alloc: Global, bytes: &[u8]) -> bool {
    match again(alloc, bytes) {
        Ok(sink) => sink.bytes() == bytes,
        Err(fault) => {
            assert_eq!(rt; fault, SnapFault::Bad);
            false
        }
    }
}

#[test]
fn machines_come_back(rt: HostRuntime) -> Result<(), Fail> {
    let alloc = rt.alloc();
    let mut bytes = machine(alloc, false)?;
    assert_eq!(rt; bytes.len(), BEHIND_LOADING + SMALL as usize);
    assert_eq!(rt; comes_back(&rt, alloc, &bytes), true);
    // A byte more, and the last byte missing.
    bytes.push(0)?;
    assert_eq!(rt; comes_back(&rt, alloc, &bytes), false);
    bytes.truncate(BEHIND_LOADING + SMALL as usize - 1);
    assert_eq!(rt; comes_back(&rt, alloc, &bytes), false);
    Ok(())
}

#[test]
fn which_machines_come_back(rt: HostRuntime) -> Result<(), Fail> {
    let alloc = rt.alloc();
    let bytes = machine(alloc, false)?;
    // The place of a byte, what stands there in its place, and whether that is a machine: another
    // letter, 3 and 8 MiB, interrupts off, and a kernel's next thread; another first block, a block
    // in that one, the place of a table and the index of a stub; whether a module was begun, its
    // number, and whether a line rises; the index of the stub in RAM, and the last byte of RAM.
    let rows = [
        (7, b'2', false),
        (8, 3, false),
        (8, 8, false),
        (12 + 8, 0, true),
        (BEHIND_KERNEL - 32, 1, false),
        (BEHIND_KERNEL + 5, 1, false),
        (BEHIND_KERNEL + 14, 0, false),
        (BEHIND_KERNEL + 33, 1, false),
        (BEHIND_TABLES - 6, 5, false),
        (BEHIND_TABLES, 2, false),
        (BEHIND_TABLES + 1, 9, true),
        (BEHIND_LOADING - 9, 2, false),
        (BEHIND_LOADING + 0x1_010C, 5, false),
        (BEHIND_LOADING + 0x1F_FFFF, 5, true),
    ];
    for (place, byte, taken) in rows {
        let changed = with_byte(alloc, &bytes, place, byte)?;
        assert_eq!(rt; comes_back(&rt, alloc, &changed), taken, "at {place}");
    }
    Ok(())
}

/// The size of RAM, where bytes are a machine.
fn size_of(alloc: Global, bytes: &[u8]) -> Option<u32> {
    match restored(alloc, bytes) {
        Ok(made) => Some(made.guest.ram().size()),
        Err(_) => None,
    }
}

#[test]
fn the_head_tells_the_size_of_ram(rt: HostRuntime) -> Result<(), Fail> {
    let alloc = rt.alloc();
    assert_eq!(rt; size_of(alloc, &machine(alloc, true)?), Some(SMALL));
    assert_eq!(rt; size_of(alloc, &large_machine(alloc, 8)?), Some(LARGE));
    assert_eq!(rt; size_of(alloc, &large_machine(alloc, 2)?), None);
    Ok(())
}

/// Compares what is still to be loaded with what was spelled.
fn tells_loading(rt: &impl Abort, loading: &Loading) {
    let begun = BegunModule {
        number: 3,
        place: ImagePlace {
            base: 0x1_0100,
            len: 0x300,
        },
    };
    assert_eq!(rt; loading.begun, Some(begun));
    assert_eq!(rt; loading.next, 4);
    assert_eq!(rt; loading.modules.len(), 1);
    for left in &loading.modules {
        assert_eq!(rt; left.name.as_str(), "m");
        assert_eq!(rt; left.file.as_slice(), [0x7F, 0x80, 0xFF].as_slice());
    }
    let raise = Raise {
        at: 0x103,
        line: 5,
        up: true,
    };
    assert_eq!(rt; loading.events.as_slice(), [raise].as_slice());
}

/// Compares the words with those that were spelled.
fn tells_words(rt: &impl Abort, loading: &Loading) {
    assert_eq!(rt; loading.args.len(), 1);
    for args in &loading.args {
        assert_eq!(rt; args.module, 2);
        for word in &args.words {
            assert_eq!(rt; word.bytes.as_slice(), b"ab".as_slice());
        }
    }
    assert_eq!(rt; loading.named.len(), 1);
    for named in &loading.named {
        assert_eq!(rt; named.name.as_slice(), b"m".as_slice());
        for word in &named.words {
            assert_eq!(rt; word.bytes.as_slice(), b"c".as_slice());
        }
    }
}

/// Compares memory and its tables with what was spelled.
fn tells_memory(rt: &impl Abort, made: &RestoredMachine<KernelReady>) {
    let name = [b'a', b'b', 0, 0, 0, 0, 0, 0];
    assert_eq!(rt; made.blocks.total_free(), SMALL - 0x1_0300);
    assert_eq!(rt; made.registry.find(name, 1), Some(0x1_0200));
    let stub = Stub {
        at: 0x1_0108,
        name,
        major: 1,
        index: 4,
        target: 0x1_0200,
    };
    assert_eq!(rt; made.guest.at(0x1_0108), Some(stub));
    assert_eq!(rt; made.guest.ram().load32(0x1_010C), Ok(0x2400_0004));
}

#[test]
fn a_machine_tells_what_was_spelled(rt: HostRuntime) -> Result<(), Fail> {
    let alloc = rt.alloc();
    match restored(alloc, &machine(alloc, true)?) {
        Ok(made) => {
            assert_eq!(rt; made.core.kernel.clock, 0);
            assert_eq!(rt; made.core.cpu, registers_at(0));
            tells_memory(&rt, &made);
            tells_loading(&rt, &made.loading);
            tells_words(&rt, &made.loading);
        }
        Err(fault) => assert_eq!(rt; Some(fault), None),
    }
    Ok(())
}
