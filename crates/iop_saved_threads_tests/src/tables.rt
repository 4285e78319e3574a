//! All threads of a table, and the ready ones.

ghost use Rattle.std.specs.Prelude.{IfOk};
ghost use Rattle.iop_ready.specs.KernelReady.{KernelStands};
ghost use Rattle.iop_ready.specs.Priorities.{IsPriority};
ghost use Rattle.iop_thread.specs.Standing.{IsSound};

use iop_ports::MemSink;
use iop_ready::{KernelReady, Priority};
use iop_saved_threads::{put_ready, restore_ready, restore_threads, save_ready, save_threads};
use iop_snapshot::{Decoder, Encoder, SnapFault};
use iop_thread::{Param, Threads};
use std::alloc::{AllocError, Global};
use std::process::Abort;
use std::test::Fail;

/// How many bytes the threads take: their count, and three of 52, of which two keep a processor.
const THREADS: usize = 4 + 3 * 52 + 2 * 150;

/// The bytes of their count, and of the loader's thread.
const FIRST: [u8; 56] = [
    3, 0, 0, 0, // how many
    1, 0, 0, 0, 0, 0, 0, 2, 0, 0, 0, 0, 0, 0, 0, 0, // id, attributes, option and entry
    0, 0xC0, 0, 0, 0, 0x40, 0, 0, 0, 0, 0, 0, // stack, its size and gp
    8, 0, 0, 0, 8, 0, 0, 0, // first priority and priority
    0x10, 0, 0, 0, 0, 0, 0, 0, 0, 0, 0, 0, // state, what it waits for, and the id of that
    0, 0, 0, 0, // wakeups
];

/// What a thread of a priority is made with.
fn param(priority: u8) -> Param
    requires { IsPriority priority }
{
    Param {
        attr: 0x0200_0000,
        option: 0,
        entry: 0x2_0000,
        stack_size: 0x800,
        priority: Priority::new(priority),
    }
}

/// Makes a table of the loader's thread, which is dormant, and two ready ones, of which the later
/// is better.
fn table(alloc: Global) -> Result<Threads<KernelReady>, AllocError>
    ensures { IfOk result (λ threads. IsSound KernelStands threads) }
{
    let mut threads = Threads::new(alloc, KernelReady::new(alloc)?)?;
    let _ = threads.create(param(20), 0x1_0000, 0);
    let _ = threads.create(param(10), 0x1_0800, 0);
    let _ = threads.start(2, 0);
    let _ = threads.start(3, 0);
    Ok(threads)
}

/// Writes the threads of a table, and then the ready ones.
fn bytes_of(alloc: Global, threads: &Threads<KernelReady>) -> Result<MemSink, AllocError>
    requires { IsSound KernelStands threads.now }
{
    let mut sink = MemSink::new(alloc, 1000, Vec::new(alloc))?;
    let mut encoder = Encoder::new(&mut sink);
    let _ = save_threads(threads, &mut encoder);
    let _ = save_ready(threads, &mut encoder);
    Ok(sink)
}

/// Reads threads and the ready ones, and puts them back into a table in which none runs.
fn restored(alloc: Global, bytes: &[u8]) -> Result<Threads<KernelReady>, SnapFault>
    ensures { IfOk result (λ threads. IsSound KernelStands threads) }
{
    let mut decoder = Decoder::new(bytes);
    let threads = restore_threads(alloc, KernelReady::new(alloc)?, &mut decoder)?;
    let ready = restore_ready(alloc, &mut decoder)?;
    let Some(threads) = put_ready(threads, &ready) else {
        return Err(SnapFault::Bad);
    };
    match threads.finish(None) {
        Some(threads) => Ok(threads),
        None => Err(SnapFault::Bad),
    }
}

/// Says whether the threads of these bytes come back with other ready ones.
fn come_back(
    rt: &impl Abort,
    alloc: Global,
    bytes: &[u8],
    ready: &[u8],
) -> Result<bool, AllocError> {
    let mut changed = Vec::from_slice(alloc, bytes)?;
    assert_eq!(rt; changed.len(), THREADS + 12);
    changed.truncate(THREADS);
    changed.extend_from_slice(ready)?;
    match restored(alloc, &changed) {
        Ok(_) => Ok(true),
        Err(fault) => {
            assert_eq!(rt; fault, SnapFault::Bad);
            Ok(false)
        }
    }
}

#[test]
fn threads_come_back(rt: HostRuntime) -> Result<(), Fail> {
    let alloc = rt.alloc();
    let sink = bytes_of(alloc, &table(alloc)?)?;
    assert_eq!(rt; sink.bytes().len(), THREADS + 12);
    assert_eq!(rt; sink.bytes().get(..56), Some(FIRST.as_slice()));
    assert_eq!(rt;
        &sink.bytes()[THREADS..],
        [2, 0, 0, 0, 3, 0, 0, 0, 2, 0, 0, 0].as_slice()
    );
    match restored(alloc, sink.bytes()) {
        Ok(threads) => assert_eq!(rt; bytes_of(alloc, &threads)?.bytes(), sink.bytes()),
        Err(_) => assert_eq!(rt; true, false),
    }
    Ok(())
}

#[test]
fn which_ready_threads_come_back(rt: HostRuntime) -> Result<(), Fail> {
    let alloc = rt.alloc();
    let sink = bytes_of(alloc, &table(alloc)?)?;
    let rows: [(&[u8], bool); 6] = [
        (&[2, 0, 0, 0, 3, 0, 0, 0, 2, 0, 0, 0], true),
        (&[2, 0, 0, 0, 2, 0, 0, 0, 3, 0, 0, 0], false),
        (&[2, 0, 0, 0, 3, 0, 0, 0, 3, 0, 0, 0], false),
        (&[2, 0, 0, 0, 3, 0, 0, 0, 1, 0, 0, 0], false),
        (&[1, 0, 0, 0, 3, 0, 0, 0], false),
        (&[2, 0, 0, 0, 3, 0, 0, 0], false),
    ];
    for (ready, taken) in rows {
        assert_eq!(rt; come_back(&rt, alloc, sink.bytes(), ready)?, taken);
    }
    Ok(())
}
