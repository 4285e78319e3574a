//! Threads that are put back, and read in order.

ghost use Rattle.iop_ready.specs.KernelReady.{KernelStands};
ghost use Rattle.iop_thread.specs.Restored.{IsRestored};

use iop_ready::{KernelReady, Priority};
use iop_thread::{Param, RestoredThreads, State, Thread, Threads, Wait, registers_at};
use std::alloc::{AllocError, Global};
use std::process::Abort;
use std::test::Fail;

/// What a row of a table puts back.
#[derive(Clone, Copy)]
enum Put {
    Thread(Thread),
    Ready(u32),
}

/// Puts a thread or an id of the ready list back, and tells whether it was taken.
fn taken(restored: &mut RestoredThreads<KernelReady>, what: Put) -> bool
    requires { IsRestored KernelStands restored.old }
    ensures { IsRestored KernelStands restored.new }
{
    match what {
        Put::Thread(thread) => restored.put_back(thread),
        Put::Ready(id) => restored.put_ready(id),
    }
}

/// Puts back what the rows of a table say, and tells which is the first with another answer. None
/// where there is no such row.
fn wrong_row(restored: &mut RestoredThreads<KernelReady>, rows: &[(Put, bool)]) -> Option<usize>
    requires { IsRestored KernelStands restored.old }
{
    for (place, (what, wanted)) in rows.iter().enumerate() {
        if taken(restored, *what) != *wanted {
            return Some(place);
        }
    }
    None
}

/// Makes a thread of priority 20.
fn thread(id: u32, state: State) -> Thread {
    let priority = Priority::new(20);
    let param = Param {
        attr: 0x0200_0000,
        option: 0,
        entry: 0x1000,
        stack_size: 0x800,
        priority,
    };
    Thread {
        id,
        param,
        stack: 0x2_0000,
        gp: 0,
        priority,
        wakeups: 0,
        state,
    }
}

/// Makes a thread of priority 19.
fn better(id: u32, state: State) -> Thread {
    Thread {
        priority: Priority::new(19),
        ..thread(id, state)
    }
}

/// Puts back thread 1, which runs, thread 3, which is ready, and the ready list.
fn finished(
    alloc: Global,
    ready: &[u32],
    running: Option<u32>,
) -> Result<Option<Threads<KernelReady>>, AllocError> {
    let mut restored = RestoredThreads::new(alloc, KernelReady::new(alloc)?)?;
    let _ = restored.put_back(thread(1, State::Running));
    let _ = restored.put_back(thread(3, State::Ready(registers_at(0x100))));
    for id in ready {
        let _ = restored.put_ready(*id);
    }
    Ok(restored.finish(running))
}

#[test]
fn what_is_taken(rt: HostRuntime) -> Result<(), Fail> {
    let mut restored = RestoredThreads::new(rt.alloc(), KernelReady::new(rt.alloc())?)?;
    let ready = State::Ready(registers_at(0x100));
    let rows = [
        (Put::Thread(thread(0, State::Dormant)), false),
        (Put::Thread(thread(1, State::Running)), true),
        (Put::Thread(thread(1, State::Dormant)), false),
        (Put::Thread(thread(2, State::Running)), false),
        (Put::Thread(thread(0x8000_0000, State::Dormant)), false),
        (Put::Thread(thread(3, ready)), true),
        (Put::Thread(thread(2, ready)), false),
        (Put::Thread(thread(5, ready)), true),
        (Put::Thread(better(6, ready)), true),
        (Put::Thread(better(7, ready)), true),
        (Put::Ready(1), false),
        (Put::Ready(2), false),
        (Put::Ready(7), true),
        (Put::Ready(5), true),
        (Put::Ready(5), false),
        (Put::Ready(6), false),
        (Put::Ready(3), true),
    ];
    assert_eq!(rt; wrong_row(&mut restored, &rows), None);
    Ok(())
}

#[test]
fn what_is_complete(rt: HostRuntime) -> Result<(), Fail> {
    assert_eq!(rt; finished(rt.alloc(), &[3], Some(1))?.is_some(), true);
    assert_eq!(rt; finished(rt.alloc(), &[3], Some(3))?.is_some(), false);
    assert_eq!(rt; finished(rt.alloc(), &[3], None)?.is_some(), false);
    assert_eq!(rt; finished(rt.alloc(), &[], Some(1))?.is_some(), false);
    Ok(())
}

/// Compares what is read of threads 1, which runs, and 3, which is ready.
fn tell_what_is_read(rt: &impl Abort, threads: &mut Threads<KernelReady>) {
    assert_eq!(rt; threads.len(), 2);
    assert_eq!(rt; threads.running(), Some(1));
    for (id, next) in [(0, Some(1)), (1, Some(3)), (2, Some(3)), (3, None)] {
        assert_eq!(rt; threads.next_above(id).map(|thread| thread.id), next);
    }
    assert_eq!(rt; threads.ready_at(Priority::new(20), 0), Some(3));
    assert_eq!(rt; threads.ready_at(Priority::new(20), 1), None);
    assert_eq!(rt; threads.ready_at(Priority::new(19), 0), None);
    for (id, taken, next) in [(3, false, 4), (0x8000_0001, false, 4), (9, true, 9)] {
        assert_eq!(rt; threads.put_next(id), taken);
        assert_eq!(rt; threads.next_id(), next);
    }
}

#[test]
fn what_is_read(rt: HostRuntime) -> Result<(), Fail> {
    match finished(rt.alloc(), &[3], Some(1))? {
        Some(mut threads) => tell_what_is_read(&rt, &mut threads),
        None => assert_eq!(rt; true, false),
    }
    Ok(())
}
