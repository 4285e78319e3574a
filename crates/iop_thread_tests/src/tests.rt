ghost use Rattle.iop_ready.specs.KernelReady.{KernelStands};
ghost use Rattle.iop_thread.specs.Standing.{IsSound};

use iop_base::Code;
use iop_exec::Cpu;
use iop_ready::{KernelReady, MOST_THREADS, Priority};
use iop_thread::{LOADER, MOST_WAKEUPS, Param, Threads, Wait, registers_at};
use std::test::Fail;

/// What a row of a table calls.
#[derive(Clone, Copy)]
enum Call {
    Create(Priority),
    Delete(u32),
    Start(u32),
    EndRunning,
    Terminate(u32),
    Change(u32, Priority),
    Rotate(Priority),
    Suspend(u32),
    Resume(u32),
    Sleep,
    Wake(u32),
    Wakeup(u32),
    CancelWakeups(u32),
    HasRoom,
    Dispatch,
}

/// Makes a call, and tells what it answers: a code, or a number. 0 where it answers nothing.
fn answer(threads: &mut Threads<KernelReady>, call: Call, cpu: &mut Cpu) -> i64
    requires { IsSound KernelStands threads.old }
    ensures { IsSound KernelStands threads.new }
{
    match call {
        Call::Create(priority) => number(threads.create(param(priority), 0x2_0000, 0)),
        Call::Delete(id) => number(threads.delete(id)),
        Call::Start(id) => i64::from(threads.start(id, 7).0),
        Call::EndRunning => {
            threads.end_running();
            0
        }
        Call::Terminate(id) => number(threads.terminate(id).map(|wait| kind(wait))),
        Call::Change(id, priority) => number(threads.change(id, priority).map(|wait| kind(wait))),
        Call::Rotate(priority) => {
            threads.rotate(priority, cpu);
            0
        }
        Call::Suspend(id) => i64::from(threads.suspend(id, cpu).0),
        Call::Resume(id) => i64::from(threads.resume(id).0),
        Call::Sleep => {
            threads.block(Wait::Sleep, cpu);
            0
        }
        Call::Wake(id) => {
            threads.wake(id, 0);
            0
        }
        Call::Wakeup(id) => i64::from(threads.wakeup(id).0),
        Call::CancelWakeups(id) => number(threads.cancel_wakeups(id)),
        Call::HasRoom => i64::from(threads.has_room()),
        Call::Dispatch => i64::from(threads.dispatch(cpu).unwrap_or(0)),
    }
}

/// Makes the calls of a table, and tells which row is the first with another answer. None where
/// there is no such row.
fn wrong_row(threads: &mut Threads<KernelReady>, rows: &[(Call, i64)]) -> Option<usize>
    requires { IsSound KernelStands threads.old }
{
    let mut cpu = registers_at(0);
    for (place, (call, number)) in rows.iter().enumerate() {
        if answer(threads, *call, &mut cpu) != *number {
            return Some(place);
        }
    }
    None
}

/// Makes a number of an answer.
fn number(answer: Result<u32, Code>) -> i64 {
    match answer {
        Ok(number) => i64::from(number),
        Err(code) => i64::from(code.0),
    }
}

/// Tells the number of a wait: 0 where there is none.
fn kind(wait: Option<Wait>) -> u32 {
    wait.map_or(0, |wait| wait.kind())
}

/// Makes what a thread of a priority is made with.
fn param(priority: Priority) -> Param {
    Param {
        attr: 0x0200_0000,
        option: 0,
        entry: 0x1000,
        stack_size: 0x800,
        priority,
    }
}

#[test]
fn answers(rt: HostRuntime) -> Result<(), Fail> {
    let mut threads = Threads::new(rt.alloc(), KernelReady::new(rt.alloc())?)?;
    let rows = [
        (Call::Create(Priority::new(20)), 2),
        (Call::Delete(2), 0x2_0000),
        (Call::Delete(2), -407),
        (Call::Start(LOADER), 0),
        (Call::Start(LOADER), -414),
        (Call::Dispatch, 1),
        (Call::Wakeup(LOADER), 0),
        (Call::Wakeup(LOADER), 0),
        (Call::CancelWakeups(LOADER), 2),
        (Call::CancelWakeups(LOADER), 0),
        (Call::Sleep, 0),
        (Call::Suspend(LOADER), 0),
        (Call::Wakeup(LOADER), 0),
        (Call::Resume(LOADER), 0),
        (Call::Resume(LOADER), -415),
        (Call::Terminate(LOADER), 0),
        (Call::Suspend(LOADER), -413),
        (Call::Wakeup(LOADER), -413),
        (Call::Resume(9), -407),
    ];
    assert_eq!(rt; wrong_row(&mut threads, &rows), None);
    assert_eq!(rt; MOST_WAKEUPS, 0x7FFF_FFFF);
    Ok(())
}

#[test]
fn order_of_dispatch(rt: HostRuntime) -> Result<(), Fail> {
    let mut threads = Threads::new(rt.alloc(), KernelReady::new(rt.alloc())?)?;
    let rows = [
        (Call::Create(Priority::new(20)), 2),
        (Call::Create(Priority::new(20)), 3),
        (Call::Create(Priority::new(20)), 4),
        (Call::Create(Priority::new(10)), 5),
        (Call::Start(2), 0),
        (Call::Start(3), 0),
        (Call::Start(4), 0),
        (Call::Dispatch, 2),
        (Call::Dispatch, 0),
        (Call::Start(5), 0),
        (Call::Dispatch, 5),
        (Call::Sleep, 0),
        (Call::Dispatch, 2),
        (Call::Sleep, 0),
        (Call::Dispatch, 3),
        (Call::Wakeup(2), 0),
        (Call::Dispatch, 0),
        (Call::Terminate(3), 0),
        (Call::Dispatch, 4),
        (Call::Sleep, 0),
        (Call::Dispatch, 2),
    ];
    assert_eq!(rt; wrong_row(&mut threads, &rows), None);
    Ok(())
}

#[test]
fn order_of_ready_threads(rt: HostRuntime) -> Result<(), Fail> {
    let mut threads = Threads::new(rt.alloc(), KernelReady::new(rt.alloc())?)?;
    let high = Priority::new(20);
    let low = Priority::new(30);
    let rows = [
        (Call::Create(high), 2),
        (Call::Create(high), 3),
        (Call::Create(low), 4),
        (Call::Change(4, high), -413),
        (Call::Change(9, high), -407),
        (Call::Start(2), 0),
        (Call::Start(3), 0),
        (Call::Dispatch, 2),
        (Call::Rotate(high), 0),
        (Call::Dispatch, 3),
        (Call::Change(3, low), 0),
        (Call::Dispatch, 2),
        (Call::Start(4), 0),
        (Call::Rotate(low), 0),
        (Call::EndRunning, 0),
        (Call::Wake(2), 0),
        (Call::Dispatch, 4),
        (Call::Sleep, 0),
        (Call::Change(4, high), 1),
        (Call::Dispatch, 3),
        (Call::Wake(4), 0),
        (Call::Dispatch, 4),
    ];
    assert_eq!(rt; wrong_row(&mut threads, &rows), None);
    Ok(())
}

#[test]
fn most_threads(rt: HostRuntime) -> Result<(), Fail> {
    let mut threads = Threads::new(rt.alloc(), KernelReady::new(rt.alloc())?)?;
    let mut cpu = registers_at(0);
    let create = Call::Create(Priority::new(20));
    for _ in 1..MOST_THREADS {
        let _ = answer(&mut threads, create, &mut cpu);
    }
    let rows = [
        (Call::HasRoom, 0),
        (create, -400),
        (Call::Delete(2), 0x2_0000),
        (Call::HasRoom, 1),
        (create, 256),
        (create, -400),
    ];
    assert_eq!(rt; wrong_row(&mut threads, &rows), None);
    Ok(())
}
