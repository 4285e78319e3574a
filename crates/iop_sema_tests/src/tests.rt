ghost use Rattle.std.specs.Prelude.{◌≤◌};

use iop_base::{Code, LAST_ID};
use iop_sema::{BY_PRIORITY, Semaphore, Semaphores};
use std::alloc::{AllocError, Global};
use std::test::Fail;

/// What a row of a table calls.
#[derive(Clone, Copy)]
enum Call {
    Create(u32, u32, u32),
    Delete(u32),
    Signal(u32),
    Take(u32),
    Count(u32),
    Pop(u32),
    Drop(u32),
    Requeue(u32, u8),
}

/// Makes a call, the last ones on the first semaphore, and tells what it answers: a code, or a
/// number. 0 where it answers nothing, and -1 for the count of no semaphore.
fn answer(semaphores: &mut Semaphores, call: Call) -> i64 {
    match call {
        Call::Create(attr, initial, max) => number(semaphores.create(attr, 0, initial, max)),
        Call::Delete(id) if semaphores.waiters(id) != 0 => 0,
        Call::Delete(id) => i64::from(semaphores.delete(id).0),
        Call::Signal(id) => number(semaphores.signal(id).map(|thread| thread.unwrap_or(0))),
        Call::Take(id) => i64::from(semaphores.take(id).0),
        Call::Count(id) => match semaphores.get(id) {
            Some(semaphore) => i64::from(semaphore.count),
            None => -1,
        },
        Call::Pop(id) => i64::from(semaphores.pop_waiter(id).unwrap_or(0)),
        Call::Drop(thread) => {
            semaphores.drop_waiter(1, thread);
            0
        }
        Call::Requeue(thread, priority) => {
            semaphores.requeue(1, thread, priority);
            0
        }
    }
}

/// Makes the calls of a table, and tells which row is the first with another answer. None where
/// there is no such row.
fn wrong_row(semaphores: &mut Semaphores, rows: &[(Call, i64)]) -> Option<usize> {
    for (place, (call, number)) in rows.iter().enumerate() {
        if answer(semaphores, *call) != *number {
            return Some(place);
        }
    }
    None
}

/// Makes a number of an answer.
fn number(answer: Result<u32, Code>) -> i64 {
    match answer {
        Ok(number) => i64::from(number),
        Err(code) => i64::from(code.0),
    }
}

/// Makes one semaphore, for which the threads 11, 12 and 13 wait, of the priorities 30, 20 and 20.
fn three_wait(alloc: Global, attr: u32) -> Result<Semaphores, AllocError>
    requires { attr ≤ 1 }
{
    let mut semaphores = Semaphores::new(alloc)?;
    let _ = semaphores.create(attr, 0, 0, 1);
    semaphores.wait(1, 11, 30);
    semaphores.wait(1, 12, 20);
    semaphores.wait(1, 13, 20);
    Ok(semaphores)
}

#[test]
fn counts(rt: HostRuntime) -> Result<(), Fail> {
    let mut semaphores = Semaphores::new(rt.alloc())?;
    let rows = [
        (Call::Create(0, 1, 1), 1),
        (Call::Signal(1), -420),
        (Call::Take(1), 0),
        (Call::Take(1), -419),
        (Call::Count(1), 0),
        (Call::Signal(1), 0),
        (Call::Count(1), 1),
        (Call::Create(0, 2, 1), -420),
        (Call::Create(2, 2, 1), -401),
        (Call::Signal(2), -408),
        (Call::Take(2), -408),
        (Call::Delete(2), -408),
        (Call::Create(BY_PRIORITY, 0, 0), 2),
        (Call::Signal(2), -420),
        (Call::Delete(1), 0),
        (Call::Count(1), -1),
        (Call::Create(0, 0, 1), 3),
    ];
    assert_eq!(rt; wrong_row(&mut semaphores, &rows), None);
    Ok(())
}

#[test]
fn waiters_by_priority(rt: HostRuntime) -> Result<(), Fail> {
    let mut semaphores = three_wait(rt.alloc(), BY_PRIORITY)?;
    assert_eq!(rt; semaphores.waiters(1), 3);
    let rows = [
        (Call::Signal(1), 12),
        (Call::Count(1), 0),
        (Call::Pop(1), 13),
        (Call::Pop(1), 11),
        (Call::Pop(1), 0),
        (Call::Signal(1), 0),
        (Call::Count(1), 1),
    ];
    assert_eq!(rt; wrong_row(&mut semaphores, &rows), None);
    let mut semaphores = three_wait(rt.alloc(), BY_PRIORITY)?;
    let rows = [
        (Call::Requeue(12, 20), 0),
        (Call::Pop(1), 13),
        (Call::Requeue(11, 10), 0),
        (Call::Pop(1), 11),
        (Call::Pop(1), 12),
    ];
    assert_eq!(rt; wrong_row(&mut semaphores, &rows), None);
    Ok(())
}

#[test]
fn waiters_by_arrival(rt: HostRuntime) -> Result<(), Fail> {
    let mut semaphores = three_wait(rt.alloc(), 0)?;
    let rows = [
        (Call::Signal(1), 11),
        (Call::Requeue(13, 10), 0),
        (Call::Pop(2), 0),
        (Call::Drop(14), 0),
        (Call::Pop(1), 12),
        (Call::Drop(13), 0),
        (Call::Pop(1), 0),
    ];
    assert_eq!(rt; wrong_row(&mut semaphores, &rows), None);
    Ok(())
}

/// Makes what is known of a semaphore whose most is 2.
fn of_most_2(attr: u32, initial: u32, count: u32) -> Semaphore {
    Semaphore {
        attr,
        option: 7,
        initial,
        max: 2,
        count,
    }
}

#[test]
fn semaphores_are_put_back(rt: HostRuntime) -> Result<(), Fail> {
    let mut semaphores = Semaphores::new(rt.alloc())?;
    let rows = [
        (2, of_most_2(2, 1, 1), false),
        (2, of_most_2(0, 3, 1), false),
        (2, of_most_2(0, 1, 3), false),
        (2, of_most_2(0, 2, 2), true),
        (2, of_most_2(0, 0, 0), false),
        (5, of_most_2(BY_PRIORITY, 0, 1), true),
        (LAST_ID + 1, of_most_2(0, 0, 0), false),
    ];
    for (id, semaphore, put) in rows {
        assert_eq!(rt; semaphores.put_back(id, semaphore), put);
    }
    let rows = [
        (0, Some((2, of_most_2(0, 2, 2)))),
        (1, Some((5, of_most_2(BY_PRIORITY, 0, 1)))),
        (2, None),
    ];
    for (place, semaphore) in rows {
        assert_eq!(rt; semaphores.nth(place), semaphore);
    }
    assert_eq!(rt; semaphores.len(), 2);
    assert_eq!(rt; semaphores.next_id(), 6);
    assert!(rt; !semaphores.put_next(5));
    assert!(rt; semaphores.put_next(9));
    assert_eq!(rt; semaphores.next_id(), 9);
    Ok(())
}

#[test]
fn waiters_are_put_back(rt: HostRuntime) -> Result<(), Fail> {
    let mut semaphores = Semaphores::new(rt.alloc())?;
    assert!(rt; semaphores.put_back(3, of_most_2(0, 0, 0)));
    for (id, thread, put) in [(3, 12, true), (1, 13, false), (3, 11, true)] {
        assert_eq!(rt; semaphores.put_waiter(id, thread, 20), put);
    }
    assert!(rt; semaphores.walk(1).is_none());
    if let Some(mut walk) = semaphores.walk(3) {
        for thread in [Some(12), Some(11), None] {
            let next = walk.next();
            assert_eq!(rt; next.map(|queued| queued.item.thread), thread);
        }
    }
    Ok(())
}
