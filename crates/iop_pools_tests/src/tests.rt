use iop_base::Code;
use iop_pools::{BY_PRIORITY, FixedPool, FixedPools, VariablePool, VariablePools};
use std::alloc::{AllocError, Global};
use std::test::Fail;

/// Where the memory of the pools begins.
const BASE: u32 = 0x1_0000;

/// What a row of a table calls, on the pool of an id.
#[derive(Clone, Copy)]
enum Call {
    Take(u32, u32),
    Give(u32, u32),
    NextMet(u32),
    Pop(u32),
    Drop(u32),
    Requeue(u32, u8),
    Delete(u32),
}

/// Makes a call on variable pools, and tells what it answers: a code, or a number. Of a thread that
/// is met the number is its id and how far its memory is behind `BASE`. 0 where it answers nothing.
fn variable(pools: &mut VariablePools, call: Call) -> i64 {
    match call {
        Call::Take(id, size) => number(pools.take(id, size)),
        Call::Give(id, block) => i64::from(pools.give(id, block).0),
        Call::NextMet(id) => match pools.next_met(id) {
            Some(met) => i64::from(met.thread) * 1000 + i64::from(met.block) - i64::from(BASE),
            None => 0,
        },
        Call::Pop(id) => i64::from(pools.pop_waiter(id).unwrap_or(0)),
        Call::Drop(thread) => {
            pools.drop_waiter(1, thread);
            0
        }
        Call::Requeue(thread, priority) => {
            pools.requeue(1, thread, priority);
            0
        }
        Call::Delete(id) if pools.waiters(id) != 0 => 0,
        Call::Delete(id) => i64::from(pools.delete(id).0),
    }
}

/// Makes a call on fixed pools, and tells what it answers: a code, or a number. 0 where it answers
/// nothing.
fn fixed(pools: &mut FixedPools, call: Call) -> i64 {
    match call {
        Call::Take(id, _) => number(pools.take(id)),
        Call::Give(id, block) => number(pools.give(id, block).map(|thread| thread.unwrap_or(0))),
        Call::NextMet(_) => 0,
        Call::Pop(id) => i64::from(pools.pop_waiter(id).unwrap_or(0)),
        Call::Drop(thread) => {
            pools.drop_waiter(1, thread);
            0
        }
        Call::Requeue(thread, priority) => {
            pools.requeue(1, thread, priority);
            0
        }
        Call::Delete(id) if pools.waiters(id) != 0 => 0,
        Call::Delete(id) => i64::from(pools.delete(id).0),
    }
}

/// Makes a number of an answer.
fn number(answer: Result<u32, Code>) -> i64 {
    match answer {
        Ok(number) => i64::from(number),
        Err(code) => i64::from(code.0),
    }
}

/// Makes the calls of a table on variable pools, and tells which row is the first with another
/// answer. None where there is no such row.
fn wrong_variable(pools: &mut VariablePools, rows: &[(Call, i64)]) -> Option<usize> {
    for (place, (call, number)) in rows.iter().enumerate() {
        if variable(pools, *call) != *number {
            return Some(place);
        }
    }
    None
}

/// Makes the calls of a table on fixed pools, and tells which row is the first with another answer.
/// None where there is no such row.
fn wrong_fixed(pools: &mut FixedPools, rows: &[(Call, i64)]) -> Option<usize> {
    for (place, (call, number)) in rows.iter().enumerate() {
        if fixed(pools, *call) != *number {
            return Some(place);
        }
    }
    None
}

/// Makes a variable pool of 64 bytes, all of which are out in two ranges of 32. The thread 13 waits
/// for 47, 14 for 1 and 15 for 16, of the priorities 10, 30 and 20.
fn three_wait(alloc: Global, attr: u32) -> Result<VariablePools, AllocError> {
    let mut pools = VariablePools::new(alloc)?;
    let _ = pools.create(attr, 0, 64, BASE);
    let _ = pools.take(1, 20);
    let _ = pools.take(1, 20);
    pools.wait(1, 13, 10, 47);
    pools.wait(1, 14, 30, 1);
    pools.wait(1, 15, 20, 16);
    Ok(pools)
}

/// Makes a fixed pool of two blocks of 10 bytes, both of which are out, and whose waiters are
/// chosen by priority. The threads 11 and 12 wait, of the priorities 30 and 20.
fn two_wait(alloc: Global) -> Result<FixedPools, AllocError> {
    let mut pools = FixedPools::new(alloc)?;
    let _ = pools.create(BY_PRIORITY, 7, 10, 2, BASE);
    let _ = pools.take(1);
    let _ = pools.take(1);
    pools.wait(1, 11, 30);
    pools.wait(1, 12, 20);
    Ok(pools)
}

#[test]
fn sizes(rt: HostRuntime) -> Result<(), Fail> {
    assert_eq!(rt; number(VariablePools::bytes(2, 64)), -401);
    assert_eq!(rt; number(VariablePools::bytes(0, 15)), -427);
    assert_eq!(rt; number(VariablePools::bytes(0, 0x1_0001)), -427);
    assert_eq!(rt; number(VariablePools::bytes(BY_PRIORITY, 17)), 32);
    assert_eq!(rt; number(VariablePools::bytes(0, 0x1_0000)), 0x1_0000);
    assert_eq!(rt; number(FixedPools::bytes(2, 0, 0)), -401);
    assert_eq!(rt; number(FixedPools::bytes(0, 0, 1)), -427);
    assert_eq!(rt; number(FixedPools::bytes(0, 0x1_0001, 1)), -427);
    assert_eq!(rt; number(FixedPools::bytes(0, 1, 0)), -427);
    assert_eq!(rt; number(FixedPools::bytes(0, 1, 1025)), -427);
    assert_eq!(rt; number(FixedPools::bytes(BY_PRIORITY, 10, 2)), 24);
    assert_eq!(rt; number(FixedPools::bytes(0, 0x1_0000, 1024)), 0x400_0000);
    Ok(())
}

#[test]
fn ranges(rt: HostRuntime) -> Result<(), Fail> {
    let mut pools = VariablePools::new(rt.alloc())?;
    assert_eq!(rt; number(pools.create(0, 7, 60, BASE)), 1);
    assert_eq!(rt; number(pools.create(0, 0, 64, 0x2_0000)), 2);
    let rows = [
        (Call::Take(3, 20), -411),
        (Call::Take(1, 0), -427),
        (Call::Take(1, 65), -427),
        (Call::Take(1, 20), 0x1_0000),
        (Call::Take(2, 64), 0x2_0000),
        (Call::Take(1, 16), 0x1_0020),
        (Call::Take(1, 17), -400),
        (Call::Take(1, 1), 0x1_0030),
        (Call::Give(1, 0x1_0010), -426),
        (Call::Give(1, 0x2_0000), -426),
        (Call::Give(3, 0x1_0000), -411),
        (Call::Give(1, 0x1_0020), 0),
        (Call::Give(1, 0x1_0020), -426),
    ];
    assert_eq!(rt; wrong_variable(&mut pools, &rows), None);
    let known = VariablePool {
        attr: 0,
        option: 7,
        base: BASE,
        size: 64,
        free: 16,
        greatest: 16,
    };
    assert_eq!(rt; pools.get(1), Some(known));
    let rows = [
        (Call::Give(1, 0x1_0000), 0),
        (Call::Take(1, 33), 0x1_0000),
        (Call::Delete(1), 0),
        (Call::Delete(1), -411),
        (Call::Give(1, 0x1_0000), -411),
        (Call::Give(2, 0x2_0000), 0),
    ];
    assert_eq!(rt; wrong_variable(&mut pools, &rows), None);
    assert_eq!(rt; pools.get(1), None);
    Ok(())
}

#[test]
fn sizes_that_wait(rt: HostRuntime) -> Result<(), Fail> {
    let pools = three_wait(rt.alloc(), 0)?;
    assert!(rt; pools.walk(1).is_some());
    if let Some(mut walk) = pools.walk(1) {
        for waiter in [Some((13, 48)), Some((14, 16)), Some((15, 16)), None] {
            let next = walk.next();
            assert_eq!(rt;
                next.map(|queued| (queued.item.thread, queued.item.wants)),
                waiter
            );
        }
    }
    Ok(())
}

#[test]
fn sizes_that_fit(rt: HostRuntime) -> Result<(), Fail> {
    let mut pools = three_wait(rt.alloc(), 0)?;
    let rows = [
        (Call::NextMet(1), 0),
        (Call::Give(1, BASE), 0),
        (Call::NextMet(1), 14_000),
        (Call::NextMet(1), 15_016),
        (Call::NextMet(1), 0),
        (Call::Give(1, BASE + 32), 0),
        (Call::NextMet(1), 0),
        (Call::Give(1, BASE + 16), 0),
        (Call::NextMet(1), 13_016),
        (Call::NextMet(1), 0),
        (Call::Take(1, 1), -400),
    ];
    assert_eq!(rt; wrong_variable(&mut pools, &rows), None);
    let mut pools = three_wait(rt.alloc(), BY_PRIORITY)?;
    let rows = [
        (Call::Give(1, BASE + 32), 0),
        (Call::NextMet(1), 15_032),
        (Call::Requeue(14, 5), 0),
        (Call::Give(1, BASE), 0),
        (Call::Give(1, BASE + 32), 0),
        (Call::NextMet(1), 14_000),
        (Call::NextMet(1), 13_016),
        (Call::NextMet(1), 0),
    ];
    assert_eq!(rt; wrong_variable(&mut pools, &rows), None);
    let mut pools = three_wait(rt.alloc(), BY_PRIORITY)?;
    let rows = [
        (Call::Drop(15), 0),
        (Call::Pop(1), 13),
        (Call::Pop(1), 14),
        (Call::Pop(1), 0),
        (Call::NextMet(2), 0),
    ];
    assert_eq!(rt; wrong_variable(&mut pools, &rows), None);
    Ok(())
}

#[test]
fn blocks(rt: HostRuntime) -> Result<(), Fail> {
    let mut pools = FixedPools::new(rt.alloc())?;
    assert_eq!(rt; number(pools.create(BY_PRIORITY, 7, 10, 2, BASE)), 1);
    let rows = [
        (Call::Take(1, 0), 0x1_0000),
        (Call::Take(1, 0), 0x1_000C),
        (Call::Take(1, 0), -400),
        (Call::Take(2, 0), -412),
    ];
    assert_eq!(rt; wrong_fixed(&mut pools, &rows), None);
    let mut pools = two_wait(rt.alloc())?;
    let known = FixedPool {
        attr: BY_PRIORITY,
        option: 7,
        base: BASE,
        size: 12,
        count: 2,
        free: 0,
    };
    assert_eq!(rt; pools.get(1), Some(known));
    let rows = [
        (Call::Give(1, BASE + 4), -426),
        (Call::Give(2, BASE), -412),
        (Call::Give(1, BASE + 12), 12),
        (Call::Requeue(11, 5), 0),
        (Call::Give(1, BASE), 11),
        (Call::Give(1, BASE), 0),
        (Call::Give(1, BASE), -426),
        (Call::Take(1, 0), 0x1_0000),
        (Call::Give(1, BASE + 12), 0),
        (Call::Take(1, 0), 0x1_000C),
        (Call::Pop(1), 0),
        (Call::Drop(11), 0),
        (Call::Delete(1), 0),
        (Call::Delete(1), -412),
    ];
    assert_eq!(rt; wrong_fixed(&mut pools, &rows), None);
    assert_eq!(rt; pools.get(1), None);
    Ok(())
}
