use iop_base::LAST_ID;
use iop_pools::{BY_PRIORITY, FixedLayout, FixedPools, Range, VariableLayout, VariablePools};
use std::alloc::{AllocError, Global};
use std::test::Fail;

/// Where the memory of the pools begins.
const BASE: u32 = 0x1_0000;

/// A variable pool of 64 bytes.
const VARIABLE: VariableLayout = VariableLayout {
    attr: BY_PRIORITY,
    option: 7,
    base: BASE,
    size: 64,
};

/// A fixed pool of three blocks of 12 bytes.
const FIXED: FixedLayout = FixedLayout {
    attr: BY_PRIORITY,
    option: 7,
    base: BASE,
    size: 12,
    count: 3,
};

/// Makes a table of one variable pool, whose id is 2.
fn one_variable(alloc: Global) -> Result<VariablePools, AllocError> {
    let mut pools = VariablePools::new(alloc)?;
    let _ = pools.put_back(2, VARIABLE);
    Ok(pools)
}

/// Makes a table of one fixed pool, whose id is 2.
fn one_fixed(alloc: Global) -> Result<FixedPools, AllocError> {
    let mut pools = FixedPools::new(alloc)?;
    let _ = pools.put_back(2, FIXED);
    Ok(pools)
}

#[test]
fn variable_pools_are_put_back(rt: HostRuntime) -> Result<(), Fail> {
    let mut pools = one_variable(rt.alloc())?;
    let rows = [
        (2, 0, BASE, 64, false),
        (3, 2, BASE, 64, false),
        (3, 0, BASE - 0x100, 64, false),
        (3, 0, BASE + 0x10, 64, false),
        (3, 0, BASE, 0, false),
        (3, 0, BASE, 60, false),
        (3, 0, BASE, 0x1_0010, false),
        (3, 0, 0xFFFF_FF00, 0x100, false),
        (3, 0, 0xFFFF_FF00, 0xF0, true),
        (LAST_ID + 1, 0, BASE, 64, false),
    ];
    for (id, attr, base, size, put) in rows {
        let layout = VariableLayout {
            attr,
            option: 0,
            base,
            size,
        };
        assert_eq!(rt; pools.put_back(id, layout), put);
    }
    assert_eq!(rt; pools.len(), 2);
    assert_eq!(rt; pools.nth(0), Some((2, VARIABLE)));
    assert_eq!(rt; pools.nth(2), None);
    for (id, put) in [(3, false), (LAST_ID + 2, false), (LAST_ID + 1, true)] {
        assert_eq!(rt; pools.put_next(id), put);
    }
    assert_eq!(rt; pools.next_id(), LAST_ID + 1);
    Ok(())
}

#[test]
fn ranges_are_put_back(rt: HostRuntime) -> Result<(), Fail> {
    let mut pools = one_variable(rt.alloc())?;
    let rows = [
        (3, BASE, 16, false),
        (2, BASE - 16, 16, false),
        (2, BASE + 8, 16, false),
        (2, BASE, 0, false),
        (2, BASE, 24, false),
        (2, BASE, 80, false),
        (2, BASE + 16, 16, true),
        (2, BASE, 16, false),
        (2, BASE + 16, 32, false),
        (2, BASE + 32, 32, true),
        (2, BASE + 64, 16, false),
    ];
    for (id, start, size, put) in rows {
        assert_eq!(rt; pools.put_range(id, start, size), put);
    }
    assert!(rt; pools.ranges(3).is_none());
    if let Some(mut walk) = pools.ranges(2) {
        assert_eq!(rt; walk.len(), 2);
        for (start, size) in [(BASE + 16, 16), (BASE + 32, 32)] {
            assert_eq!(rt; walk.next(), Some(Range { start, size }));
        }
        assert_eq!(rt; walk.next(), None);
    }
    Ok(())
}

#[test]
fn waiters_are_put_back(rt: HostRuntime) -> Result<(), Fail> {
    let mut pools = one_variable(rt.alloc())?;
    let rows = [
        (3, 11, 16, false),
        (2, 11, 0, false),
        (2, 11, 24, false),
        (2, 11, 80, false),
        (2, 12, 64, true),
        (2, 11, 16, true),
    ];
    for (id, thread, size, put) in rows {
        assert_eq!(rt; pools.put_waiter(id, thread, size, 20), put);
    }
    if let Some(mut walk) = pools.walk(2) {
        for waiter in [Some((12, 64)), Some((11, 16)), None] {
            let next = walk.next();
            assert_eq!(rt;
                next.map(|queued| (queued.item.thread, queued.item.wants)),
                waiter
            );
        }
    }
    Ok(())
}

#[test]
fn fixed_pools_are_put_back(rt: HostRuntime) -> Result<(), Fail> {
    let mut pools = one_fixed(rt.alloc())?;
    let rows = [
        (2, 0, BASE, 12, 3, false),
        (3, 2, BASE, 12, 3, false),
        (3, 0, BASE - 0x100, 12, 3, false),
        (3, 0, BASE + 0x10, 12, 3, false),
        (3, 0, BASE, 0, 3, false),
        (3, 0, BASE, 10, 3, false),
        (3, 0, BASE, 0x1_0004, 3, false),
        (3, 0, BASE, 12, 0, false),
        (3, 0, BASE, 12, 1025, false),
        (3, 0, 0xFC00_0000, 0x1_0000, 1024, false),
        (3, 0, 0xFC00_0000, 0x1_0000, 1023, true),
    ];
    for (id, attr, base, size, count, put) in rows {
        let layout = FixedLayout {
            attr,
            option: 0,
            base,
            size,
            count,
        };
        assert_eq!(rt; pools.put_back(id, layout), put);
    }
    assert_eq!(rt; pools.len(), 2);
    assert_eq!(rt; pools.nth(0), Some((2, FIXED)));
    assert_eq!(rt; pools.nth(2), None);
    assert_eq!(rt; pools.put_next(3), false);
    assert_eq!(rt; pools.put_next(9), true);
    assert_eq!(rt; pools.next_id(), 9);
    Ok(())
}

#[test]
fn blocks_are_put_back(rt: HostRuntime) -> Result<(), Fail> {
    let mut pools = one_fixed(rt.alloc())?;
    let rows = [
        (3, BASE, false),
        (2, BASE + 4, false),
        (2, BASE + 36, false),
        (2, BASE, true),
        (2, BASE, false),
        (2, BASE + 24, true),
        (2, BASE + 12, false),
    ];
    for (id, block, put) in rows {
        assert_eq!(rt; pools.put_block(id, block), put);
    }
    if let Some(mut walk) = pools.blocks(2) {
        assert_eq!(rt; walk.len(), 2);
        for block in [Some(BASE), Some(BASE + 24), None] {
            assert_eq!(rt; walk.next(), block);
        }
    }
    for (id, thread, put) in [(2, 12, true), (3, 13, false), (2, 11, true)] {
        assert_eq!(rt; pools.put_waiter(id, thread, 20), put);
    }
    if let Some(mut walk) = pools.walk(2) {
        for thread in [Some(12), Some(11), None] {
            let next = walk.next();
            assert_eq!(rt; next.map(|queued| queued.item.thread), thread);
        }
    }
    Ok(())
}
