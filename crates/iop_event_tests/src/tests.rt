ghost use Rattle.std.specs.Prelude.{◌≡◌, ◌⊎◌};

use iop_base::{Code, LAST_ID};
use iop_event::{CLEAR, EITHER, EventFlag, EventFlags, MANY_WAITERS, Met, Wanted};
use std::alloc::{AllocError, Global};
use std::test::Fail;

/// What a row of a table calls.
#[derive(Clone, Copy)]
enum Call {
    Create(u32, u32),
    Delete(u32),
    Set(u32, u32),
    Clear(u32, u32),
    Test(u32, u32, u32),
    Pattern(u32),
}

/// Makes a call, and tells what it answers: a code, or a number. -1 for the pattern of no event
/// flag.
fn answer(flags: &mut EventFlags, call: Call) -> i64 {
    match call {
        Call::Create(attr, bits) => number(flags.create(attr, 0, bits)),
        Call::Delete(id) if flags.waiters(id) != 0 => 0,
        Call::Delete(id) => i64::from(flags.delete(id).0),
        Call::Set(id, bits) => i64::from(flags.set(id, bits).0),
        Call::Clear(id, mask) => i64::from(flags.clear(id, mask).0),
        Call::Test(id, bits, mode) => number(flags.test(id, bits, mode)),
        Call::Pattern(id) => match flags.get(id) {
            Some(flag) => i64::from(flag.pattern),
            None => -1,
        },
    }
}

/// Makes the calls of a table, and tells which row is the first with another answer. None where
/// there is no such row.
fn wrong_row(flags: &mut EventFlags, rows: &[(Call, i64)]) -> Option<usize> {
    for (place, (call, number)) in rows.iter().enumerate() {
        if answer(flags, *call) != *number {
            return Some(place);
        }
    }
    None
}

/// Makes a number of an answer.
fn number(answer: Result<u32, Code>) -> i64 {
    match answer {
        Ok(number) => i64::from(number),
        Err(code) => i64::from(code.0),
    }
}

/// Makes one event flag without a bit, for which the thread 11 waits, for 3 by `CLEAR`, and then
/// the thread 12, for 1 by `EITHER`.
fn two_wait(alloc: Global, attr: u32) -> Result<EventFlags, AllocError>
    requires { attr ≡ 0 ⊎ attr ≡ 2 }
{
    let mut flags = EventFlags::new(alloc)?;
    let _ = flags.create(attr, 0, 0);
    flags.wait(1, 11, 30, wanted(3, CLEAR));
    flags.wait(1, 12, 20, wanted(1, EITHER));
    Ok(flags)
}

/// Makes the condition for which a thread waits.
fn wanted(bits: u32, mode: u32) -> Wanted {
    Wanted {
        bits,
        mode,
        place: 0x100,
    }
}

#[test]
fn patterns(rt: HostRuntime) -> Result<(), Fail> {
    let mut flags = EventFlags::new(rt.alloc())?;
    let rows = [
        (Call::Create(0, 4), 1),
        (Call::Create(1, 4), -401),
        (Call::Set(1, 3), 0),
        (Call::Pattern(1), 7),
        (Call::Clear(1, 6), 0),
        (Call::Pattern(1), 6),
        (Call::Test(1, 0, EITHER), -423),
        (Call::Test(1, 3, 0), -421),
        (Call::Test(1, 3, EITHER), 6),
        (Call::Test(1, 9, EITHER), -421),
        (Call::Test(1, 2, CLEAR), 6),
        (Call::Pattern(1), 0),
        (Call::Set(2, 1), -409),
        (Call::Clear(2, 1), -409),
        (Call::Test(2, 0, 0), -409),
        (Call::Delete(2), -409),
        (Call::Delete(1), 0),
        (Call::Pattern(1), -1),
        (Call::Create(MANY_WAITERS, 0), 2),
    ];
    assert_eq!(rt; wrong_row(&mut flags, &rows), None);
    Ok(())
}

#[test]
fn waiters_met(rt: HostRuntime) -> Result<(), Fail> {
    let mut flags = two_wait(rt.alloc(), MANY_WAITERS)?;
    assert_eq!(rt; flags.next_met(1), None);
    assert_eq!(rt; wrong_row(&mut flags, &[(Call::Set(1, 3), 0)]), None);
    let met = Met {
        thread: 11,
        place: 0x100,
        pattern: 3,
    };
    assert_eq!(rt; flags.next_met(1), Some(met));
    assert_eq!(rt; flags.next_met(1), None);
    let rows = [(Call::Pattern(1), 0), (Call::Test(1, 1, 0), -421)];
    assert_eq!(rt; wrong_row(&mut flags, &rows), None);
    flags.drop_waiter(1, 13);
    flags.requeue(1, 12, 1);
    assert_eq!(rt; flags.pop_waiter(1), Some(12));
    assert_eq!(rt; flags.pop_waiter(1), None);
    Ok(())
}

#[test]
fn one_waiter_alone(rt: HostRuntime) -> Result<(), Fail> {
    let mut flags = two_wait(rt.alloc(), 0)?;
    let rows = [
        (Call::Set(1, 1), 0),
        (Call::Test(1, 0, 0), -423),
        (Call::Test(1, 1, 0), -422),
    ];
    assert_eq!(rt; wrong_row(&mut flags, &rows), None);
    flags.drop_waiter(1, 12);
    assert_eq!(rt; flags.pop_waiter(1), Some(11));
    assert_eq!(rt; wrong_row(&mut flags, &[(Call::Test(1, 1, 0), 1)]), None);
    Ok(())
}

/// Makes what is known of an event flag that was made with one bit, and has another.
fn with_attribute(attr: u32) -> EventFlag {
    EventFlag {
        attr,
        option: 7,
        first: 1,
        pattern: 2,
    }
}

#[test]
fn event_flags_are_put_back(rt: HostRuntime) -> Result<(), Fail> {
    let mut flags = EventFlags::new(rt.alloc())?;
    let rows = [
        (2, 1, false),
        (2, 0, true),
        (2, 0, false),
        (5, MANY_WAITERS, true),
        (LAST_ID + 1, 0, false),
    ];
    for (id, attr, put) in rows {
        assert_eq!(rt; flags.put_back(id, with_attribute(attr)), put);
    }
    let rows = [(0, Some((2, 0))), (1, Some((5, MANY_WAITERS))), (2, None)];
    for (place, flag) in rows {
        let known = flag.map(|(id, attr)| (id, with_attribute(attr)));
        assert_eq!(rt; flags.nth(place), known);
    }
    assert_eq!(rt; flags.len(), 2);
    assert_eq!(rt; flags.next_id(), 6);
    assert!(rt; !flags.put_next(5));
    assert!(rt; flags.put_next(9));
    assert_eq!(rt; flags.next_id(), 9);
    Ok(())
}

#[test]
fn waiters_are_put_back(rt: HostRuntime) -> Result<(), Fail> {
    let mut flags = EventFlags::new(rt.alloc())?;
    assert!(rt; flags.put_back(1, with_attribute(0)));
    assert!(rt; flags.put_back(2, with_attribute(MANY_WAITERS)));
    let rows = [
        (1, 11, 0, false),
        (1, 11, 4, true),
        (1, 12, 4, false),
        (2, 14, 4, true),
        (2, 13, 8, true),
        (3, 15, 4, false),
    ];
    for (id, thread, bits, put) in rows {
        assert_eq!(rt; flags.put_waiter(id, thread, 20, wanted(bits, CLEAR)), put);
    }
    assert_eq!(rt; flags.waiters(1), 1);
    assert!(rt; flags.walk(3).is_none());
    if let Some(mut walk) = flags.walk(2) {
        for waiter in [Some((14, 4)), Some((13, 8)), None] {
            let next = walk.next();
            let known = next.map(|queued| (queued.item.thread, queued.item.wants.bits));
            assert_eq!(rt; known, waiter);
        }
    }
    Ok(())
}
