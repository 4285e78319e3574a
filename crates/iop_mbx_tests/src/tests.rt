use iop_base::{Code, LAST_ID};
use iop_mbx::{MESSAGES_BY_PRIORITY, MOST_MESSAGES, Mailbox, Mailboxes, WAITERS_BY_PRIORITY};
use iop_objects::Waiter;
use std::alloc::{AllocError, Global};
use std::test::Fail;

/// What a row of a table calls.
#[derive(Clone, Copy)]
enum Call {
    Create(u32),
    Delete(u32),
    Put(u32, u32, u8),
    Next(u32),
    Take(u32),
    Count(u32),
}

/// Makes a call, and tells what it answers: a code, or a number. -1 for no next message.
fn answer(mailboxes: &mut Mailboxes, call: Call) -> i64 {
    match call {
        Call::Create(attr) => number(mailboxes.create(attr, 0)),
        Call::Delete(id) if mailboxes.waiters(id) != 0 => 0,
        Call::Delete(id) => i64::from(mailboxes.delete(id).0),
        Call::Put(id, message, priority) => i64::from(mailboxes.put(id, message, priority).0),
        Call::Next(id) => match mailboxes.next_message(id) {
            Some(message) => i64::from(message),
            None => -1,
        },
        Call::Take(id) => number(mailboxes.take_message(id)),
        Call::Count(id) => mailboxes.messages(id) as i64,
    }
}

/// Makes the calls of a table, and tells which row is the first with another answer. None where
/// there is no such row.
fn wrong_row(mailboxes: &mut Mailboxes, rows: &[(Call, i64)]) -> Option<usize> {
    for (place, (call, number)) in rows.iter().enumerate() {
        if answer(mailboxes, *call) != *number {
            return Some(place);
        }
    }
    None
}

/// Makes a number of an answer.
fn number(answer: Result<u32, Code>) -> i64 {
    match answer {
        Ok(number) => i64::from(number),
        Err(code) => i64::from(code.0),
    }
}

/// Makes one mailbox, for which the threads 11 and 12 wait, of the priorities 30 and 20.
fn two_wait(alloc: Global) -> Result<Mailboxes, AllocError> {
    let mut mailboxes = Mailboxes::new(alloc)?;
    let _ = mailboxes.create(WAITERS_BY_PRIORITY, 0);
    mailboxes.wait(1, 11, 30, 0x100);
    mailboxes.wait(1, 12, 20, 0x200);
    Ok(mailboxes)
}

#[test]
fn messages(rt: HostRuntime) -> Result<(), Fail> {
    let mut mailboxes = Mailboxes::new(rt.alloc())?;
    let rows = [
        (Call::Create(MESSAGES_BY_PRIORITY), 1),
        (Call::Create(2), -401),
        (Call::Put(1, 0x100, 5), 0),
        (Call::Put(1, 0x200, 3), 0),
        (Call::Put(1, 0x300, 3), 0),
        (Call::Count(1), 3),
        (Call::Next(1), 0x200),
        (Call::Take(1), 0x200),
        (Call::Take(1), 0x300),
        (Call::Take(1), 0x100),
        (Call::Take(1), -424),
        (Call::Next(1), -1),
        (Call::Create(0), 2),
        (Call::Put(2, 0x100, 5), 0),
        (Call::Put(2, 0x200, 3), 0),
        (Call::Take(2), 0x100),
        (Call::Take(2), 0x200),
        (Call::Put(3, 0x100, 0), -410),
        (Call::Take(3), -410),
        (Call::Delete(3), -410),
    ];
    assert_eq!(rt; wrong_row(&mut mailboxes, &rows), None);
    let known = Mailbox { attr: 0, option: 0 };
    assert_eq!(rt; mailboxes.get(2), Some(known));
    Ok(())
}

#[test]
fn room(rt: HostRuntime) -> Result<(), Fail> {
    let mut mailboxes = Mailboxes::new(rt.alloc())?;
    let rows = [(Call::Create(0), 1), (Call::Create(0), 2)];
    assert_eq!(rt; wrong_row(&mut mailboxes, &rows), None);
    for place in 0..MOST_MESSAGES {
        let id = if place % 2 == 0 { 1 } else { 2 };
        assert!(rt; mailboxes.has_room());
        assert_eq!(rt; mailboxes.put(id, 0x100, 0).0, 0);
    }
    assert!(rt; !mailboxes.has_room());
    let rows = [
        (Call::Put(1, 0x100, 0), -400),
        (Call::Count(2), 2048),
        (Call::Delete(2), 0),
        (Call::Count(2), 0),
        (Call::Put(1, 0x100, 0), 0),
        (Call::Count(1), 2049),
    ];
    assert_eq!(rt; wrong_row(&mut mailboxes, &rows), None);
    Ok(())
}

#[test]
fn waiters(rt: HostRuntime) -> Result<(), Fail> {
    let mut mailboxes = two_wait(rt.alloc())?;
    assert_eq!(rt; mailboxes.waiters(1), 2);
    let first = Waiter {
        thread: 12,
        wants: 0x200,
    };
    assert_eq!(rt; mailboxes.waiter(1), Ok(Some(first)));
    assert_eq!(rt; mailboxes.waiter(2), Err(Code::UNKNOWN_MAILBOX));
    assert_eq!(rt; mailboxes.pop_waiter(1), Some(11));
    assert_eq!(rt; mailboxes.waiter(1), Ok(None));
    let mut mailboxes = two_wait(rt.alloc())?;
    mailboxes.requeue(1, 11, 10);
    mailboxes.drop_waiter(1, 12);
    assert_eq!(rt; mailboxes.pop_waiter(1), Some(11));
    assert_eq!(rt; mailboxes.pop_waiter(1), None);
    Ok(())
}

/// Makes what is known of a mailbox.
fn with_attribute(attr: u32) -> Mailbox {
    Mailbox { attr, option: 7 }
}

#[test]
fn mailboxes_are_put_back(rt: HostRuntime) -> Result<(), Fail> {
    let mut mailboxes = Mailboxes::new(rt.alloc())?;
    let rows = [
        (2, 2, false),
        (2, 0, true),
        (2, 0, false),
        (5, MESSAGES_BY_PRIORITY, true),
        (LAST_ID + 1, 0, false),
    ];
    for (id, attr, put) in rows {
        assert_eq!(rt; mailboxes.put_back(id, with_attribute(attr)), put);
    }
    let rows = [
        (0, Some((2, with_attribute(0)))),
        (1, Some((5, with_attribute(MESSAGES_BY_PRIORITY)))),
        (2, None),
    ];
    for (place, mailbox) in rows {
        assert_eq!(rt; mailboxes.nth(place), mailbox);
    }
    assert_eq!(rt; mailboxes.len(), 2);
    assert_eq!(rt; mailboxes.next_id(), 6);
    assert!(rt; !mailboxes.put_next(5));
    assert!(rt; mailboxes.put_next(9));
    assert_eq!(rt; mailboxes.next_id(), 9);
    Ok(())
}

#[test]
fn waiters_are_put_back(rt: HostRuntime) -> Result<(), Fail> {
    let mut mailboxes = Mailboxes::new(rt.alloc())?;
    assert!(rt; mailboxes.put_back(3, with_attribute(0)));
    for (id, thread, put) in [(3, 12, true), (1, 13, false), (3, 11, true)] {
        assert_eq!(rt; mailboxes.put_waiter(id, thread, 20, 0x100), put);
    }
    assert!(rt; mailboxes.walk(1).is_none());
    if let Some(mut walk) = mailboxes.walk(3) {
        for thread in [Some(12), Some(11), None] {
            let next = walk.next();
            assert_eq!(rt; next.map(|queued| queued.item.thread), thread);
        }
    }
    Ok(())
}

#[test]
fn messages_are_put_back(rt: HostRuntime) -> Result<(), Fail> {
    let mut mailboxes = Mailboxes::new(rt.alloc())?;
    assert!(rt; mailboxes.put_back(1, with_attribute(0)));
    assert!(rt; mailboxes.put_back(2, with_attribute(MESSAGES_BY_PRIORITY)));
    let rows = [
        (1, 0x100, 5, false),
        (1, 0x100, 0, true),
        (2, 0x200, 5, true),
        (2, 0x300, 3, true),
        (3, 0x400, 0, false),
    ];
    for (id, message, priority, put) in rows {
        assert_eq!(rt; mailboxes.put_message(id, message, priority), put);
    }
    assert!(rt; mailboxes.walk_messages(3).is_none());
    if let Some(mut walk) = mailboxes.walk_messages(2) {
        for message in [Some((0x200, 5)), Some((0x300, 3)), None] {
            let next = walk.next();
            assert_eq!(rt; next.map(|queued| (queued.item, queued.priority)), message);
        }
    }
    Ok(())
}
