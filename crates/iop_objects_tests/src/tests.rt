use iop_base::{Code, LAST_ID};
use iop_objects::{MOST_OBJECTS, Objects, Waiter};
use iop_queues::Condition;
use std::alloc::{AllocError, Global};
use std::test::Fail;

/// It is the thread of this id.
#[derive(Drop)]
struct IsThread {
    id: u32,
}

impl Condition<Waiter<()>> for IsThread {
    ghost use Rattle.std.specs.Prelude.{◌==◌};

    ghost holds_for = { λ condition waiter. waiter.thread == condition.id };

    fn holds(&self, item: &Waiter<()>) -> bool {
        item.thread == self.id
    }
}

/// Makes an object for which the threads 1, 2 and 3 wait, in this order.
fn three_waiters(alloc: Global) -> Result<Objects<u32, ()>, AllocError> {
    let mut objects = Objects::new(alloc)?;
    let _ = objects.create(5);
    objects.wait(1, waiter(1), 30);
    objects.wait(1, waiter(2), 20);
    objects.wait(1, waiter(3), 20);
    Ok(objects)
}

/// Makes a waiter that asks for nothing.
fn waiter(thread: u32) -> Waiter<()> {
    Waiter { thread, wants: () }
}

/// Deletes an object if no thread waits for it, and tells whether it did.
fn delete(objects: &mut Objects<u32, ()>, id: u32) -> bool {
    let unused = objects.waiters(id) == 0;
    if unused {
        objects.delete(id);
    }
    unused
}

#[test]
fn order_of_waiters(rt: HostRuntime) -> Result<(), Fail> {
    let rows = [(true, [2, 3, 1]), (false, [1, 2, 3])];
    for (by_priority, threads) in rows {
        let mut objects = three_waiters(rt.alloc())?;
        for thread in threads {
            let next = objects.take_next(1, by_priority);
            assert_eq!(rt; next.map(|waiter| waiter.thread), Some(thread));
        }
        assert_eq!(rt; objects.take_next(1, by_priority), None);
    }
    Ok(())
}

#[test]
fn order_after_requeue(rt: HostRuntime) -> Result<(), Fail> {
    let rows = [
        (true, 2, 20, [3, 2, 1]),
        (true, 1, 20, [2, 3, 1]),
        (true, 1, 10, [1, 2, 3]),
        (false, 2, 40, [1, 2, 3]),
    ];
    for (by_priority, moved, priority, threads) in rows {
        let mut objects = three_waiters(rt.alloc())?;
        objects.requeue(1, by_priority, moved, priority);
        for thread in threads {
            let next = objects.take_next(1, by_priority);
            assert_eq!(rt; next.map(|waiter| waiter.thread), Some(thread));
        }
    }
    Ok(())
}

#[test]
fn waiters_taken_out(rt: HostRuntime) -> Result<(), Fail> {
    let mut objects = three_waiters(rt.alloc())?;
    let rows = [(3, Some(3), 2), (3, None, 2), (1, Some(1), 1)];
    for (id, thread, left) in rows {
        let taken = objects.take_where(1, &IsThread { id });
        assert_eq!(rt; taken.map(|waiter| waiter.thread), thread);
        assert_eq!(rt; objects.waiters(1), left);
    }
    objects.drop_waiter(1, 2);
    assert_eq!(rt; objects.waiters(1), 0);
    Ok(())
}

#[test]
fn ids_and_places(rt: HostRuntime) -> Result<(), Fail> {
    let mut objects = Objects::new(rt.alloc())?;
    for id in 1..=3 {
        assert_eq!(rt; objects.create(id + 10), Ok(id));
    }
    for _ in 3..MOST_OBJECTS {
        assert!(rt; objects.create(0).is_ok());
    }
    assert_eq!(rt; objects.create(0), Err(Code(-400)));
    assert!(rt; delete(&mut objects, 2));
    assert_eq!(rt; objects.create(7), Ok(256));
    objects.set_state(3, 8);
    let rows = [
        (1, Some(11)),
        (2, None),
        (3, Some(8)),
        (256, Some(7)),
        (257, None),
    ];
    for (id, state) in rows {
        assert_eq!(rt; objects.state(id), state);
    }
    Ok(())
}

#[test]
fn objects_are_put_back(rt: HostRuntime) -> Result<(), Fail> {
    let mut objects: Objects<u32, ()> = Objects::new(rt.alloc())?;
    let rows = [
        (0, false),
        (2, true),
        (2, false),
        (1, false),
        (7, true),
        (LAST_ID + 1, false),
    ];
    for (id, put) in rows {
        assert_eq!(rt; objects.put_back(id, id), put);
    }
    for (place, object) in [(0, Some((2, 2))), (1, Some((7, 7))), (2, None)] {
        assert_eq!(rt; objects.nth(place), object);
    }
    assert_eq!(rt; objects.len(), 2);
    assert_eq!(rt; objects.next_id(), 8);
    for (id, put) in [(7, false), (LAST_ID + 2, false), (LAST_ID + 1, true)] {
        assert_eq!(rt; objects.put_next(id), put);
    }
    assert_eq!(rt; objects.next_id(), LAST_ID + 1);
    Ok(())
}

#[test]
fn waiters_are_put_back(rt: HostRuntime) -> Result<(), Fail> {
    let mut objects = Objects::new(rt.alloc())?;
    let _ = objects.create(5);
    for (id, thread, put) in [(1, 4, true), (2, 5, false), (1, 6, true), (1, 3, true)] {
        assert_eq!(rt; objects.put_waiter(id, waiter(thread), 20), put);
    }
    assert!(rt; objects.walk(2).is_none());
    if let Some(mut walk) = objects.walk(1) {
        for thread in [Some(4), Some(6), Some(3), None] {
            let next = walk.next();
            assert_eq!(rt; next.map(|queued| queued.item.thread), thread);
        }
    }
    Ok(())
}
