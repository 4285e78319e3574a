ghost use Rattle.std.specs.Prelude.{[]};

use iop_ready::{KernelReady, PlainReady, Priority, QueueReady, Ready, Slot};
use std::process::Abort;
use std::test::Fail;

/// Puts three threads into a list of none: first 3 and 4 of priority 20, and then 5 of priority 10,
/// in front of them.
fn add_three<R: Ready>(ready: &mut R)
    requires { R.stands ready.old [] }
{
    ready.add_last(Slot::new(3), Priority::new(20));
    ready.add_last(Slot::new(4), Priority::new(20));
    ready.add_first(Slot::new(5), Priority::new(10));
}

/// What a row of the table does.
#[derive(Drop)]
enum Change {
    Nothing,
    Remove(Slot),
    Rotate(Priority),
}

/// Compares the best thread of a list, in which none is yet, after each change.
fn tell_the_best<R: Ready>(rt: &impl Abort, ready: &mut R)
    requires { R.stands ready.old [] }
{
    add_three(ready);
    let rows = [
        (Change::Nothing, Some(5)),
        (Change::Remove(Slot::new(5)), Some(3)),
        (Change::Rotate(Priority::new(20)), Some(4)),
        (Change::Remove(Slot::new(5)), Some(4)),
        (Change::Rotate(Priority::new(10)), Some(4)),
        (Change::Remove(Slot::new(4)), Some(3)),
        (Change::Remove(Slot::new(3)), None),
        (Change::Rotate(Priority::new(20)), None),
    ];
    for (change, best) in rows {
        match change {
            Change::Nothing => {}
            Change::Remove(slot) => ready.remove(slot),
            Change::Rotate(priority) => ready.rotate(priority),
        }
        assert_eq!(rt; ready.best().map(|slot| slot.number()), best);
    }
}

/// Compares who is in a list, in which none is yet, and who stands at each place of a priority.
fn tell_the_places<R: Ready>(rt: &impl Abort, ready: &mut R)
    requires { R.stands ready.old [] }
{
    add_three(ready);
    for (slot, listed) in [(3, true), (4, true), (5, true), (6, false)] {
        assert_eq!(rt; ready.contains(Slot::new(slot)), listed);
    }
    let rows = [
        (Priority::new(20), 0, Some(3)),
        (Priority::new(20), 1, Some(4)),
        (Priority::new(20), 2, None),
        (Priority::new(10), 0, Some(5)),
        (Priority::new(10), 1, None),
        (Priority::new(11), 0, None),
    ];
    for (priority, place, slot) in rows {
        assert_eq!(rt; ready.at(priority, place).map(|slot| slot.number()), slot);
    }
    ready.rotate(Priority::new(20));
    assert_eq!(rt;
        ready.at(Priority::new(20), 1).map(|slot| slot.number()),
        Some(3)
    );
}

#[test]
fn places(rt: HostRuntime) -> Result<(), Fail> {
    tell_the_places(&rt, &mut PlainReady::new(rt.alloc())?);
    tell_the_places(&rt, &mut QueueReady::new(rt.alloc())?);
    Ok(())
}

#[test]
fn best_after_changes(rt: HostRuntime) -> Result<(), Fail> {
    tell_the_best(&rt, &mut PlainReady::new(rt.alloc())?);
    tell_the_best(&rt, &mut QueueReady::new(rt.alloc())?);
    Ok(())
}

#[test]
fn queue_shape(rt: HostRuntime) -> Result<(), Fail> {
    let mut ready = KernelReady::new(rt.alloc())?;
    assert_eq!(rt; ready.bits(), 0);
    assert_eq!(rt; ready.best(), None);
    add_three(&mut ready);
    assert_eq!(rt; ready.bits(), (1 << 20) + (1 << 10));
    assert_eq!(rt; ready.arena().first(19), Some(3));
    assert_eq!(rt; ready.arena().next(3), Some(4));
    assert_eq!(rt; ready.arena().first(9), Some(5));
    assert_eq!(rt; ready.arena().list_of(4), Some(19));
    assert_eq!(rt; ready.best().map(|slot| slot.number()), Some(5));
    ready.remove(Slot::new(5));
    ready.rotate(Priority::new(20));
    assert_eq!(rt; ready.bits(), 1 << 20);
    assert_eq!(rt; ready.arena().first(19), Some(4));
    assert_eq!(rt; ready.arena().list_of(5), None);
    Ok(())
}

#[test]
fn priorities_of_words(rt: HostRuntime) -> Result<(), Fail> {
    let rows = [(0, None), (1, Some(1)), (126, Some(126)), (127, None)];
    for (word, number) in rows {
        assert_eq!(rt;
            Priority::of(word).map(|priority| priority.number()),
            number
        );
    }
    Ok(())
}
