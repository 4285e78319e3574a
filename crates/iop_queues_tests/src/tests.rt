ghost use Rattle.std.specs.Prelude.{◌≡◌, ◌<◌, length};

use iop_queues::{Condition, Numbers, Queued, Queues};
use std::test::Fail;

const QUEUES: u32 = 3;

const ROOM: u32 = 4;

/// It is this item.
#[derive(Drop)]
struct Is {
    item: u32,
}

impl Condition<u32> for Is {
    ghost use Rattle.std.specs.Prelude.{◌==◌};

    ghost holds_for = { λ condition item. item == condition.item };

    fn holds(&self, item: &u32) -> bool {
        *item == self.item
    }
}

/// What a row of the table calls.
#[derive(Clone, Copy, Drop)]
enum Call {
    /// Puts an item of a priority.
    Push(u32, u8),
    /// Takes the best one.
    Best,
    /// Tells which is the best one.
    NextBest,
    /// Tells which came first.
    NextFirst,
    /// Takes the one that came first.
    First,
    /// Takes an item.
    Item(u32),
    /// Takes an item out, and tells how many are left.
    Remove(u32),
    /// Moves an item behind all others, with a priority, and tells how many there are.
    Last(u32, u8),
    /// Gives an item a priority, and tells how many there are.
    Priority(u32, u8),
    /// Tells which stands behind so many others.
    Behind(u32),
    /// Empties the queue, and tells how many items stand in all together.
    Clear,
}

/// Makes a call on a queue, and tells the item that it takes, or a number. None where there is no
/// such item, and where there is no room for one.
fn answer(queues: &mut Queues<u32, ROOM>, queue: u32, call: Call) -> Option<usize>
    requires { length queues.old ≡ QUEUES }
    ensures { length queues.new ≡ QUEUES }
{
    if queue >= QUEUES {
        return None;
    }
    match call {
        Call::Push(item, priority) => return put(queues, queue, Queued { priority, item }),
        Call::Best => return Some(queues.take(queue, true)?.item as usize),
        Call::NextBest => return Some(queues.peek(queue, true)?.item as usize),
        Call::NextFirst => return Some(queues.peek(queue, false)?.item as usize),
        Call::First => return Some(queues.take(queue, false)?.item as usize),
        Call::Item(item) => return Some(queues.take_where(queue, &Is { item })?.item as usize),
        Call::Behind(others) => return Some(behind(queues, queue, others)? as usize),
        Call::Remove(item) => queues.remove_where(queue, &Is { item }),
        Call::Last(item, priority) => queues.move_last(queue, &Is { item }, priority),
        Call::Priority(item, priority) => queues.set_priority(queue, &Is { item }, priority),
        Call::Clear => {
            queues.clear(queue);
            return Some(queues.len());
        }
    }
    Some(queues.count(queue))
}

/// Puts an item behind all others of a queue, where there is room, and tells how many stand in it.
fn put(queues: &mut Queues<u32, ROOM>, queue: u32, queued: Queued<u32>) -> Option<usize>
    requires queue { queue < QUEUES }
    requires count { length queues.old ≡ QUEUES }
    ensures { length queues.new ≡ QUEUES }
{
    if queues.len() >= ROOM as usize {
        return None;
    }
    queues.push(queue, queued);
    Some(queues.count(queue))
}

/// Finds the item that stands behind so many others of a queue.
fn behind(queues: &Queues<u32, ROOM>, queue: u32, others: u32) -> Option<u32>
    requires { queue < length queues.now }
{
    let mut walk = queues.walk(queue);
    for _ in 0..others {
        walk.next()?;
    }
    Some(walk.next()?.item)
}

#[test]
fn items_leave_in_order(rt: HostRuntime) -> Result<(), Fail> {
    let mut queues = Queues::new(rt.alloc(), QUEUES)?;
    let rows = [
        (0, Call::Best, None),
        (0, Call::Push(1, 30), Some(1)),
        (0, Call::Push(2, 20), Some(2)),
        (2, Call::Push(3, 5), Some(1)),
        (0, Call::Push(4, 20), Some(3)),
        (1, Call::Push(5, 1), None),
        (0, Call::Behind(0), Some(1)),
        (0, Call::Behind(2), Some(4)),
        (0, Call::Behind(3), None),
        (1, Call::Behind(0), None),
        (0, Call::Best, Some(2)),
        (0, Call::Priority(1, 20), Some(2)),
        (0, Call::Best, Some(1)),
        (0, Call::Push(1, 20), Some(2)),
        (0, Call::Last(4, 20), Some(2)),
        (0, Call::Best, Some(1)),
        (0, Call::Push(1, 20), Some(2)),
        (0, Call::Push(6, 9), Some(3)),
        (0, Call::First, Some(4)),
        (0, Call::Item(6), Some(6)),
        (0, Call::Item(6), None),
        (2, Call::Remove(1), Some(1)),
        (0, Call::Remove(1), Some(0)),
        (2, Call::Push(7, 5), Some(2)),
        (1, Call::Clear, Some(2)),
        (2, Call::First, Some(3)),
        (2, Call::Clear, Some(0)),
        (0, Call::NextBest, None),
        (0, Call::NextFirst, None),
        (0, Call::Push(8, 40), Some(1)),
        (0, Call::Push(9, 10), Some(2)),
        (0, Call::Push(8, 20), Some(3)),
        (0, Call::NextBest, Some(9)),
        (0, Call::NextFirst, Some(8)),
        (0, Call::Priority(8, 5), Some(3)),
        (0, Call::NextBest, Some(8)),
        (0, Call::Last(8, 10), Some(3)),
        (0, Call::NextBest, Some(9)),
        (0, Call::NextFirst, Some(9)),
        (0, Call::Item(8), Some(8)),
        (0, Call::Push(8, 30), Some(3)),
        (0, Call::Remove(8), Some(1)),
        (0, Call::First, Some(9)),
    ];
    for (queue, call, wanted) in rows {
        assert_eq!(rt; answer(&mut queues, queue, call), wanted);
    }
    Ok(())
}

#[test]
fn numbers_are_given_back(rt: HostRuntime) -> Result<(), Fail> {
    let mut numbers: Numbers<2> = Numbers::new(rt.alloc())?;
    if let Some(number) = numbers.take() {
        assert_eq!(rt; number, 1);
        numbers.give_back(number);
    }
    for wanted in [Some(1), Some(0), None] {
        assert_eq!(rt; numbers.take(), wanted);
    }
    Ok(())
}
