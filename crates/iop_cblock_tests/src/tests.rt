ghost use Rattle.std.specs.Prelude.{◌≡◌, ◌<◌, length};
ghost use Rattle.iop_cblock_tests.specs.declared.tests.TheConstants.{NODES, LISTS};

use iop_cblock::Arena;
use std::alloc::{AllocError, Global};
use std::marker::Model;
use std::test::Fail;

const NODES: u32 = 6;

const LISTS: u32 = 2;

/// What a row of the table does.
#[derive(Drop)]
enum Change {
    PushBack { list: u32, node: u32 },
    PushFront { list: u32, node: u32 },
    InsertBefore { node: u32, before: u32 },
    Unlink { node: u32 },
}

/// Two lists, and six nodes that stand in them or in none.
#[derive(Drop)]
struct TwoLists {
    arena: Arena,
}

impl Model for TwoLists {
    ghost use Rattle.iop_cblock.specs.Lists.{Lists};

    ghost Value = { Lists };

    ghost view = { λ t. t.arena };

    ghost use Rattle.std.specs.Prelude.{◌≡◌, length};
    ghost use Rattle.iop_cblock_tests.specs.declared.tests.TheConstants.{NODES, LISTS};

    ghost invariant = { λ t. (t.arena.nodes ≡ NODES) × (length t.arena.lists ≡ LISTS) };
}

impl TwoLists {
    /// Makes the lists, which are empty.
    fn new(alloc: Global) -> Result<Self, AllocError> {
        let arena = Arena::new(alloc, NODES, LISTS)?;
        Ok(TwoLists { arena })
    }

    /// Lends the arena in which they stand.
    fn arena(&self) -> &Arena
        ensures nodes { result.now.nodes ≡ NODES }
        ensures lists { length result.now.lists ≡ LISTS }
    {
        &self.arena
    }

    /// Puts a node at an end of a list, if the list and the node are there and the node is free.
    fn push(&mut self, list: u32, node: u32, front: bool) {
        if list < LISTS && node < NODES && self.arena.list_of(node).is_none() {
            if front {
                self.arena.push_front(list, node);
            } else {
                self.arena.push_back(list, node);
            }
        }
    }

    /// Puts a node in front of another, if both are there and the one is free.
    fn insert(&mut self, node: u32, before: u32) {
        if node < NODES && before < NODES && self.arena.list_of(node).is_none() {
            self.arena.insert_before(node, before);
        }
    }

    /// Takes a node out of its list, if the node is there.
    fn unlink(&mut self, node: u32) {
        if node < NODES {
            self.arena.unlink(node);
        }
    }

    /// Makes the change of a row.
    fn apply(&mut self, change: Change) {
        match change {
            Change::PushBack { list, node } => self.push(list, node, false),
            Change::PushFront { list, node } => self.push(list, node, true),
            Change::InsertBefore { node, before } => self.insert(node, before),
            Change::Unlink { node } => self.unlink(node),
        }
    }
}

/// Reads the nodes of a list as the digits of a number, the first node first.
fn digits(arena: &Arena, list: u32) -> u64
    requires nodes { arena.now.nodes ≡ NODES }
    requires list { list < length arena.now.lists }
{
    let mut digits = 0;
    let mut at = arena.first(list);
    for _ in 0..NODES {
        if let Some(node) = at {
            digits = next_digit(digits, node);
            at = arena.next(node);
        }
    }
    digits
}

/// Appends a digit to those of a number.
fn next_digit(digits: u64, node: u32) -> u64 {
    digits.wrapping_mul(10).wrapping_add(u64::from(node))
}

#[test]
fn lists_after_changes(rt: HostRuntime) -> Result<(), Fail> {
    let mut lists = TwoLists::new(rt.alloc())?;
    assert_eq!(rt; digits(lists.arena(), 0), 0);
    let rows = [
        (Change::PushBack { list: 0, node: 3 }, 3, 0),
        (Change::PushBack { list: 0, node: 4 }, 34, 0),
        (Change::PushFront { list: 0, node: 5 }, 534, 0),
        (Change::PushFront { list: 1, node: 1 }, 534, 1),
        (Change::InsertBefore { node: 2, before: 4 }, 5324, 1),
        (Change::InsertBefore { node: 0, before: 0 }, 5324, 1),
        (Change::Unlink { node: 5 }, 324, 1),
        (Change::InsertBefore { node: 5, before: 1 }, 324, 51),
        (Change::Unlink { node: 2 }, 34, 51),
        (Change::Unlink { node: 2 }, 34, 51),
        (Change::Unlink { node: 4 }, 3, 51),
        (Change::PushBack { list: 1, node: 2 }, 3, 512),
        (Change::Unlink { node: 3 }, 0, 512),
        (Change::PushBack { list: 0, node: 4 }, 4, 512),
    ];
    for (row, first, second) in rows {
        lists.apply(row);
        assert_eq!(rt; digits(lists.arena(), 0), first);
        assert_eq!(rt; digits(lists.arena(), 1), second);
    }
    Ok(())
}

#[test]
fn lists_of_nodes(rt: HostRuntime) -> Result<(), Fail> {
    let mut lists = TwoLists::new(rt.alloc())?;
    lists.apply(Change::PushBack { list: 1, node: 4 });
    lists.apply(Change::InsertBefore { node: 0, before: 4 });
    lists.apply(Change::PushFront { list: 0, node: 5 });
    assert_eq!(rt; lists.arena().list_of(4), Some(1));
    assert_eq!(rt; lists.arena().list_of(0), Some(1));
    assert_eq!(rt; lists.arena().list_of(5), Some(0));
    assert_eq!(rt; lists.arena().list_of(1), None);
    assert_eq!(rt; lists.arena().first(1), Some(0));
    assert_eq!(rt; lists.arena().next(0), Some(4));
    assert_eq!(rt; lists.arena().next(4), None);
    assert_eq!(rt; lists.arena().next(1), None);
    lists.apply(Change::Unlink { node: 4 });
    assert_eq!(rt; lists.arena().list_of(4), None);
    assert_eq!(rt; lists.arena().next(0), None);
    Ok(())
}
