ghost use Rattle.std.specs.Prelude.{◌≡◌, ◌<◌, [], ◌∷◌, MatchOption, length};
ghost use Rattle.iop_cblock.specs.Lists.{list_at};
ghost use Rattle.iop_queues.specs.Walks.{item_at, items_of, CanBeWalked};

use crate::queued::Queued;
use iop_cblock::Arena;
use std::marker::Model;

/// The items of a queue that are still to come, in order. Each is read in constant time.
#[derive(Drop)]
pub struct Walk<'a, T> {
    nodes: &'a Arena,
    items: &'a [Option<Queued<T>>],
    /// The list of the queue's nodes.
    list: u32,
    /// The node of the next item.
    cursor: Option<u32>,
}

impl<'a, T> Model for Walk<'a, T> {
    ghost use Rattle.std.specs.Prelude.{List};
    ghost use Rattle.iop_queues.specs.Walks.{items_ahead, IsWalk};
    ghost use Rattle.iop_queues.specs.declared.queued.Queued.{Queued};

    ghost Value = { List (Queued T) };

    ghost view = { λ w. items_ahead w.items.now w.nodes.now w.list w.cursor };

    ghost invariant = { λ w. IsWalk w.items.now w.nodes.now w.list w.cursor };
}

impl<'a, T: Copy> Walk<'a, T> {
    /// Begins at the first node of a list.
    pub(crate) fn new(nodes: &'a Arena, items: &'a [Option<Queued<T>>], list: u32) -> Self
        requires { CanBeWalked items.now nodes.now list }
        ensures { result ≡ items_of items.now (list_at list nodes.now) }
    {
        let cursor = nodes.first(list);
        Walk {
            nodes,
            items,
            list,
            cursor,
        }
    }

    /// Reads the next item. None exactly where none is left.
    pub fn next(&mut self) -> Option<Queued<T>>
        ensures { MatchOption result
            ((self.old ≡ []) × (self.new ≡ []))
            (λ queued. self.old ≡ queued ∷ self.new) }
    {
        let node = self.cursor?;
        self.cursor = self.nodes.next(node);
        item(self.items, node)
    }
}

/// Reads the item of a node. None where it has none.
fn item<T: Copy>(items: &[Option<Queued<T>>], node: u32) -> Option<Queued<T>>
    requires { node < length items.now }
    ensures { result ≡ item_at items.now node }
{
    items[node as usize]
}
