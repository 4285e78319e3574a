//! Walks over the nodes of a list, each of which has an item.

ghost use Rattle.std.specs.Prelude.{◌≡◌, ◌<◌, IfSome, length};
ghost use Rattle.std.specs.List.{count_by};
ghost use Rattle.iop_cblock.specs.Lists.{list_at};
ghost use Rattle.iop_queues.specs.Queue.{chooses, chooses_best, chooses_best_where, chooses_next_where, chooses_where};
ghost use Rattle.iop_queues.specs.Walks.{items_of, priority_at, with_later, holds_at, Finds, CanBeWalked};

use crate::condition::Condition;
use crate::queued::Queued;
use iop_cblock::Arena;

/// Finds the node whose item is next in a list, by priority or by arrival.
pub(crate) fn next_node<T: Copy>(
    nodes: &Arena,
    items: &[Option<Queued<T>>],
    list: u32,
    by_priority: bool,
) -> Option<u32>
    requires { CanBeWalked items.now nodes.now list }
    ensures node { let own = list_at list nodes.now in
        Finds items.now own result (chooses by_priority (items_of items.now own)) }
    ensures below { IfSome result (λ node. node < nodes.now.nodes) }
{
    if by_priority {
        best_node(nodes, items, list)
    } else {
        nodes.first(list)
    }
}

/// Finds the first node of a list among those whose items have the least number.
fn best_node<T: Copy>(nodes: &Arena, items: &[Option<Queued<T>>], list: u32) -> Option<u32>
    requires { CanBeWalked items.now nodes.now list }
    ensures node { let own = list_at list nodes.now in
        Finds items.now own result (chooses_best (items_of items.now own)) }
    ensures below { IfSome result (λ node. node < nodes.now.nodes) }
{
    let mut best = None;
    let mut cursor = nodes.first(list);
    while let Some(node) = cursor {
        let priority = priority(items, node);
        best = Some(better(best, Ranked { node, priority }));
        cursor = nodes.next(node);
    }
    Some(best?.node)
}

/// A node, and the priority of its item.
#[derive(Clone, Copy, Drop)]
struct Ranked {
    node: u32,
    priority: u8,
}

/// Chooses between the best node so far and a later one.
fn better(best: Option<Ranked>, later: Ranked) -> Ranked
    ensures { result ≡ with_later best later }
{
    match best {
        Some(first) if first.priority <= later.priority => first,
        _ => later,
    }
}

/// Reads the priority of a node's item: the worst where it has none.
fn priority<T: Copy>(items: &[Option<Queued<T>>], node: u32) -> u8
    requires { node < length items.now }
    ensures { result ≡ priority_at items.now node }
{
    match items[node as usize] {
        Some(queued) => queued.priority,
        None => u8::MAX,
    }
}

/// Finds the first node of a list of whose item a condition holds.
pub(crate) fn node_where<T: Copy, C: Condition<T>>(
    nodes: &Arena,
    items: &[Option<Queued<T>>],
    list: u32,
    condition: &C,
) -> Option<u32>
    requires { CanBeWalked items.now nodes.now list }
    ensures node { let own = list_at list nodes.now in
        Finds items.now own result
        (chooses_where (C.holds_for condition.now) (items_of items.now own)) }
    ensures below { IfSome result (λ node. node < nodes.now.nodes) }
{
    let mut cursor = nodes.first(list);
    while let Some(node) = cursor {
        if holds_at(items, node, condition) {
            return Some(node);
        }
        cursor = nodes.next(node);
    }
    None
}

/// Finds the node whose item is next, by priority or by arrival, among those of a list of whose
/// item a condition holds.
pub(crate) fn next_node_where<T: Copy, C: Condition<T>>(
    nodes: &Arena,
    items: &[Option<Queued<T>>],
    list: u32,
    by_priority: bool,
    condition: &C,
) -> Option<u32>
    requires { CanBeWalked items.now nodes.now list }
    ensures node { let own = list_at list nodes.now in
        Finds items.now own result
        (chooses_next_where by_priority (C.holds_for condition.now) (items_of items.now own)) }
    ensures below { IfSome result (λ node. node < nodes.now.nodes) }
{
    if by_priority {
        best_node_where(nodes, items, list, condition)
    } else {
        node_where(nodes, items, list, condition)
    }
}

/// Finds the first node of a list among those whose items have the least number, of those of whose
/// item a condition holds.
fn best_node_where<T: Copy, C: Condition<T>>(
    nodes: &Arena,
    items: &[Option<Queued<T>>],
    list: u32,
    condition: &C,
) -> Option<u32>
    requires { CanBeWalked items.now nodes.now list }
    ensures node { let own = list_at list nodes.now in
        Finds items.now own result
        (chooses_best_where (C.holds_for condition.now) (items_of items.now own)) }
    ensures below { IfSome result (λ node. node < nodes.now.nodes) }
{
    let mut best = None;
    let mut cursor = nodes.first(list);
    while let Some(node) = cursor {
        if holds_at(items, node, condition) {
            let priority = priority(items, node);
            best = Some(better(best, Ranked { node, priority }));
        }
        cursor = nodes.next(node);
    }
    Some(best?.node)
}

/// Counts the nodes of a list of whose item a condition holds.
pub(crate) fn count_where<T: Copy, C: Condition<T>>(
    nodes: &Arena,
    items: &[Option<Queued<T>>],
    list: u32,
    condition: &C,
) -> usize
    requires { CanBeWalked items.now nodes.now list }
    ensures { result ≡ count_by (λ x. C.holds_for condition.now x.item)
        (items_of items.now (list_at list nodes.now)) }
{
    let mut count = 0;
    let mut cursor = nodes.first(list);
    while let Some(node) = cursor {
        if holds_at(items, node, condition) {
            count += 1;
        }
        cursor = nodes.next(node);
    }
    count
}

/// Says whether a condition holds of a node's item. It does not where the node has none.
fn holds_at<T: Copy, C: Condition<T>>(items: &[Option<Queued<T>>], node: u32, condition: &C) -> bool
    requires { node < length items.now }
    ensures { result ≡ holds_at (C.holds_for condition.now) items.now node }
{
    match items[node as usize] {
        Some(queued) => condition.holds(&queued.item),
        None => false,
    }
}
