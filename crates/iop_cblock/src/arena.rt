ghost use Rattle.std.specs.Prelude.{◌≡◌, ◌<◌, ◌+◌, length, IfOk, IfSome, None};
ghost use Rattle.iop_cblock.specs.Lists.{AreDisjoint, list_of, next_of, first_node, no_lists, pushed_back, pushed_front, inserted_before, unlinked};
ghost use Rattle.std.specs.List.{range_with_len};
ghost use Rattle.iop_cblock.specs.Links.{node_at, put_in, first_owners, CanPut};

use std::alloc::{AllocError, Global};
use std::marker::Model;

/// Nodes that stand in lists, each in at most one. A node is a number below that of the nodes, a
/// list one below that of the lists. No call but `new` takes memory, and each takes the same time
/// whatever the number of nodes and lists. This is the project's own design.
#[derive(Drop)]
pub struct Arena {
    nodes: u32,
    /// The place behind each place. A node is its own place. A list has a place behind those of the
    /// nodes, which stands behind its last node and in front of its first.
    next: Vec<usize>,
    /// The place in front of each place.
    previous: Vec<usize>,
    /// The list in which each place stands.
    owner: Vec<Option<u32>>,
}

impl Model for Arena {
    ghost use Rattle.iop_cblock.specs.Lists.{Lists};
    ghost use Rattle.iop_cblock.specs.Links.{AreSound, links_of, linked_lists};

    ghost Value = { Lists };

    ghost view = { λ a.
        linked_lists (links_of a.nodes a.next.items a.previous.items a.owner.items) };

    ghost invariant = { λ a.
        AreSound (links_of a.nodes a.next.items a.previous.items a.owner.items) };
}

impl Arena {
    /// Makes empty lists, and nodes that are in none. It takes all the memory that the calls will
    /// need; `AllocError` where the host has less.
    pub fn new(alloc: Global, nodes: u32, lists: u32) -> Result<Self, AllocError>
        ensures lists { IfOk result (λ arena. arena ≡ no_lists nodes lists) }
        ensures disjoint { IfOk result AreDisjoint }
    {
        let count = nodes as usize + lists as usize;
        let next = places(alloc, count)?;
        let previous = places(alloc, count)?;
        let owner = owners(alloc, nodes, lists)?;
        Ok(Arena {
            nodes,
            next,
            previous,
            owner,
        })
    }

    /// Puts a node, which is in no list, behind all others of a list.
    pub fn push_back(&mut self, list: u32, node: u32)
        requires list { list < length self.old.lists }
        requires node { node < self.old.nodes }
        requires free { list_of node self.old ≡ None }
        ensures lists { self.new ≡ pushed_back list node self.old }
        ensures disjoint { AreDisjoint self.new }
    {
        let end = self.nodes as usize + list as usize;
        self.put(list, node, end);
    }

    /// Puts a node, which is in no list, in front of all others of a list.
    pub fn push_front(&mut self, list: u32, node: u32)
        requires list { list < length self.old.lists }
        requires node { node < self.old.nodes }
        requires free { list_of node self.old ≡ None }
        ensures lists { self.new ≡ pushed_front list node self.old }
        ensures disjoint { AreDisjoint self.new }
    {
        let first = self.next[self.nodes as usize + list as usize];
        self.put(list, node, first);
    }

    /// Puts a node, which is in no list, in front of `before`. Where that one is in no list,
    /// nothing changes.
    pub fn insert_before(&mut self, node: u32, before: u32)
        requires node { node < self.old.nodes }
        requires free { list_of node self.old ≡ None }
        requires before { before < self.old.nodes }
        ensures lists { self.new ≡ inserted_before node before self.old }
        ensures free { list_of before self.old ≡ None → self.new ≡ self.old }
        ensures disjoint { AreDisjoint self.new }
    {
        if let Some(list) = self.owner[before as usize] {
            self.put(list, node, before as usize);
        }
    }

    /// Puts a node, which is in no list, in front of a place in the ring of a list.
    fn put(&mut self, list: u32, node: u32, place: usize)
        requires { CanPut self.old list node place }
        ensures lists { self.new ≡ put_in list node place self.old }
        ensures disjoint { AreDisjoint self.new }
    {
        let at = node as usize;
        let before = self.previous[place];
        self.next[before] = at;
        self.next[at] = place;
        self.previous[place] = at;
        self.previous[at] = before;
        self.owner[at] = Some(list);
    }

    /// Takes a node out of its list. Where it is in none, nothing changes.
    pub fn unlink(&mut self, node: u32)
        requires { node < self.old.nodes }
        ensures lists { self.new ≡ unlinked node self.old }
        ensures free { list_of node self.old ≡ None → self.new ≡ self.old }
        ensures disjoint { AreDisjoint self.new }
    {
        let at = node as usize;
        if self.owner[at].is_some() {
            let before = self.previous[at];
            let behind = self.next[at];
            self.next[before] = behind;
            self.previous[behind] = before;
            self.owner[at] = None;
        }
    }

    /// Finds the first node of a list. None exactly where the list is empty.
    pub fn first(&self, list: u32) -> Option<u32>
        requires { list < length self.now.lists }
        ensures node { result ≡ first_node list self.now }
        ensures below { IfSome result (λ node. node < self.now.nodes) }
    {
        node_at(self.nodes, self.next[self.nodes as usize + list as usize])
    }

    /// Finds the node behind this one in its list. None exactly where it is the last one, or in no
    /// list.
    pub fn next(&self, node: u32) -> Option<u32>
        requires { node < self.now.nodes }
        ensures node { result ≡ next_of node self.now }
        ensures below { IfSome result (λ node. node < self.now.nodes) }
    {
        match self.owner[node as usize] {
            Some(_) => node_at(self.nodes, self.next[node as usize]),
            None => None,
        }
    }

    /// Finds the list in which a node stands. None exactly where it is in no list.
    pub fn list_of(&self, node: u32) -> Option<u32>
        requires { node < self.now.nodes }
        ensures list { result ≡ list_of node self.now }
        ensures below { IfSome result (λ list. list < length self.now.lists) }
    {
        self.owner[node as usize]
    }
}

/// Finds the node of a place. None where it is the end of a list.
fn node_at(nodes: u32, place: usize) -> Option<u32>
    ensures place { result ≡ node_at nodes place }
    ensures below { IfSome result (λ node. node < nodes) }
{
    if place < nodes as usize {
        Some(place as u32)
    } else {
        None
    }
}

/// Makes a table of places, each of which names itself.
fn places(alloc: Global, count: usize) -> Result<Vec<usize>, AllocError>
    ensures { IfOk result (λ table. table.items ≡ range_with_len 0 count) }
{
    (0..count).collect(alloc)
}

/// Makes the table of lists in which places stand: no node in one, the end of each list in its own.
fn owners(alloc: Global, nodes: u32, lists: u32) -> Result<Vec<Option<u32>>, AllocError>
    ensures { IfOk result (λ table. table.items ≡ first_owners nodes lists) }
{
    let mut table = vec![in alloc; None; nodes as usize]?;
    for list in 0..lists {
        table.push(Some(list))?;
    }
    Ok(table)
}
