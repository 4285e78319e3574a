ghost use Rattle.std.specs.Prelude.{◌≡◌, ◌+◌, ◌*◌, ◌%◌, ◌≤◌, ◌<◌, false, All, [], find, IfOk, is_some, length, option_copied, vec_capacity, vec_len};
ghost use Rattle.std.specs.List.{list_all, list_any, prefix_len};
ghost use Rattle.iop_base.specs.Output.{Gives};
ghost use Rattle.iop_stubs.specs.Stubs.{is_of, stands_at, stands_before, stands_from, meets, remaining_stubs, stub_lines};
ghost use Rattle.iop_stubs.specs.Binding.{with_stub, IsInOrder};
ghost use Rattle.iop_stubs.specs.Restoring.{ends_by, has_room_behind};
ghost use Rattle.iop_stubs.specs.Covering.{StandsIn, Uncovers, bytes_of_room};
ghost use Rattle.iop_stubs.specs.declared.word_set.TheConstants.{WORDS, WORD_BYTES};
ghost use Rattle.iop_stubs.specs.declared.live_stub.TheConstants.Stub.{SIZE, MOST_LIVE};

use crate::live_stub::Stub;
use crate::word_set::WordSet;
use iop_base::Lines;
use std::alloc::{AllocError, Global};
use std::marker::Model;

/// The live stubs in the order of their places, no two of which overlap.
#[derive(Drop)]
pub(crate) struct LiveStubs {
    stubs: Vec<Stub>,
    /// The words of RAM that they cover.
    covered: WordSet,
}

impl Model for LiveStubs {
    ghost use Rattle.std.specs.Prelude.{◌≤◌};
    ghost use Rattle.std.specs.Vec.{vec_capacity};
    ghost use Rattle.iop_stubs.specs.declared.live_stub.TheConstants.Stub.{MOST_LIVE};
    ghost use Rattle.iop_stubs.specs.Covering.{LiveTable, IsTable, bytes_of_room};

    ghost Value = { LiveTable };

    ghost view = { λ live. record {
      stubs = live.stubs.items;
      ram = bytes_of_room live.covered.bits.items;
    } };

    ghost invariant = { λ live. IsTable live.covered.bits.items live.stubs.items
        × (MOST_LIVE ≤ vec_capacity live.stubs) };
}

impl LiveStubs {
    /// Makes the list of no stub, with room for all that can be live, in so many bytes of RAM.
    pub(crate) fn new(alloc: Global, ram: u32) -> Result<Self, AllocError>
        requires { ram % (WORD_BYTES * WORDS) ≡ 0 }
        ensures { IfOk result (λ live. live ≡ record { stubs = []; ram = ram }) }
    {
        Ok(LiveStubs {
            stubs: Vec::with_capacity(alloc, Stub::MOST_LIVE as usize)?,
            covered: WordSet::new(alloc, ram)?,
        })
    }

    /// Counts them.
    pub(crate) fn len(&self) -> usize
        ensures { result ≡ length self.now.stubs }
    {
        self.stubs.len()
    }

    /// Lends them.
    pub(crate) fn stubs(&self) -> &[Stub]
        ensures { result.now ≡ self.now.stubs }
    {
        &self.stubs
    }

    /// Tells whether one more can be live, and all end at a place or before it.
    pub(crate) fn has_room_behind(&self, place: u32) -> bool
        ensures { result ≡ has_room_behind place self.now.stubs }
    {
        self.stubs.len() < Stub::MOST_LIVE as usize && end_by(&self.stubs, place)
    }

    /// Finds the stub at a place.
    pub(crate) fn at(&self, place: u32) -> Option<Stub>
        ensures { result ≡ find (stands_at place) self.now.stubs }
    {
        find_at(&self.stubs, place)
    }

    /// Tells whether there is one of the library of this name and major version.
    pub(crate) fn has_of(&self, name: &[u8; 8], major: u8) -> bool
        ensures { result ≡ is_some (find (is_of name.now major) self.now.stubs) }
    {
        find_of(&self.stubs, name, major).is_some()
    }

    /// Tells whether a range of RAM meets one. Within one word it looks at one bit, else it
    /// searches by halving.
    fn is_met(&self, place: u32, len: u32) -> bool
        requires { place + len ≤ self.now.ram }
        ensures { result ≡ list_any (meets place len) self.now.stubs }
    {
        if len > 0 && len <= 4 - place % 4 {
            self.covered.has(place / 4)
        } else {
            meets_one(&self.stubs, place, len)
        }
    }

    /// Takes out each that a range of RAM meets, and gives its line of moment `t`.
    pub(crate) fn end_in<L: Lines>(&mut self, place: u32, len: u32, t: u64, lines: &mut L)
        requires { place + len ≤ self.old.ram }
        ensures live { self.new.stubs ≡ remaining_stubs place len self.old.stubs }
        ensures ram { self.new.ram ≡ self.old.ram }
        ensures lines { Gives (L.output lines.old) (L.output lines.new)
            (stub_lines t place len self.old.stubs) }
    {
        if self.is_met(place, len) {
            uncover(&mut self.covered, &self.stubs, place, len);
            take_out(&mut self.stubs, place, len, t, lines);
        }
    }

    /// Puts one more among them. It overlaps none, and there is room for it.
    pub(crate) fn insert(&mut self, stub: Stub)
        requires room { length self.old.stubs < MOST_LIVE }
        requires stands { StandsIn self.old.ram stub }
        requires apart { All (λ other. meets stub.at SIZE other ≡ false) self.old.stubs }
        ensures live { self.new.stubs ≡ with_stub stub self.old.stubs }
        ensures ram { self.new.ram ≡ self.old.ram }
    {
        put_in_order(&mut self.stubs, stub);
        self.covered.insert(stub.at / 4);
        self.covered.insert(stub.at / 4 + 1);
    }
}

/// Counts the stubs that stand before a place.
fn count_before(stubs: &[Stub], place: u32) -> usize
    requires { IsInOrder stubs.now }
    ensures { result ≡ prefix_len (stands_before place) stubs.now }
{
    stubs.partition_point(|stub| stub.at < place)
}

/// Tells whether all stubs end at a place or before it. The last does, or there is one that does
/// not.
fn end_by(stubs: &[Stub], place: u32) -> bool
    requires { IsInOrder stubs.now }
    ensures { result ≡ list_all (ends_by place) stubs.now }
{
    match stubs.last() {
        Some(stub) => stub.ends_by(place),
        None => true,
    }
}

/// Finds the first stub that stands at a place or behind it.
fn first_from(stubs: &[Stub], place: u32) -> Option<&Stub>
    requires { IsInOrder stubs.now }
    ensures { option_copied result ≡ find (stands_from place) stubs.now }
{
    stubs.get(count_before(stubs, place))
}

/// Finds the stub at a place.
fn find_at(stubs: &[Stub], place: u32) -> Option<Stub>
    requires { IsInOrder stubs.now }
    ensures { result ≡ find (stands_at place) stubs.now }
{
    let stub = first_from(stubs, place)?;
    (stub.at == place).then_some(*stub)
}

/// Tells whether the range meets a stub. The first that ends behind the range's place is met, or
/// none is.
fn meets_one(stubs: &[Stub], place: u32, len: u32) -> bool
    requires { IsInOrder stubs.now }
    ensures { result ≡ list_any (meets place len) stubs.now }
{
    match first_from(stubs, place.saturating_sub(Stub::SIZE - 1)) {
        Some(stub) => stub.meets(place, len),
        None => false,
    }
}

/// Gives a line for each stub that the range meets.
fn give_lines<L: Lines>(stubs: &[Stub], place: u32, len: u32, t: u64, lines: &mut L)
    ensures { Gives (L.output lines.old) (L.output lines.new) (stub_lines t place len stubs.now) }
{
    for stub in stubs {
        stub.give_line(place, len, t, lines);
    }
}

/// Takes the words out of the set that are covered by a stub which the range meets.
fn uncover(covered: &mut WordSet, stubs: &[Stub], place: u32, len: u32)
    requires { All (StandsIn (bytes_of_room covered.old.bits.items)) stubs.now }
    ensures { Uncovers place len stubs.now covered.old.bits.items covered.new.bits.items }
{
    for stub in stubs {
        if stub.meets(place, len) {
            covered.remove(stub.at / 4);
            covered.remove(stub.at / 4 + 1);
        }
    }
}

/// Takes out each stub that the range meets, and gives its line.
fn take_out<L: Lines>(stubs: &mut Vec<Stub>, place: u32, len: u32, t: u64, lines: &mut L)
    ensures stubs { stubs.new.items ≡ remaining_stubs place len stubs.old.items }
    ensures room { vec_capacity stubs.new ≡ vec_capacity stubs.old }
    ensures lines { Gives (L.output lines.old) (L.output lines.new)
        (stub_lines t place len stubs.old.items) }
{
    give_lines(stubs, place, len, t, lines);
    stubs.retain(|stub| !stub.meets(place, len));
}

/// Puts a stub in its place among those that it does not overlap. There is room for it.
fn put_in_order(stubs: &mut Vec<Stub>, stub: Stub)
    requires room { vec_len stubs.old < vec_capacity stubs.old }
    requires order { IsInOrder stubs.old.items }
    requires apart { All (λ other. meets stub.at SIZE other ≡ false) stubs.old.items }
    ensures stubs { stubs.new.items ≡ with_stub stub stubs.old.items }
    ensures room { vec_capacity stubs.old ≤ vec_capacity stubs.new }
{
    let index = count_before(stubs, stub.at);
    let _ = stubs.insert(index, stub);
}

/// Finds the first stub of the library of this name and major version.
fn find_of<'a>(stubs: &'a [Stub], name: &[u8; 8], major: u8) -> Option<&'a Stub>
    ensures { option_copied result ≡ find (is_of name.now major) stubs.now }
{
    stubs.iter().find(|stub| stub.is_of(name, major))
}
