ghost use Rattle.std.specs.Prelude.{◌≡◌, ℕ, ◌+◌, ◌==◌, ◌||◌, if◌then◌else◌, All, [], find, length, replicate, slice_index};
ghost use Rattle.std.specs.Prelude.{is_ok, is_some, IfOk, IfNone, MatchOption, OnErr};
ghost use Rattle.iop_base.specs.Numbers.{IsByte, width_bytes, bytes_of};
ghost use Rattle.iop_base.specs.Places.{IsRamSize};
ghost use Rattle.iop_base.specs.Output.{Gives};
ghost use Rattle.iop_stubs.specs.Stubs.{is_of, stands_at, access_place, range_place, after_store, store_lines};
ghost use Rattle.iop_stubs.specs.Binding.{after_bind, MayBind, IsSound};
ghost use Rattle.iop_stubs.specs.Layers.{base_of};
ghost use Rattle.iop_stubs.specs.Lending.{IsWrittenBy};
ghost use Rattle.iop_stubs.specs.Copying.{copy_place, copied_bytes};
ghost use Rattle.iop_stubs.specs.declared.live_stub.TheConstants.Stub.{MOST_LIVE};

use crate::live_stub::Stub;
use crate::live_stubs::LiveStubs;
use crate::stores::{find_range, move_bytes, put_bytes, store_number, store_word, write_into};
use iop_base::{Bad, Lines, Width};
use iop_ram::Ram;
use std::alloc::{AllocError, Global};
use std::marker::Model;

/// The memory of the guest: RAM, and the live stubs in the order of their places, no two of which
/// overlap. At each of them RAM has the jump to its target, and behind it the word of its index.
/// `laws` say what RAM is without the jumps.
///
/// An address is `Bad` as it is for `Ram`.
#[derive(Drop)]
pub struct Guest {
    pub(crate) ram: Ram,
    pub(crate) live: LiveStubs,
}

impl Model for Guest {
    ghost use Rattle.iop_stubs.specs.Stubs.{Memory};
    ghost use Rattle.iop_stubs.specs.Binding.{IsGuestMemory};

    ghost Value = { Memory };

    ghost view = { λ g. record { ram = g.ram; live = g.live.stubs } };

    ghost use Rattle.std.specs.Prelude.{◌≡◌, length};

    ghost invariant = { λ g. IsGuestMemory (record { ram = g.ram; live = g.live.stubs })
        × (g.live.ram ≡ length g.ram) };
}

impl Guest {
    /// Makes memory of `size` bytes, 2 MiB or 8 MiB, that is all zero, without a live stub. It
    /// takes all the host memory that will be needed.
    pub fn new(alloc: Global, size: u32) -> Result<Self, AllocError>
        requires { IsRamSize size }
        ensures sized { IfOk result (λ guest. length guest.ram ≡ size) }
        ensures zero { IfOk result (λ guest. (p : ℕ) → slice_index guest.ram p ≡ 0) }
        ensures none { IfOk result (λ guest. guest.live ≡ []) }
        ensures sound { IfOk result IsSound }
    {
        let ram = Ram::new(alloc, size)?;
        let live = LiveStubs::new(alloc, size)?;
        Ok(Guest { ram, live })
    }

    /// Makes memory that holds a copy of these bytes, 2 MiB or 8 MiB of them, without a live stub.
    /// It takes all the host memory that will be needed.
    pub fn of_bytes(alloc: Global, bytes: &[u8]) -> Result<Self, AllocError>
        requires { IsRamSize (length bytes.now) }
        ensures memory { IfOk result (λ guest. guest ≡ record { ram = bytes.now; live = [] }) }
        ensures sound { IfOk result IsSound }
    {
        let ram = Ram::of_bytes(alloc, bytes)?;
        let live = LiveStubs::new(alloc, bytes.len() as u32)?;
        Ok(Guest { ram, live })
    }

    /// Lends RAM as the guest reads it.
    pub fn ram(&self) -> &Ram
        ensures value { result.now ≡ self.now.ram }
        ensures bytes { All IsByte self.now.ram }
        ensures sound { IsSound self.now }
    {
        &self.ram
    }

    /// Stores the low bytes of a number. It ends each live stub of which it meets a byte, in the
    /// order of their places: a line of moment `t` names the stub, which lives no more. Its words
    /// are not restored.
    ///
    /// `Bad` exactly where the address is outside RAM or not a multiple of the width; nothing
    /// changes then, and there is no line.
    pub fn store<L: Lines>(
        &mut self,
        at: u32,
        width: Width,
        value: u32,
        t: u64,
        lines: &mut L,
    ) -> Result<(), Bad>
        ensures accepted { is_ok result ≡ is_some (access_place self.old at width) }
        ensures memory { self.new ≡ after_store self.old (access_place self.old at width)
            (bytes_of (width_bytes width) value) }
        ensures lines { Gives (L.output lines.old) (L.output lines.new)
            (store_lines t self.old (access_place self.old at width) (width_bytes width)) }
        ensures untouched { OnErr result (lines.new ≡ lines.old) }
        ensures was_sound { IsSound self.old }
        ensures sound { IsSound self.new }
    {
        let place = store_number(&mut self.ram, at, width, value)?;
        self.live.end_in(place, width.bytes() as u32, t, lines);
        Ok(())
    }

    /// Stores bytes from an address on, aligned or not. It ends each live stub of which it meets a
    /// byte, as `store` does. With no byte nothing changes.
    ///
    /// `Bad` exactly where their range is not wholly in RAM, also for no byte: the address itself
    /// names a place in RAM, and the end is at most its size. Nothing changes then, and there is no
    /// line.
    pub fn store_bytes<L: Lines>(
        &mut self,
        at: u32,
        bytes: &[u8],
        t: u64,
        lines: &mut L,
    ) -> Result<(), Bad>
        ensures accepted { is_ok result ≡ is_some (range_place self.old at (length bytes.now)) }
        ensures memory { self.new
            ≡ after_store self.old (range_place self.old at (length bytes.now)) bytes.now }
        ensures lines { Gives (L.output lines.old) (L.output lines.new)
            (store_lines t self.old (range_place self.old at (length bytes.now))
            (length bytes.now)) }
        ensures untouched { OnErr result (lines.new ≡ lines.old) }
        ensures was_sound { IsSound self.old }
        ensures sound { IsSound self.new }
    {
        let place = put_bytes(&mut self.ram, at, bytes)?;
        self.live.end_in(place, bytes.len() as u32, t, lines);
        Ok(())
    }

    /// Stores one byte at every place of a range of `len` bytes. It ends each live stub of which it
    /// meets a byte, as `store` does. With a `len` of 0 nothing changes.
    ///
    /// `Bad` exactly where the range is not wholly in RAM, also with a `len` of 0: the address
    /// itself names a place in RAM, and the end is at most its size. Nothing changes then, and
    /// there is no line.
    pub fn fill<L: Lines>(
        &mut self,
        at: u32,
        len: u32,
        byte: u8,
        t: u64,
        lines: &mut L,
    ) -> Result<(), Bad>
        ensures accepted { is_ok result ≡ is_some (range_place self.old at len) }
        ensures memory { self.new ≡ after_store self.old (range_place self.old at len)
            (replicate len byte) }
        ensures lines { Gives (L.output lines.old) (L.output lines.new)
            (store_lines t self.old (range_place self.old at len) len) }
        ensures untouched { OnErr result (lines.new ≡ lines.old) }
        ensures was_sound { IsSound self.old }
        ensures sound { IsSound self.new }
    {
        self.with_window(at, len, t, lines, |bytes| bytes.fill(byte))
            .ok_or(Bad)
    }

    /// Copies `len` bytes from one address on to another, as if all were read before any is
    /// written: the two ranges may overlap. It ends each live stub of which the range that is
    /// written has a byte, as `store` does. With a `len` of 0 nothing changes, wherever the
    /// addresses point.
    ///
    /// `Bad` exactly where `len` is not 0 and one of the two ranges is not wholly in RAM. Nothing
    /// changes then, and there is no line.
    pub fn copy<L: Lines>(
        &mut self,
        to: u32,
        from: u32,
        len: u32,
        t: u64,
        lines: &mut L,
    ) -> Result<(), Bad>
        ensures accepted { is_ok result ≡ (len == 0 || is_some (copy_place self.old to from len)) }
        ensures memory { self.new ≡ after_store self.old (copy_place self.old to from len)
            (copied_bytes self.old from len) }
        ensures lines { Gives (L.output lines.old) (L.output lines.new)
            (store_lines t self.old (copy_place self.old to from len) len) }
        ensures untouched { OnErr result (lines.new ≡ lines.old) }
        ensures was_sound { IsSound self.old }
        ensures sound { IsSound self.new }
    {
        let ram = &self.ram;
        if len == 0 {
            return Ok(());
        }
        let source = find_range(ram, from, len).ok_or(Bad)?;
        let place = find_range(ram, to, len).ok_or(Bad)?;
        self.live.end_in(place, len, t, lines);
        move_bytes(&mut self.ram, place, source, len);
        Ok(())
    }

    /// Lends the bytes of a range to `write`, which may write them; with what it leaves there this
    /// is one store. It ends each live stub of which the range has a byte, as `store` does, before
    /// the bytes are lent: no line depends on what is written. Answers what `write` answers.
    ///
    /// None exactly where the range is not wholly in RAM, also with a `len` of 0; `write` is not
    /// called then, nothing changes, and there is no line.
    pub fn with_window<L: Lines, R, F: FnOnce(&mut [u8]) -> R>(
        &mut self,
        at: u32,
        len: u32,
        t: u64,
        lines: &mut L,
        write: F,
    ) -> Option<R>
        requires { (bytes : _) → length bytes.now ≡ len → F.pre write bytes }
        ensures accepted { is_some result ≡ is_some (range_place self.old at len) }
        ensures memory { MatchOption result (self.new ≡ self.old) (λ answer.
            IsWrittenBy F.FnOnce write self.old self.new (range_place self.old at len) len answer) }
        ensures lines { Gives (L.output lines.old) (L.output lines.new)
            (store_lines t self.old (range_place self.old at len) len) }
        ensures untouched { IfNone result (lines.new ≡ lines.old) }
        ensures was_sound { IsSound self.old }
        ensures sound { IsSound self.new }
    {
        let place = find_range(&self.ram, at, len)?;
        self.live.end_in(place, len, t, lines);
        Some(write_into(self.ram.window_mut(at, len), write))
    }

    /// Tells how many more stubs can be bound: `Stub::MOST_LIVE` less the live ones.
    pub fn room(&self) -> u32
        ensures room { result + length self.now.live ≡ MOST_LIVE }
        ensures sound { IsSound self.now }
    {
        Stub::MOST_LIVE - self.live.len() as u32
    }

    /// Binds a stub: its first word becomes a jump to its target, and it is live. Memory without
    /// the jumps of live stubs stays as it was.
    ///
    /// There is room for it. Its place, a multiple of 4, has its 8 bytes in RAM, where `JUMP_BACK`
    /// and `STUB_INDEX` + its index stand, and no live stub overlaps it. Its target is a
    /// multiple of 4 below 2^28.
    pub fn bind(&mut self, stub: Stub)
        requires { MayBind self.old stub }
        ensures memory { self.new ≡ after_bind self.old stub }
        ensures base { base_of self.new ≡ base_of self.old }
        ensures was_sound { IsSound self.old }
        ensures sound { IsSound self.new }
    {
        self.live.insert(stub);
        store_word(&mut self.ram, stub.at, Stub::JUMP_WORD + stub.target / 4);
    }

    /// Lends the live stubs in the order of their places.
    pub fn stubs(&self) -> &[Stub]
        ensures stubs { result.now ≡ self.now.live }
        ensures sound { IsSound self.now }
    {
        self.live.stubs()
    }

    /// Finds the live stub at a physical place. None exactly where none begins there.
    pub fn at(&self, addr: u32) -> Option<Stub>
        ensures stub { result ≡ find (stands_at addr) self.now.live }
        ensures sound { IsSound self.now }
    {
        self.live.at(addr)
    }

    /// Tells whether a live stub is one of the library of this name and major version.
    pub fn bound_to(&self, name: [u8; 8], major: u8) -> bool
        ensures stub { result ≡ is_some (find (is_of name major) self.now.live) }
        ensures sound { IsSound self.now }
    {
        self.live.has_of(&name, major)
    }
}
