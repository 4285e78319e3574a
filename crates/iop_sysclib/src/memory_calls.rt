//! The calls that work on ranges of memory.

ghost use Rattle.std.specs.Prelude.{◌≡◌, OnErr};
ghost use Rattle.std.specs.Option.{ok_or};
ghost use Rattle.iop_sysclib.specs.MemoryCalls.{memchr, memcmp, memcpy, memset, bzero};
ghost use Rattle.iop_sysclib.specs.Outcomes.{IsServed};

use crate::addresses::{address_or_zero, first_place};
use crate::comparing::compared;
use crate::ranges::{bytes_at, fill};
use iop_base::{GuestFault, Lines};
use iop_stubs::Guest;

/// Finds the first byte of a range that is the low byte of a word, and answers its address, or 0.
#[tactic(auto, unfolding(crate::specs::MemoryCalls::memchr))]
pub(crate) fn memchr(guest: &Guest, at: u32, wanted: u32, len: u32) -> Result<u32, GuestFault>
    ensures { result ≡ ok_or (memchr guest.now.ram at wanted len) GuestFault.Address }
{
    let Some(bytes) = bytes_at(guest.ram(), at, len) else {
        return Err(GuestFault::Address);
    };
    Ok(address_or_zero(at, first_place(bytes, wanted)))
}

/// Compares two ranges of one length, and answers -1, 0 or 1.
#[tactic(auto, unfolding(crate::specs::MemoryCalls::memcmp))]
pub(crate) fn memcmp(guest: &Guest, a: u32, b: u32, len: u32) -> Result<u32, GuestFault>
    ensures { result ≡ ok_or (memcmp guest.now.ram a b len) GuestFault.Address }
{
    let Some(first) = bytes_at(guest.ram(), a, len) else {
        return Err(GuestFault::Address);
    };
    let Some(second) = bytes_at(guest.ram(), b, len) else {
        return Err(GuestFault::Address);
    };
    Ok(compared(first, second))
}

/// Stores at `to` the bytes that a range at `from` held, and answers `to`.
#[tactic(auto, unfolding(crate::specs::MemoryCalls::memcpy))]
pub(crate) fn memcpy<L: Lines>(
    guest: &mut Guest,
    to: u32,
    from: u32,
    len: u32,
    now: u64,
    lines: &mut L,
) -> Result<u32, GuestFault>
    ensures served { IsServed (memcpy guest.old.ram to from len) now result guest.old guest.new
        (L.output lines.old) (L.output lines.new) }
    ensures untouched { OnErr result (lines.new ≡ lines.old) }
{
    match guest.copy(to, from, len, now, lines) {
        Ok(()) => Ok(to),
        Err(_) => Err(GuestFault::Address),
    }
}

/// Stores the low byte of a word at every place of a range, and answers the range's address.
#[tactic(auto, unfolding(crate::specs::MemoryCalls::memset))]
pub(crate) fn memset<L: Lines>(
    guest: &mut Guest,
    to: u32,
    value: u32,
    len: u32,
    now: u64,
    lines: &mut L,
) -> Result<u32, GuestFault>
    ensures served { IsServed (memset guest.old.ram to value len) now result guest.old guest.new
        (L.output lines.old) (L.output lines.new) }
    ensures untouched { OnErr result (lines.new ≡ lines.old) }
{
    fill(guest, to, len, (value % 256) as u8, to, now, lines)
}

/// Stores zeros at every place of a range, and answers 0.
#[tactic(auto, unfolding(crate::specs::MemoryCalls::bzero))]
pub(crate) fn bzero<L: Lines>(
    guest: &mut Guest,
    to: u32,
    len: u32,
    now: u64,
    lines: &mut L,
) -> Result<u32, GuestFault>
    ensures served { IsServed (bzero guest.old.ram to len) now result guest.old guest.new
        (L.output lines.old) (L.output lines.new) }
    ensures untouched { OnErr result (lines.new ≡ lines.old) }
{
    fill(guest, to, len, 0, 0, now, lines)
}
