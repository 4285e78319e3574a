//! The call that reads a number.

ghost use Rattle.std.specs.Prelude.{◌≡◌, OnErr};
ghost use Rattle.iop_sysclib.specs.Numerals.{strtol};
ghost use Rattle.iop_sysclib.specs.Outcomes.{IsServed};

use crate::numerals::reading_of;
use crate::string_calls::string;
use iop_base::{GuestFault, Lines, Width};
use iop_stubs::Guest;

/// Reads the number of a base at an address, and answers it; the address behind its last digit is
/// stored at `end`, where that is not 0. Nothing is read with no such base, or without a digit.
///
/// `Address` exactly where `end` is not 0, and not a multiple of 4 or outside RAM.
#[tactic(auto, unfolding(crate::specs::Numerals::strtol))]
pub(crate) fn strtol<L: Lines>(
    guest: &mut Guest,
    at: u32,
    end: u32,
    base: u32,
    now: u64,
    lines: &mut L,
) -> Result<u32, GuestFault>
    ensures served { IsServed (strtol guest.old.ram at end base) now result guest.old guest.new
        (L.output lines.old) (L.output lines.new) }
    ensures untouched { OnErr result (lines.new ≡ lines.old) }
{
    let reading = reading_of(base, string(guest, at));
    if end == 0 {
        return Ok(reading.word);
    }
    let behind = at.wrapping_add(reading.len as u32);
    match guest.store(end, Width::Word, behind, now, lines) {
        Ok(()) => Ok(reading.word),
        Err(_) => Err(GuestFault::Address),
    }
}
