//! Ranges of memory that are read and written.

ghost use Rattle.std.specs.Prelude.{◌≡◌, ◌≤◌, IfSome, OnErr, length, option_copied, replicate};
ghost use Rattle.iop_sysclib.specs.Outcomes.{bytes_at, writes, IsServed};

use iop_base::{GuestFault, Lines};
use iop_ram::Ram;
use iop_stubs::Guest;

/// Finds the bytes of a range. None exactly where it has a byte and is not wholly in RAM.
pub(crate) fn bytes_at(ram: &Ram, at: u32, len: u32) -> Option<&[u8]>
    ensures bytes { option_copied result ≡ bytes_at ram.now at len }
    ensures short { IfSome result (λ bytes. length bytes.now ≤ len) }
{
    if len == 0 {
        return Some(&[]);
    }
    ram.window(at, len)
}

/// Stores one byte at every place of a range, and gives an answer on. `Address` as `bytes_at` has
/// None.
pub(crate) fn fill<L: Lines>(
    guest: &mut Guest,
    at: u32,
    len: u32,
    byte: u8,
    answer: u32,
    now: u64,
    lines: &mut L,
) -> Result<u32, GuestFault>
    ensures served { IsServed (writes guest.old.ram at (replicate len byte) answer) now result
        guest.old guest.new (L.output lines.old) (L.output lines.new) }
    ensures untouched { OnErr result (lines.new ≡ lines.old) }
{
    if len == 0 {
        return Ok(answer);
    }
    match guest.fill(at, len, byte, now, lines) {
        Ok(()) => Ok(answer),
        Err(_) => Err(GuestFault::Address),
    }
}
