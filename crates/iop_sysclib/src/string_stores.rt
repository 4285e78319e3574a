//! The calls that store strings.

ghost use Rattle.std.specs.Prelude.{◌≡◌, OnErr};
ghost use Rattle.iop_sysclib.specs.Outcomes.{IsServed};
ghost use Rattle.iop_sysclib.specs.StringCalls.{strcpy, strcat, strncpy};

use crate::padded::Padded;
use crate::string_calls::string;
use iop_base::{GuestFault, Lines};
use iop_printf::string_at;
use iop_stubs::Guest;

/// Stores a string with a zero byte behind it at `to`, and answers `to`.
pub(crate) fn strcpy<L: Lines>(
    guest: &mut Guest,
    to: u32,
    from: u32,
    now: u64,
    lines: &mut L,
) -> Result<u32, GuestFault>
    ensures served { IsServed (strcpy guest.old.ram to from) now result guest.old guest.new
        (L.output lines.old) (L.output lines.new) }
    ensures untouched { OnErr result (lines.new ≡ lines.old) }
{
    let len = string(guest, from).len() as u32;
    let ended = Padded {
        from,
        len,
        zeros: 1,
    };
    ended.copy(guest, to, to, now, lines)
}

/// Stores a string with a zero byte behind it at the end of that at `to`, and answers `to`.
pub(crate) fn strcat<L: Lines>(
    guest: &mut Guest,
    to: u32,
    from: u32,
    now: u64,
    lines: &mut L,
) -> Result<u32, GuestFault>
    ensures served { IsServed (strcat guest.old.ram to from) now result guest.old guest.new
        (L.output lines.old) (L.output lines.new) }
    ensures untouched { OnErr result (lines.new ≡ lines.old) }
{
    let end = to.wrapping_add(string(guest, to).len() as u32);
    let len = string(guest, from).len() as u32;
    let ended = Padded {
        from,
        len,
        zeros: 1,
    };
    ended.copy(guest, end, to, now, lines)
}

/// Stores at `to` at most `len` bytes of a string, and zeros up to `len`, and answers `to`.
pub(crate) fn strncpy<L: Lines>(
    guest: &mut Guest,
    to: u32,
    from: u32,
    len: u32,
    now: u64,
    lines: &mut L,
) -> Result<u32, GuestFault>
    ensures served { IsServed (strncpy guest.old.ram to from len) now result guest.old guest.new
        (L.output lines.old) (L.output lines.new) }
    ensures untouched { OnErr result (lines.new ≡ lines.old) }
{
    let copied = string_at(guest.ram(), from, len).len() as u32;
    let filled = Padded {
        from,
        len: copied,
        zeros: len - copied,
    };
    filled.copy(guest, to, to, now, lines)
}
