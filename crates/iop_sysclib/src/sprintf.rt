//! The call that stores formatted text.

ghost use Rattle.std.specs.Prelude.{◌≡◌, OnErr};
ghost use Rattle.iop_sysclib.specs.Outcomes.{IsServed};
ghost use Rattle.iop_sysclib.specs.StringCalls.{sprintf};

use arrayvec::ArrayVec;
use iop_base::{GuestFault, Lines};
use iop_printf::format_regs;
use iop_stubs::Guest;

/// Stores the text of a format with a zero byte behind it at `to`, and answers the text's length.
/// The format's arguments are `registers`, and then the words from 16(`sp`) on.
pub(crate) fn sprintf<L: Lines>(
    guest: &mut Guest,
    to: u32,
    format: u32,
    registers: [u32; 2],
    sp: u32,
    now: u64,
    lines: &mut L,
) -> Result<u32, GuestFault>
    ensures served { IsServed (sprintf guest.old.ram to format registers sp) now result guest.old
        guest.new (L.output lines.old) (L.output lines.new) }
    ensures untouched { OnErr result (lines.new ≡ lines.old) }
{
    let mut text = ArrayVec::new();
    format_regs(guest.ram(), format, &registers, sp, &mut text);
    let len = text.len() as u32;
    if !guest.ram().contains(to, len + 1) {
        return Err(GuestFault::Address);
    }
    // Both ranges are parts of the one that was looked at, so that neither is refused.
    let _ = guest.store_bytes(to, &text, now, lines);
    let _ = guest.fill(to.wrapping_add(len), 1, 0, now, lines);
    Ok(len)
}
