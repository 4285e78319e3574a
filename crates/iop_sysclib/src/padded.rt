//! Bytes with zeros behind them.

ghost use Rattle.std.specs.Prelude.{◌≡◌, ◌+◌, ◌++◌, ◌<◌, ◌^◌, OnErr, replicate, true};
ghost use Rattle.iop_stubs.specs.Copying.{copied_bytes};
ghost use Rattle.iop_sysclib.specs.Outcomes.{is_open, writes, IsServed};

use iop_base::{GuestFault, Lines};
use iop_stubs::Guest;

/// The bytes of a range, and zeros behind them.
#[derive(Clone, Copy)]
pub(crate) struct Padded {
    /// Where the range begins.
    pub from: u32,
    /// How many bytes it has.
    pub len: u32,
    /// How many zeros stand behind them.
    pub zeros: u32,
}

impl Padded {
    /// Copies the bytes and the zeros to `to`, as one store, and gives an answer on. The range has
    /// no byte, or lies wholly in RAM.
    ///
    /// `Address` exactly where there is something to be stored, and it would not lie wholly in RAM.
    pub(crate) fn copy<L: Lines>(
        self,
        guest: &mut Guest,
        to: u32,
        answer: u32,
        now: u64,
        lines: &mut L,
    ) -> Result<u32, GuestFault>
        requires source { is_open guest.old.ram self.from self.len ≡ true }
        requires fits { self.len + self.zeros < 2 ^ 32 }
        ensures served { let bytes = copied_bytes guest.old self.from self.len
            ++ replicate self.zeros 0 in
            IsServed (writes guest.old.ram to bytes answer) now result guest.old guest.new
            (L.output lines.old) (L.output lines.new) }
        ensures untouched { OnErr result (lines.new ≡ lines.old) }
    {
        let whole = self.len + self.zeros;
        if whole == 0 {
            return Ok(answer);
        }
        if !guest.ram().contains(to, whole) {
            return Err(GuestFault::Address);
        }
        // Both ranges are parts of the one that was looked at; a `fill` of no byte may be refused,
        // which changes nothing.
        let _ = guest.copy(to, self.from, self.len, now, lines);
        let _ = guest.fill(to.wrapping_add(self.len), self.zeros, 0, now, lines);
        Ok(answer)
    }
}
