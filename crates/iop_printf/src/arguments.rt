ghost use Rattle.std.specs.Prelude.{◌≡◌, ◌<◌, ◌^◌};
ghost use Rattle.iop_printf.specs.Arguments.{argument};

use iop_ram::Ram;
use std::marker::Model;

/// Where the arguments of a format are.
#[derive(Drop)]
pub(crate) struct Arguments<'a> {
    /// The first: `$a1`, `$a2` and `$a3`, or the last of these.
    pub registers: &'a [u32],
    /// The stack pointer: the others are the words from 16 bytes above it on.
    pub sp: u32,
}

impl<'a> Model for Arguments<'a> {
    ghost use Rattle.iop_printf.specs.Arguments.{Arguments as Places};

    ghost Value = { Places };

    ghost view = { λ a. record { registers = a.registers.now; sp = a.sp } };
}

impl<'a> Arguments<'a> {
    /// The argument of a number, from 0 on. A word that is misaligned or outside RAM reads 0.
    #[tactic(auto, unfolding(crate::specs::Arguments::argument))]
    pub(crate) fn word(&self, ram: &Ram, number: u32) -> u32
        requires { number < 2 ^ 24 }
        ensures { result ≡ argument ram.now self.now number }
    {
        let place = number as usize;
        let count = self.registers.len();
        if place < count {
            return self.registers[place];
        }
        let behind = (place - count) as u32;
        let at = self.sp.wrapping_add(16 + 4 * behind);
        ram.load32(at).unwrap_or(0)
    }
}
