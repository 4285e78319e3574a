//! Words, half words and names at places of RAM that are known to be good.

ghost use Rattle.std.specs.Prelude.{◌≡◌, ◌+◌, ◌%◌, ◌≤◌, length};
ghost use Rattle.iop_base.specs.Numbers.{word_at, half_at};
ghost use Rattle.iop_base.specs.Places.{IsRamSize};
ghost use Rattle.irx_tables.specs.Places.{name_at};

use iop_ram::Ram;

/// Reads the word at a physical place, a multiple of 4 with its four bytes in RAM.
#[tactic(auto, unfolding(iop_base::specs::Numbers::word_at))]
pub fn word(ram: &Ram, place: u32) -> u32
    requires aligned { place % 4 ≡ 0 }
    requires inside { place + 4 ≤ length ram.now }
    ensures value { result ≡ word_at ram.now place }
    ensures sized { IsRamSize (length ram.now) }
{
    ram.load32(place).unwrap()
}

/// Reads the half word at a place.
#[tactic(auto, unfolding(iop_base::specs::Numbers::half_at))]
pub(crate) fn half(ram: &Ram, place: u32) -> u16
    requires aligned { place % 2 ≡ 0 }
    requires inside { place + 2 ≤ length ram.now }
    ensures { result ≡ half_at ram.now place }
{
    ram.load16(place).unwrap()
}

/// Reads the eight bytes of a library's name at a place.
#[tactic(auto, unfolding(crate::specs::Places::name_at))]
pub(crate) fn name(ram: &Ram, place: u32) -> [u8; 8]
    requires { place + 8 ≤ length ram.now }
    ensures { result ≡ name_at ram.now place }
{
    let mut name = [0; 8];
    name.copy_from_slice(ram.window(place, 8).unwrap());
    name
}
