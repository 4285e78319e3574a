//! Numbers in bytes, and signed numbers.

ghost use Rattle.std.specs.Prelude.{◌≡◌, ◌+◌, ◌<◌, ◌≤◌, length};
ghost use Rattle.iop_base.specs.Numbers.{half_at, word_at, sign_extended, high_half};

use byteorder::{ByteOrder, LittleEndian};

/// The half whose bytes stand at a place, the lowest first.
#[tactic(auto, unfolding(crate::specs::Numbers::half_at))]
pub fn half_at(bytes: &[u8], place: usize) -> u16
    requires { place + 2 ≤ length bytes.now }
    ensures { result ≡ half_at bytes.now place }
{
    LittleEndian::read_u16(&bytes[place..])
}

/// The word whose bytes stand at a place, the lowest first.
#[tactic(auto, unfolding(crate::specs::Numbers::word_at))]
pub fn word_at(bytes: &[u8], place: usize) -> u32
    requires { place + 4 ≤ length bytes.now }
    ensures { result ≡ word_at bytes.now place }
{
    LittleEndian::read_u32(&bytes[place..])
}

/// A signed number of so many bits as a word.
pub fn sign_extended(bits: u32, number: u32) -> u32
    requires some { 0 < bits }
    requires below { bits < 32 }
    ensures { result ≡ sign_extended bits number }
{
    if number < 1 << (bits - 1) {
        number
    } else {
        number.wrapping_sub(1 << bits)
    }
}

/// The high half that gives an address together with its low half, which counts as signed.
pub fn high_half(address: u32) -> u32
    ensures { result ≡ high_half address }
{
    address.wrapping_add(0x8000) / 0x1_0000
}
