//! The words that entries leave at their sites.

ghost use Rattle.std.specs.Prelude.{◌≡◌, ◌+◌, ◌/◌, ◌%◌, ◌^◌, ◌<◌};
ghost use Rattle.iop_base.specs.Numbers.{wrapped, high_half};
ghost use Rattle.irx_reloc.specs.Relocating.{with_low_bits, moved_address};

use iop_base::{high_half, sign_extended};

/// How many low bits of a jump are its target.
const TARGET_BITS: u32 = 26;

/// How many low bits of an instruction are its half of an address.
const HALF_BITS: u32 = 16;

/// Gives a word other low bits.
fn with_low_bits(bits: u32, word: u32, value: u32) -> u32
    requires { bits < 32 }
    ensures { result ≡ with_low_bits bits word value }
{
    let low = 1 << bits;
    word / low * low + value % low
}

/// Moves a word that is an address by the base.
pub(crate) fn word_moved(word: u32, base: u32) -> u32
    ensures { result ≡ wrapped (word + base) }
{
    word.wrapping_add(base)
}

/// Moves the target of a jump by the base.
pub(crate) fn jump_moved(word: u32, base: u32) -> u32
    ensures { result ≡ with_low_bits 26 word (word % 2 ^ 26 + base / 4) }
{
    with_low_bits(TARGET_BITS, word, word.wrapping_add(base / 4))
}

/// Moves the high half of an address, which an instruction holds, by the base. `low` is the low
/// half of the address, which is signed.
pub(crate) fn high_moved(word: u32, low: u16, base: u32) -> u32
    ensures { result ≡ with_low_bits 16 word (high_half (moved_address (word % 2 ^ 16) low base)) }
{
    let address = (word % 0x1_0000 * 0x1_0000)
        .wrapping_add(sign_extended(16, low.into()))
        .wrapping_add(base);
    with_low_bits(HALF_BITS, word, high_half(address))
}

/// Moves the low half of an address, which an instruction holds, by the base.
pub(crate) fn low_moved(word: u32, base: u32) -> u32
    ensures { result ≡ with_low_bits 16 word (word % 2 ^ 16 + base) }
{
    with_low_bits(HALF_BITS, word, word.wrapping_add(base))
}
