//! The words that instructions compute.

ghost use Rattle.iop_exec.specs.Arithmetic.{as_signed, fitting_word, signed_shift, is_less, is_negative, signed_product, signed_quotient, signed_remainder, quotient, remainder, splice, bits_below, left_load, right_load, left_store, right_store};
ghost use Rattle.std.specs.Prelude.{◌≡◌, ◌<◌, ◌≤◌, ◌%◌, ◌^◌, ◌+ℤ◌, ◌-ℤ◌};

/// Adds two signed words: `None` where the sum does not fit.
pub(crate) fn sum(a: u32, b: u32) -> Option<u32>
    ensures { result ≡ fitting_word (as_signed a +ℤ as_signed b) }
{
    let sum = a.cast_signed().checked_add(b.cast_signed())?;
    Some(sum.cast_unsigned())
}

/// Subtracts two signed words: `None` where the difference does not fit.
pub(crate) fn difference(a: u32, b: u32) -> Option<u32>
    ensures { result ≡ fitting_word (as_signed a -ℤ as_signed b) }
{
    let difference = a.cast_signed().checked_sub(b.cast_signed())?;
    Some(difference.cast_unsigned())
}

/// Shifts a word right by less than 32; copies of its sign come in.
pub(crate) fn signed_shift(word: u32, by: u32) -> u32
    requires { by < 32 }
    ensures { result ≡ signed_shift word by }
{
    (word.cast_signed() >> by).cast_unsigned()
}

/// Tests whether a word is less than another, as signed numbers.
pub(crate) fn is_less(a: u32, b: u32) -> bool
    ensures { result ≡ is_less a b }
{
    a.cast_signed() < b.cast_signed()
}

/// Tests whether a word is negative, as a signed number.
pub(crate) fn is_negative(word: u32) -> bool
    ensures { result ≡ is_negative word }
{
    word.cast_signed() < 0
}

/// Multiplies two signed words into the 64 bits of their product.
pub(crate) fn signed_product(a: u32, b: u32) -> u64
    ensures { result ≡ signed_product a b }
{
    (i64::from(a.cast_signed()) * i64::from(b.cast_signed())).cast_unsigned()
}

/// Divides two signed words; the quotient is cut toward 0. By 0 it is 1 where the first is
/// negative, else 0xFFFFFFFF.
pub(crate) fn signed_quotient(a: u32, b: u32) -> u32
    ensures { result ≡ signed_quotient a b }
{
    if b != 0 {
        a.cast_signed()
            .wrapping_div(b.cast_signed())
            .cast_unsigned()
    } else if is_negative(a) {
        1
    } else {
        0xFFFF_FFFF
    }
}

/// Takes the remainder of two signed words, with the sign of the first. By 0 it is the first.
pub(crate) fn signed_remainder(a: u32, b: u32) -> u32
    ensures { result ≡ signed_remainder a b }
{
    if b != 0 {
        a.cast_signed()
            .wrapping_rem(b.cast_signed())
            .cast_unsigned()
    } else {
        a
    }
}

/// Divides two words. By 0 the quotient is 0xFFFFFFFF.
pub(crate) fn quotient(a: u32, b: u32) -> u32
    ensures { result ≡ quotient a b }
{
    if b != 0 { a / b } else { 0xFFFF_FFFF }
}

/// Takes the remainder of two words. By 0 it is the first.
pub(crate) fn remainder(a: u32, b: u32) -> u32
    ensures { result ≡ remainder a b }
{
    if b != 0 { a % b } else { a }
}

/// Computes what `lwl` loads from the aligned word round a place: the register's upper bytes, over
/// the lower ones of its old value.
pub(crate) fn left_load(at: u32, word: u32, old: u32) -> u32
    ensures { result ≡ left_load at word old }
{
    let bits = 24 - bits_below(at);
    splice(bits, word << bits, old)
}

/// Computes what `lwr` loads from the aligned word round a place: the register's lower bytes, below
/// the upper ones of its old value.
pub(crate) fn right_load(at: u32, word: u32, old: u32) -> u32
    ensures { result ≡ right_load at word old }
{
    let bits = bits_below(at);
    splice(32 - bits, old, word >> bits)
}

/// Computes what `swl` stores: the aligned word round a place, with the upper bytes of a value as
/// its lower ones.
pub(crate) fn left_store(at: u32, value: u32, word: u32) -> u32
    ensures { result ≡ left_store at value word }
{
    let bits = bits_below(at);
    splice(bits + 8, word, value >> (24 - bits))
}

/// Computes what `swr` stores: the aligned word round a place, with the lower bytes of a value as
/// its upper ones.
pub(crate) fn right_store(at: u32, value: u32, word: u32) -> u32
    ensures { result ≡ right_store at value word }
{
    let bits = bits_below(at);
    splice(bits, value << bits, word)
}

/// Counts the bits of its aligned word that stand below a place: at most 24.
fn bits_below(at: u32) -> u32
    ensures bits { result ≡ bits_below at }
    ensures most { result ≤ 24 }
{
    8 * (at % 4)
}

/// Puts the bits of the first word from a bit on over those of the second below it. The bit is at
/// most 32.
fn splice(bit: u32, upper: u32, lower: u32) -> u32
    requires { bit ≤ 32 }
    ensures { result ≡ splice bit upper lower }
{
    upper - low_bits(upper, bit) + low_bits(lower, bit)
}

/// Keeps the lowest bits of a word, of which there are at most 32.
fn low_bits(word: u32, bits: u32) -> u32
    requires { bits ≤ 32 }
    ensures { result ≡ word % 2 ^ bits }
{
    (u64::from(word) % (1 << bits)) as u32
}
