//! The digits of numbers.

ghost use Rattle.std.specs.Prelude.{◌≡◌, ◌≤◌, IfSome, length, min, not, position};
ghost use Rattle.std.specs.Char.{digit_value, is_digit};
ghost use Rattle.std.specs.Str.Parse.{digits_value};
ghost use Rattle.iop_printf.specs.Conversions.{front, behind};
ghost use Rattle.iop_sysclib.specs.Numerals.{held_word};

use crate::base::{Base, GREATEST_BASE};

/// How far a signed word goes below 0, which is one more than it goes above 0.
const LIMIT: u64 = 0x8000_0000;

/// Tells whether a byte is a digit of a base.
pub(crate) fn is_digit(byte: u8, base: Base) -> bool
    ensures { result ≡ is_digit byte base }
{
    char::from(byte).is_digit(base.number())
}

/// Tells the value of a digit of the greatest base; that of every other byte is the base.
fn digit_value(byte: u8) -> u32
    ensures { result ≡ digit_value byte }
{
    char::from(byte)
        .to_digit(GREATEST_BASE)
        .unwrap_or(GREATEST_BASE)
}

/// Finds the first byte that is no digit of a base.
fn end_of_digits(bytes: &[u8], base: Base) -> Option<usize>
    ensures first { result ≡ position (λ b. not (is_digit b base)) bytes.now }
    ensures inside { IfSome result (λ end. end ≤ length bytes.now) }
{
    bytes.iter().position(|byte| !is_digit(*byte, base))
}

/// Splits bytes behind the digits of a base at their front.
pub(crate) fn split_digits(bytes: &[u8], base: Base) -> (&[u8], &[u8])
    ensures digits { result.0.now ≡ front (λ b. is_digit b base) bytes.now }
    ensures rest { result.1.now ≡ behind (λ b. is_digit b base) bytes.now }
    ensures inside { length result.1.now ≤ length bytes.now }
{
    bytes.split_at(end_of_digits(bytes, base).unwrap_or(bytes.len()))
}

/// Reads the number that digits write; a greater one than 2^31 counts as that.
fn magnitude(digits: &[u8], base: Base) -> u32
    ensures { result ≡ min LIMIT (digits_value base digits.now) }
{
    let mut value = 0;
    for digit in digits {
        let next = value * u64::from(base.number()) + u64::from(digit_value(*digit));
        value = next.min(LIMIT);
    }
    value as u32
}

/// Reads the number that a sign and digits write, held at -2^31 and 2^31 - 1, as a word.
pub(crate) fn signed_word(negative: bool, digits: &[u8], base: Base) -> u32
    ensures { result ≡ held_word negative (digits_value base digits.now) }
{
    let magnitude = magnitude(digits, base);
    if negative {
        magnitude.wrapping_neg()
    } else {
        magnitude.min((LIMIT - 1) as u32)
    }
}
