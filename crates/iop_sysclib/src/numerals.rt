//! The numbers that texts begin with.

ghost use Rattle.std.specs.Prelude.{◌≡◌, ◌≤◌, IfSome, length, not, position};
ghost use Rattle.std.specs.Str.Parse.{starts_with_minus, without_leading_sign};
ghost use Rattle.iop_printf.specs.Conversions.{behind};
ghost use Rattle.iop_sysclib.specs.Numerals.{is_space, has_hex_prefix, without_prefix, reading_of};

use crate::base::Base;
use crate::digits::{is_digit, signed_word, split_digits};
use crate::reading::Reading;

/// Tells whether a byte is white space: a space, or one from tab to carriage return.
fn is_space(byte: u8) -> bool
    ensures { result ≡ is_space byte }
{
    byte == b' ' || b'\t' <= byte && byte <= b'\r'
}

/// Finds the first byte that is no white space.
fn end_of_space(bytes: &[u8]) -> Option<usize>
    ensures first { result ≡ position (λ b. not (is_space b)) bytes.now }
    ensures inside { IfSome result (λ end. end ≤ length bytes.now) }
{
    bytes.iter().position(|byte| !is_space(*byte))
}

/// Skips the white space at the front.
fn behind_space(bytes: &[u8]) -> &[u8]
    ensures rest { result.now ≡ behind is_space bytes.now }
    ensures inside { length result.now ≤ length bytes.now }
{
    &bytes[end_of_space(bytes).unwrap_or(bytes.len())..]
}

/// Tells whether `-` stands in front.
fn starts_with_minus(bytes: &[u8]) -> bool
    ensures { result ≡ starts_with_minus bytes.now }
{
    matches!(bytes.first(), Some(b'-'))
}

/// Skips one `+` or `-` in front, where one stands there.
fn without_sign(bytes: &[u8]) -> &[u8]
    ensures rest { result.now ≡ without_leading_sign bytes.now }
    ensures inside { length result.now ≤ length bytes.now }
{
    match bytes.split_first() {
        Some((b'+' | b'-', rest)) => rest,
        _ => bytes,
    }
}

/// Tells whether `0x` or `0X` stands in front, and a digit of base 16 behind it.
pub(crate) fn has_hex_prefix(bytes: &[u8]) -> bool
    ensures { result ≡ has_hex_prefix bytes.now }
{
    bytes.len() > 2
        && bytes[0] == b'0'
        && (bytes[1] == b'x' || bytes[1] == b'X')
        && is_digit(bytes[2], Base::new(16))
}

/// Skips the prefix of an unsigned number of base 16.
fn without_prefix(base: Base, bytes: &[u8]) -> &[u8]
    ensures rest { result.now ≡ without_prefix base bytes.now }
    ensures inside { length result.now ≤ length bytes.now }
{
    if base.number() == 16 && has_hex_prefix(bytes) {
        &bytes[2..]
    } else {
        bytes
    }
}

/// Reads the number that a text begins with: white space, one sign, a prefix, and the longest run
/// of digits.
#[tactic(auto, unfolding(crate::specs::Numerals::reading_of))]
pub(crate) fn reading_of(base: u32, text: &[u8]) -> Reading
    ensures reading { result ≡ reading_of base text.now }
    ensures inside { result.len ≤ length text.now }
{
    let signed = behind_space(text);
    let unsigned = without_sign(signed);
    let Some(told) = Base::told(base, unsigned) else {
        return Reading::NOTHING;
    };
    let (digits, rest) = split_digits(without_prefix(told, unsigned), told);
    if digits.is_empty() {
        return Reading::NOTHING;
    }
    Reading {
        word: signed_word(starts_with_minus(signed), digits, told),
        len: text.len() - rest.len(),
    }
}
