//! How the conversions of a format are read.

ghost use Rattle.std.specs.Prelude.{◌≡◌, ◌==◌, ◌≤◌, ◌<◌, IfSome, not, position, length, true};
ghost use Rattle.std.specs.Char.{is_ascii_digit};
ghost use Rattle.std.specs.List.{list_all, list_any};
ghost use Rattle.iop_printf.specs.Conversions.{is_flag, is_size, front, behind, value_of};
ghost use Rattle.iop_printf.specs.Conversions.{precision_at, behind_precision, letter_at, conversion_at};

use crate::LONGEST;
use crate::conversion::Conversion;
use crate::letter::Letter;

/// Tells whether a byte is a flag.
fn is_flag(byte: u8) -> bool
    ensures { result ≡ is_flag byte }
{
    byte == b'-' || byte == b'0'
}

/// Tells whether a byte is a size.
fn is_size(byte: u8) -> bool
    ensures { result ≡ is_size byte }
{
    byte == b'h' || byte == b'l'
}

/// The place of the first byte that is no flag.
fn end_of_flags(bytes: &[u8]) -> Option<usize>
    ensures first { result ≡ position (λ b. not (is_flag b)) bytes.now }
    ensures inside { IfSome result (λ end. end < length bytes.now) }
{
    bytes.iter().position(|byte| !is_flag(*byte))
}

/// The place of the first byte that is no digit.
fn end_of_digits(bytes: &[u8]) -> Option<usize>
    ensures first { result ≡ position (λ b. not (is_ascii_digit b)) bytes.now }
    ensures inside { IfSome result (λ end. end < length bytes.now) }
{
    bytes.iter().position(|byte| !byte.is_ascii_digit())
}

/// The place of the first byte that is no size.
fn end_of_sizes(bytes: &[u8]) -> Option<usize>
    ensures first { result ≡ position (λ b. not (is_size b)) bytes.now }
    ensures inside { IfSome result (λ end. end < length bytes.now) }
{
    bytes.iter().position(|byte| !is_size(*byte))
}

/// Tells whether a byte stands among others.
fn has(bytes: &[u8], wanted: u8) -> bool
    ensures { result ≡ list_any (λ b. b == wanted) bytes.now }
{
    bytes.contains(&wanted)
}

/// Splits bytes behind the flags at their front.
fn split_flags(bytes: &[u8]) -> (&[u8], &[u8])
    ensures flags { result.0.now ≡ front is_flag bytes.now }
    ensures rest { result.1.now ≡ behind is_flag bytes.now }
    ensures inside { length result.1.now ≤ length bytes.now }
{
    bytes.split_at(end_of_flags(bytes).unwrap_or(bytes.len()))
}

/// Splits bytes behind the digits at their front.
fn split_digits(bytes: &[u8]) -> (&[u8], &[u8])
    ensures digits { result.0.now ≡ front is_ascii_digit bytes.now }
    ensures all { list_all is_ascii_digit result.0.now ≡ true }
    ensures rest { result.1.now ≡ behind is_ascii_digit bytes.now }
    ensures inside { length result.1.now ≤ length bytes.now }
{
    bytes.split_at(end_of_digits(bytes).unwrap_or(bytes.len()))
}

/// What stands behind the sizes at the front.
fn behind_sizes(bytes: &[u8]) -> &[u8]
    ensures rest { result.now ≡ behind is_size bytes.now }
    ensures inside { length result.now ≤ length bytes.now }
{
    &bytes[end_of_sizes(bytes).unwrap_or(bytes.len())..]
}

/// The value of digits; a greater one than 4,096 counts as that.
fn value_of(digits: &[u8]) -> u32
    requires { list_all is_ascii_digit digits.now ≡ true }
    ensures { result ≡ value_of digits.now }
{
    let mut value = 0;
    for digit in digits {
        let next = value * 10 + u32::from(*digit - b'0');
        value = next.min(LONGEST as u32);
    }
    value
}

/// Reads a precision, and gives what stands behind it.
fn split_precision(bytes: &[u8]) -> (Option<u32>, &[u8])
    ensures precision { result.0 ≡ precision_at bytes.now }
    ensures rest { result.1.now ≡ behind_precision bytes.now }
    ensures inside { length result.1.now ≤ length bytes.now }
{
    match bytes.split_first() {
        Some((b'.', rest)) => {
            let (digits, rest) = split_digits(rest);
            (Some(value_of(digits)), rest)
        }
        _ => (None, bytes),
    }
}

/// The letter at the front of bytes. None where they end, or another byte stands there.
fn letter_at(bytes: &[u8]) -> Option<Letter>
    ensures { result ≡ letter_at bytes.now }
{
    Letter::of(*bytes.first()?)
}

/// Reads the conversion that begins a format, behind its `%`.
#[tactic(auto, unfolding(crate::specs::Conversions::conversion_at))]
pub(crate) fn conversion_at(bytes: &[u8]) -> Conversion
    ensures conversion { result ≡ conversion_at bytes.now }
    ensures inside { result.len ≤ length bytes.now }
{
    let (flags, rest) = split_flags(bytes);
    let (width, rest) = split_digits(rest);
    let (precision, rest) = split_precision(rest);
    let rest = behind_sizes(rest);
    Conversion {
        left: has(flags, b'-'),
        zeros: has(flags, b'0'),
        width: value_of(width),
        precision,
        letter: letter_at(rest),
        len: bytes.len() - rest.len().saturating_sub(1),
    }
}
