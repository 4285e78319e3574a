//! Addresses: the numbers of words, and the one where the first module is loaded.

ghost use Rattle.std.specs.Prelude.{◌^◌, ◌<◌, ◌≤◌};
ghost use Rattle.std.specs.Option.{SomeIff};
ghost use Rattle.std.specs.Str.Parse.{IsNumeral, digits_value};

/// The address where the first module is loaded.
pub(crate) const FIRST_BASE: u32 = 0x1_0000;

/// Reads the number of a word: decimal digits, or `0x` and hexadecimal digits. None where it is no
/// number below 2^32.
pub(crate) fn number_of(text: &str) -> Option<u32> {
    match text.strip_prefix("0x") {
        Some(digits) => digits_number(digits, 16),
        None => digits_number(text, 10),
    }
}

/// Reads digits of a base, with no sign before them. None where they are no number below 2^32.
fn digits_number(digits: &str, base: u32) -> Option<u32>
    requires low { 2 ≤ base }
    requires high { base ≤ 36 }
    ensures { let number = digits_value base digits.now in
        SomeIff result (IsNumeral base digits.now × (number < 2 ^ 32)) number }
{
    if digits.as_bytes().first() == Some(&b'+') {
        return None;
    }
    u32::from_str_radix(digits, base).ok()
}
