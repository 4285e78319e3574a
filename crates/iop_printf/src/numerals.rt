//! The digits of numbers.

ghost use Rattle.std.specs.Prelude.{◌≡◌, ◌<◌, ◌≤◌, length};
ghost use Rattle.std.specs.Fmt.{digits, digit_glyph};
ghost use Rattle.iop_printf.specs.Texts.{magnitude, digits_of};

use crate::notation::Notation;
use arrayvec::ArrayVec;
use iop_text::{append, append_hex};

/// How many bytes there is room for in the digits of a number.
const NUMERAL_ROOM: usize = 64;

/// The digits of a number.
pub(crate) type Numeral = ArrayVec<u8, NUMERAL_ROOM>;

/// The character of a digit.
fn digit_glyph(upper: bool, digit: u32) -> u8
    requires { digit < 16 }
    ensures { result ≡ digit_glyph upper digit }
{
    let digit = digit as u8;
    if digit < 10 {
        b'0' + digit
    } else if upper {
        b'A' + (digit - 10)
    } else {
        b'a' + (digit - 10)
    }
}

/// Text of the room of a numeral.
fn numeral(glyphs: &[u8]) -> Numeral
    requires { length glyphs.now ≤ NUMERAL_ROOM }
    ensures { result.items ≡ glyphs.now }
{
    let mut text = Numeral::new();
    append(&mut text, glyphs);
    text
}

/// The digits of a number in a base, at most 16.
fn digits(number: u32, base: u32, upper: bool) -> Numeral
    requires some { 0 < base }
    requires few { base ≤ 16 }
    ensures { result.items ≡ digits base upper number }
{
    let mut glyphs = [0; NUMERAL_ROOM];
    let mut left = number;
    let mut start = NUMERAL_ROOM;
    while start > 0 {
        start -= 1;
        glyphs[start] = digit_glyph(upper, left % base);
        left /= base;
        if left == 0 {
            return numeral(&glyphs[start..]);
        }
    }
    numeral(&glyphs[start..])
}

/// A word without its sign.
fn magnitude(number: u32) -> u32
    ensures { result ≡ magnitude number }
{
    number.cast_signed().unsigned_abs()
}

/// The digits of a word, without a sign.
#[tactic(auto, unfolding(crate::specs::Texts::digits_of))]
pub(crate) fn digits_of(notation: Notation, number: u32) -> Numeral
    ensures { result.items ≡ digits_of notation number }
{
    match notation {
        Notation::Signed => digits(magnitude(number), 10, false),
        Notation::Unsigned => digits(number, 10, false),
        Notation::Octal => digits(number, 8, false),
        Notation::LowerHex => digits(number, 16, false),
        Notation::UpperHex => digits(number, 16, true),
        Notation::Pointer => {
            let mut text = Numeral::new();
            append_hex(&mut text, number);
            text
        }
    }
}
