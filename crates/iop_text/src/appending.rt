//! What is appended to a text for which there is room.

ghost use Rattle.std.specs.Prelude.{◌≡◌, ◌+◌, ◌≤◌, ◌<◌, ◌++◌, length};
ghost use Rattle.arrayvec.specs.ArrayVec.{array_vec_len};
ghost use Rattle.iop_base.specs.Text.{hex, hex_digit, hex_digits};

use arrayvec::ArrayVec;
use itoa::{Buffer, Integer};

/// Appends bytes.
pub fn append<const ROOM: usize>(text: &mut ArrayVec<u8, ROOM>, bytes: &[u8])
    requires { array_vec_len text.old + length bytes.now ≤ ROOM }
    ensures bytes { text.new.items ≡ text.old.items ++ bytes.now }
    ensures long { array_vec_len text.new ≡ array_vec_len text.old + length bytes.now }
{
    let _ = text.try_extend_from_slice(bytes);
}

/// Appends a number in decimal, with a `-` before a negative one.
pub fn append_number<I: Integer, const ROOM: usize>(text: &mut ArrayVec<u8, ROOM>, number: I)
    requires { array_vec_len text.old + I.MAX_STR_LEN ≤ ROOM }
    ensures bytes { text.new.items ≡ text.old.items ++ I.text number }
    ensures short { array_vec_len text.new ≤ array_vec_len text.old + I.MAX_STR_LEN }
{
    let mut buffer = Buffer::new();
    append(text, buffer.format(number).as_bytes());
}

/// Appends the eight lower-case hexadecimal digits of a word.
#[tactic(auto, unfolding(iop_base::specs::Text::hex))]
pub fn append_hex<const ROOM: usize>(text: &mut ArrayVec<u8, ROOM>, word: u32)
    requires { array_vec_len text.old + 8 ≤ ROOM }
    ensures bytes { text.new.items ≡ text.old.items ++ hex word }
    ensures long { array_vec_len text.new ≡ array_vec_len text.old + 8 }
{
    append_hex_digits(text, word, 8);
}

/// Appends the last lower-case hexadecimal digits of a word: as many as `digits`, at most 8.
pub fn append_hex_digits<const ROOM: usize>(text: &mut ArrayVec<u8, ROOM>, word: u32, digits: u32)
    requires digits { digits ≤ 8 }
    requires room { array_vec_len text.old + digits ≤ ROOM }
    ensures bytes { text.new.items ≡ text.old.items ++ hex_digits digits word }
    ensures long { array_vec_len text.new ≡ array_vec_len text.old + digits }
{
    for place in 0..digits {
        text.push(digit_glyph((word >> (4 * (digits - 1 - place))) & 0xf));
    }
}

/// The character of a hexadecimal digit.
fn digit_glyph(digit: u32) -> u8
    requires { digit < 16 }
    ensures { result ≡ hex_digit digit }
{
    if digit < 10 {
        b'0' + digit as u8
    } else {
        b'a' + (digit - 10) as u8
    }
}
