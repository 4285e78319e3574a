//! The texts of conversions.

ghost use Rattle.std.specs.Prelude.{◌≡◌, ◌≤◌, ◌<◌, ◌^◌, ◌++◌, length, take, replicate};
ghost use Rattle.iop_printf.specs.Conversions.{percent, zero_digit};
ghost use Rattle.iop_printf.specs.Texts.{sign_of, digits_of, least_digits, number_text};
ghost use Rattle.iop_printf.specs.Texts.{padded, string_or_null, string_front, letter_text};
ghost use Rattle.iop_printf.specs.Texts.{conversion_text};

use crate::LONGEST;
use crate::conversion::Conversion;
use crate::letter::Letter;
use crate::notation::Notation;
use crate::numerals::digits_of;
use crate::strings::string_or_null;
use arrayvec::ArrayVec;
use iop_ram::Ram;
use iop_text::append;

/// A formatted text as far as it is written.
pub(crate) type Text = ArrayVec<u8, LONGEST>;

/// Appends bytes; the text is cut at 4,096.
pub(crate) fn append_cut(text: &mut Text, bytes: &[u8])
    ensures { text.new.items ≡ take LONGEST (text.old.items ++ bytes.now) }
{
    let len = bytes.len().min(text.remaining_capacity());
    append(text, &bytes[..len]);
}

/// Appends a byte so many times; the text is cut at 4,096.
fn fill(text: &mut Text, byte: u8, count: usize)
    ensures { text.new.items ≡ take LONGEST (text.old.items ++ replicate count byte) }
{
    let len = count.min(text.remaining_capacity());
    for _ in 0..len {
        text.push(byte);
    }
}

/// Appends a text with so many zeros between its sign and its digits.
fn append_filled(text: &mut Text, sign: &[u8], zeros: u32, digits: &[u8])
    ensures { text.new.items
        ≡ take LONGEST (text.old.items ++ (sign.now ++ replicate zeros zero_digit ++ digits.now)) }
{
    append_cut(text, sign);
    fill(text, b'0', zeros as usize);
    append_cut(text, digits);
}

/// Appends a text with so many zeros between its sign and its digits, which spaces fill up to the
/// width of a conversion.
fn append_padded(text: &mut Text, conversion: &Conversion, sign: &[u8], zeros: u32, digits: &[u8])
    requires sign { length sign.now ≤ 1 }
    requires digits { length digits.now < 2 ^ 32 }
    ensures { text.new.items ≡ take LONGEST (text.old.items
        ++ padded conversion.now (sign.now ++ replicate zeros zero_digit ++ digits.now)) }
{
    let len = sign.len() + zeros as usize + digits.len();
    let padding = (conversion.width as usize).saturating_sub(len);
    if conversion.left {
        append_filled(text, sign, zeros, digits);
        fill(text, b' ', padding);
    } else {
        fill(text, b' ', padding);
        append_filled(text, sign, zeros, digits);
    }
}

/// The sign of a word: `-` before a negative number.
fn sign_of(notation: Notation, number: u32) -> &'static [u8]
    ensures sign { result.now ≡ sign_of notation number }
    ensures short { length result.now ≤ 1 }
{
    match notation {
        Notation::Signed if number >= 1 << 31 => b"-",
        _ => b"",
    }
}

/// How many digits a number behind a sign has at least.
fn least_digits(conversion: &Conversion, sign: &[u8]) -> u32
    requires { length sign.now ≤ 1 }
    ensures { result ≡ least_digits conversion.now sign.now }
{
    match conversion.precision {
        Some(precision) => precision,
        None if conversion.zeros && !conversion.left => {
            conversion.width.saturating_sub(sign.len() as u32)
        }
        None => 0,
    }
}

/// Appends a number as a conversion prints it.
fn append_number(text: &mut Text, conversion: &Conversion, notation: Notation, number: u32)
    ensures { text.new.items ≡ take LONGEST (text.old.items
        ++ padded conversion.now (number_text conversion.now (sign_of notation number)
        (digits_of notation number))) }
{
    let sign = sign_of(notation, number);
    let digits = digits_of(notation, number);
    let zeros = least_digits(conversion, sign).saturating_sub(digits.len() as u32);
    append_padded(text, conversion, sign, zeros, digits.as_slice());
}

/// Appends the string at an address as a conversion prints it: at most as many bytes as its
/// precision. Without one no more is read than can show or count for the width.
fn append_string(text: &mut Text, ram: &Ram, conversion: &Conversion, at: u32)
    ensures { let shown = string_front conversion.now.precision (string_or_null ram.now at) in
        text.new.items ≡ take LONGEST (text.old.items ++ padded conversion.now shown) }
{
    let shown = conversion.width.max(LONGEST as u32);
    let most = conversion.precision.unwrap_or(shown);
    append_padded(text, conversion, b"", 0, string_or_null(ram, at, most));
}

/// Appends what a letter prints of an argument.
fn append_letter(text: &mut Text, ram: &Ram, conversion: &Conversion, letter: Letter, argument: u32)
    ensures { text.new.items
        ≡ take LONGEST (text.old.items ++ letter_text ram.now conversion.now letter argument) }
{
    match letter {
        Letter::Number(notation) => append_number(text, conversion, notation, argument),
        Letter::Character => append_padded(text, conversion, b"", 0, &[(argument % 256) as u8]),
        Letter::Text => append_string(text, ram, conversion, argument),
        Letter::Percent => append_cut(text, b"%"),
    }
}

/// Appends the text of a conversion, of which these bytes were read behind its `%`.
#[tactic(auto, unfolding(crate::specs::Texts::conversion_text))]
pub(crate) fn append_conversion(
    text: &mut Text,
    ram: &Ram,
    conversion: &Conversion,
    read: &[u8],
    argument: u32,
)
    ensures { text.new.items ≡ take LONGEST (text.old.items
        ++ conversion_text ram.now conversion.now read.now argument) }
{
    match conversion.letter {
        Some(letter) => append_letter(text, ram, conversion, letter, argument),
        None => {
            append_cut(text, b"%");
            append_cut(text, read);
        }
    }
}
