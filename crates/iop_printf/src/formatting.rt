//! The text of a format.

ghost use Rattle.std.specs.Prelude.{◌≡◌, ◌+◌, ◌≤◌, ◌<◌, ◌^◌, ◌++◌, length, take};
ghost use Rattle.iop_printf.specs.Formatting.{part_at, text_from, format_text};

use crate::LONGEST;
use crate::arguments::Arguments;
use crate::reading::conversion_at;
use crate::strings::string_at;
use crate::texts::{Text, append_conversion, append_cut};
use arrayvec::ArrayVec;
use iop_ram::Ram;

/// Appends the text of what a byte of a format begins. Gives how many of the bytes behind it belong
/// to it, and how many arguments it takes.
#[tactic(auto, unfolding(crate::specs::Formatting::part_at))]
fn append_part(
    text: &mut Text,
    ram: &Ram,
    arguments: &Arguments,
    taken: u32,
    byte: u8,
    rest: &[u8],
) -> (usize, u32)
    requires { taken < 2 ^ 24 }
    ensures text { text.new.items ≡ take LONGEST (text.old.items
        ++ (part_at ram.now arguments.now taken byte rest.now).text) }
    ensures len { result.0 ≡ (part_at ram.now arguments.now taken byte rest.now).len }
    ensures arguments { result.1 ≡ (part_at ram.now arguments.now taken byte rest.now).arguments }
    ensures inside { result.0 ≤ length rest.now }
    ensures few { result.1 ≤ 1 }
{
    if byte != b'%' {
        append_cut(text, &[byte]);
        return (0, 0);
    }
    let conversion = conversion_at(rest);
    let argument = arguments.word(ram, taken);
    append_conversion(text, ram, &conversion, &rest[..conversion.len], argument);
    (conversion.len, conversion.arguments())
}

/// Appends the text of a format to an empty text.
fn append_format(text: &mut Text, ram: &Ram, arguments: &Arguments, format: &[u8])
    requires empty { length text.old.items ≡ 0 }
    requires short { length format.now ≤ 2 ^ 23 }
    ensures { text.new.items ≡ take LONGEST (text_from ram.now arguments.now 0 0 format.now) }
{
    let mut left = format;
    let mut taken = 0;
    while let Some((byte, rest)) = left.split_first() {
        if text.is_full() {
            return;
        }
        let (len, count) = append_part(text, ram, arguments, taken, *byte, rest);
        left = &rest[len..];
        taken += count;
    }
}

/// The text of the format at `fmt`, put into `out` in place of what it held; it is cut at 4,096
/// bytes.
///
/// The format ends before its first zero byte or at RAM's end; outside RAM it is empty. In it a
/// conversion is `%`, flags `-` and `0`, a width, a `.` and a precision, any of `h` and `l`, and a
/// letter. A width or a precision of more than 4,096 counts as 4,096, and a `.` without digits is a
/// precision of 0.
///
/// - `d`, `i`: a signed number in decimal; `u`, `o`, `x`, `X`: an unsigned one in decimal, octal,
///   hexadecimal in lower case and in upper case; `p`: one in 8 hexadecimal digits. A precision is
///   the least number of digits, with zeros behind the sign.
/// - `c`: the low byte of the argument.
/// - `s`: the string at the argument, which ends as a format does, or `(null)` at 0, at most as
///   many bytes of it as the precision.
/// - `%`: a `%`, whatever stands before it; it takes no argument.
///
/// The width is filled with spaces on the left, on the right with `-`; with `0`, without `-` and
/// without a precision a number has zeros behind its sign in their place. What no letter ends is
/// printed as it was read, with the byte in the letter's place, and takes no argument.
///
/// An argument is the next of `args` (`$a1`, `$a2` and `$a3`) and then of the words from 16(`sp`)
/// on (MIPS o32), counted modulo 2^32; a word that is misaligned or outside RAM reads 0. All else
/// is this project's profile, after printf of C.
pub fn format(ram: &Ram, fmt: u32, args: [u32; 3], sp: u32, out: &mut ArrayVec<u8, LONGEST>)
    ensures { out.new.items ≡ format_text ram.now fmt args sp }
{
    format_regs(ram, fmt, &args, sp, out);
}

/// The text of the format at `fmt`, put into `out` as `format` puts it there, but with arguments in
/// `registers` in place of three: an argument is the next of these, as many as there are, and then
/// of the words from 16(`sp`) on.
///
/// A function that has its format in `$a1` hands over `$a2` and `$a3` (MIPS o32).
pub fn format_regs(ram: &Ram, fmt: u32, registers: &[u32], sp: u32, out: &mut ArrayVec<u8, LONGEST>)
    ensures { out.new.items ≡ format_text ram.now fmt registers.now sp }
{
    out.clear();
    let arguments = Arguments { registers, sp };
    let format = string_at(ram, fmt, ram.size());
    append_format(out, ram, &arguments, format);
}
