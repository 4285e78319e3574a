//! Places of bytes in strings.

ghost use Rattle.std.specs.Prelude.{◌≡◌, ◌+◌, ◌≤◌, IfSome, length, position, reverse};
ghost use Rattle.iop_sysclib.specs.MemoryCalls.{is_byte};
ghost use Rattle.iop_sysclib.specs.StringCalls.{ended, last_position};

use crate::addresses::first_place;

/// Finds the first byte of a string that is the low byte of a word; its end counts as a zero byte.
pub(crate) fn first_in_string(string: &[u8], wanted: u32) -> Option<usize>
    ensures first { result ≡ position (is_byte wanted) (ended string.now) }
    ensures inside { IfSome result (λ index. index ≤ length string.now) }
{
    match first_place(string, wanted) {
        Some(index) => Some(index),
        None if wanted % 256 == 0 => Some(string.len()),
        None => None,
    }
}

/// Finds, from the end on, the first byte that is the low byte of a word.
fn place_from_end(bytes: &[u8], wanted: u32) -> Option<usize>
    ensures first { result ≡ position (is_byte wanted) (reverse bytes.now) }
    ensures inside { IfSome result (λ index. index + 1 ≤ length bytes.now) }
{
    let wanted = (wanted % 256) as u8;
    bytes.iter().rev().position(|byte| *byte == wanted)
}

/// Finds the last byte of a string that is the low byte of a word; its end counts as a zero byte.
pub(crate) fn last_in_string(string: &[u8], wanted: u32) -> Option<usize>
    ensures last { result ≡ last_position (is_byte wanted) (ended string.now) }
    ensures inside { IfSome result (λ index. index ≤ length string.now) }
{
    if wanted % 256 == 0 {
        return Some(string.len());
    }
    let from_end = place_from_end(string, wanted)?;
    Some(string.len() - 1 - from_end)
}
