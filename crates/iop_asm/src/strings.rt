//! Strings in a line of source.

ghost use Rattle.std.specs.Prelude.{◌≡◌, IfOk, false, option_map};
ghost use Rattle.iop_asm.specs.Texts.{escaped_byte, string_of, string_rest};

use crate::texts::{after_blanks, behind, is_all_blank};
use std::alloc::{AllocError, Global};

/// Gives the byte that an escape stands for: a line feed, a backslash or a quote.
fn escaped_byte(byte: u8) -> Option<u8>
    ensures { result ≡ escaped_byte byte }
{
    match byte {
        b'n' => Some(b'\n'),
        b'\\' | b'"' => Some(byte),
        _ => None,
    }
}

/// Reads a string from behind its opening quote on. None where it does not end, where something
/// but blanks follows it, or where an escape is none.
#[tactic(auto, using(crate::proofs::StringLemmas::strings))]
fn string_rest(alloc: Global, quoted: &[u8]) -> Result<Option<Vec<u8>>, AllocError>
    ensures { IfOk result
        (λ string. option_map (λ bytes. bytes.items) string ≡ string_rest false quoted.now) }
{
    let mut string = Vec::new(alloc);
    let mut escaped = false;
    for (index, byte) in quoted.iter().enumerate() {
        if escaped {
            let Some(meant) = escaped_byte(*byte) else {
                return Ok(None);
            };
            string.push(meant)?;
            escaped = false;
        } else if *byte == b'"' {
            return Ok(is_all_blank(&quoted[index + 1..]).then_some(string));
        } else if *byte == b'\\' {
            escaped = true;
        } else {
            string.push(*byte)?;
        }
    }
    Ok(None)
}

/// Reads the string that a text is: in quotes, with blanks before and behind. None where the text
/// is no string.
pub(crate) fn string_of(alloc: Global, text: &[u8]) -> Result<Option<Vec<u8>>, AllocError>
    ensures { IfOk result
        (λ string. option_map (λ bytes. bytes.items) string ≡ string_of text.now) }
{
    match behind(b"\"", after_blanks(text)) {
        None => Ok(None),
        Some(quoted) => string_rest(alloc, quoted),
    }
}
