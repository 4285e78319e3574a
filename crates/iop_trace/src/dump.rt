//! The lines of a dump.

ghost use Rattle.std.specs.Prelude.{◌≡◌, ◌+◌, ◌*◌, ◌≤◌, ◌++◌, length};
ghost use Rattle.std.specs.List.{flat_map};
ghost use Rattle.arrayvec.specs.ArrayVec.{array_vec_len};
ghost use Rattle.iop_base.specs.Text.{hex_digits};
ghost use Rattle.iop_trace.specs.Dumps.{dump_line};

use arrayvec::ArrayVec;
use hex::encode_to_slice;
use iop_text::{append, append_hex};

/// How many bytes of memory a line of a dump has at most.
pub const BYTES_IN_LINE: usize = 16;

/// How many bytes there is room for in a line of a dump.
pub const DUMP_ROOM: usize = 64;

/// Appends the two digits of each byte, lower-case and hexadecimal.
fn append_byte_digits(text: &mut ArrayVec<u8, DUMP_ROOM>, bytes: &[u8])
    requires few { length bytes.now ≤ BYTES_IN_LINE }
    requires room { array_vec_len text.old + 2 * length bytes.now ≤ DUMP_ROOM }
    ensures bytes { text.new.items ≡ text.old.items ++ flat_map (hex_digits 2) bytes.now }
    ensures long { array_vec_len text.new ≡ array_vec_len text.old + 2 * length bytes.now }
{
    let mut room = [0; 2 * BYTES_IN_LINE];
    let digits = &mut room[..2 * bytes.len()];
    // two digits of room a byte are there, so this never fails
    let _ = encode_to_slice(bytes, digits);
    append(text, digits);
}

/// The line of a dump for bytes of memory that begin at an address, at most 16. It has the address
/// with eight lower-case hexadecimal digits, a colon, a space, two digits of each byte, and a line
/// feed: at most 43 bytes.
#[tactic(auto, unfolding(crate::specs::Dumps::dump_line))]
pub fn dump_line(at: u32, bytes: &[u8]) -> ArrayVec<u8, DUMP_ROOM>
    requires { length bytes.now ≤ BYTES_IN_LINE }
    ensures { result.items ≡ dump_line at bytes.now }
{
    let mut text = ArrayVec::new();
    append_hex(&mut text, at);
    append(&mut text, b": ");
    append_byte_digits(&mut text, bytes);
    append(&mut text, b"\n");
    text
}
