//! Listings of memory.

ghost use Rattle.std.specs.Prelude.{◌≡◌, Some, is_ok};
ghost use Rattle.iop_disasm.specs.Listings.{line_of, line_at, listing_bytes};
ghost use Rattle.iop_ports.specs.Sinks.{Sends};

use crate::text::{Text, append_inst};
use arrayvec::ArrayVec;
use iop_base::WriteFault;
use iop_ports::{Sink, send};
use iop_ram::Ram;
use iop_text::{append, append_hex};

/// Writes a line for each of so many words from the address `from` on: its address, the word, and
/// its text as `inst_text` gives it. Addresses go on from 0 behind the last.
///
/// A word that is not in RAM, or whose address is not a multiple of 4, has no line. `Err` comes
/// exactly where a write fails: then the sink has taken a front of the lines, and else all of them.
pub fn listing<S: Sink>(ram: &Ram, from: u32, words: u32, sink: &mut S) -> Result<(), WriteFault>
    ensures { Sends (is_ok result) (listing_bytes ram.now from words)
        (S.told sink.old) (S.told sink.new) }
{
    for n in 0..words {
        let at = from.wrapping_add(n.wrapping_mul(4));
        if !send_line(ram, at, sink) {
            return Err(WriteFault);
        }
    }
    Ok(())
}

/// Writes the line of an address, where it has one, and says whether it is whole.
#[tactic(auto, unfolding(crate::specs::Listings::line_at))]
fn send_line<S: Sink>(ram: &Ram, at: u32, sink: &mut S) -> bool
    ensures { Sends result (line_at ram.now at) (S.told sink.old) (S.told sink.new) }
{
    match ram.load32(at) {
        Ok(word) => send(sink, &line_text(word, at)),
        Err(_) => true,
    }
}

/// The line of a word at an address.
fn line_text(word: u32, at: u32) -> Text
    ensures { result.items ≡ line_of at (Some word) }
{
    let mut text = ArrayVec::new();
    append_hex(&mut text, at);
    append(&mut text, b": ");
    append_hex(&mut text, word);
    append(&mut text, b" ");
    append_inst(&mut text, word, at);
    append(&mut text, b"\n");
    text
}
