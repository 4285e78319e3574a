ghost use Rattle.std.specs.Prelude.{◌≡◌, ◌+◌, ◌*◌, ◌%◌, ◌^◌, ◌<◌, ◌≤◌, length};
ghost use Rattle.std.specs.List.{slice_get};
ghost use Rattle.irx_tables.specs.Exports.{header_of, functions};
ghost use Rattle.irx_tables.specs.declared.words.TheConstants.{HEADER_BYTES, MOST_FUNCTIONS};

use crate::reading::{half, name, word};
use crate::words::{HEADER_BYTES, MOST_FUNCTIONS};
use iop_base::EXPORT_MAGIC;
use iop_ram::Ram;

/// Reads the name and the version (major * 256 + minor) of the export table at a physical place, a
/// multiple of 4 with its 20 bytes in RAM. None exactly where its first word is not `EXPORT_MAGIC`.
pub fn header(ram: &Ram, table: u32) -> Option<([u8; 8], u16)>
    requires aligned { table % 4 ≡ 0 }
    requires inside { table + HEADER_BYTES ≤ length ram.now }
    ensures { result ≡ header_of ram.now table }
{
    if word(ram, table) == EXPORT_MAGIC {
        Some((name(ram, table + 12), half(ram, table + 8)))
    } else {
        None
    }
}

/// Counts the functions of the export table at a physical place, a multiple of 4 below 2^29: the
/// words behind its 20 bytes before the first word 0, at most 1,024, and only those wholly in RAM.
/// So outside RAM it is 0.
pub fn exports_count(ram: &Ram, table: u32) -> u32
    requires aligned { table % 4 ≡ 0 }
    requires physical { table < 2 ^ 29 }
    ensures count { result ≡ length (functions ram.now table) }
    ensures few { result ≤ MOST_FUNCTIONS }
    ensures inside { 0 < result → table + HEADER_BYTES + 4 * result ≤ length ram.now }
{
    let first = table + HEADER_BYTES;
    let words = (ram.size().saturating_sub(first) / 4).min(MOST_FUNCTIONS);
    for index in 0..words {
        if word(ram, first + 4 * index) == 0 {
            return index;
        }
    }
    words
}

/// Reads function `i` of the export table at a physical place, a multiple of 4 below 2^29. None
/// exactly where `i` is not below its count.
pub fn export_word(ram: &Ram, table: u32, i: u32) -> Option<u32>
    requires aligned { table % 4 ≡ 0 }
    requires physical { table < 2 ^ 29 }
    ensures { result ≡ slice_get (functions ram.now table) i }
{
    if i < exports_count(ram, table) {
        Some(word(ram, table + HEADER_BYTES + 4 * i))
    } else {
        None
    }
}
