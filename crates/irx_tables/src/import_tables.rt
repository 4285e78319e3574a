ghost use Rattle.std.specs.Prelude.{◌≡◌, ◌+◌, ◌*◌, ◌%◌, ◌<◌, ◌≤◌, Some, IfSome, option_map, length};
ghost use Rattle.std.specs.List.{slice_get};
ghost use Rattle.iop_base.specs.Places.{IsRamSize};
ghost use Rattle.irx_tables.specs.Imports.{ImportTable, first_start, ended_stubs, table_at, next_table};
ghost use Rattle.irx_tables.specs.Results.{pair_at, import_of, next_of, IfTable, HasExtent, IsImportOf, IsNextImport};
ghost use Rattle.irx_tables.specs.declared.words.TheConstants.{HEADER_BYTES};

use crate::reading::{half, name, word};
use crate::words::HEADER_BYTES;
use iop_base::{IMPORT_MAGIC, JUMP_BACK, STUB_INDEX};
use iop_ram::Ram;

/// The second word of the stub of the highest index, 65,535.
const LAST_STUB_INDEX: u32 = STUB_INDEX + 0xFFFF;

/// An import table. Places are physical addresses.
#[derive(Clone, Copy, Debug, PartialEq, Eq)]
pub struct Import {
    /// The place of its first word.
    pub at: u32,
    /// The name of the library that it imports from.
    pub name: [u8; 8],
    /// The version that it asks for: major * 256 + minor.
    pub version: u16,
    /// How many stubs it has.
    pub stubs: u32,
    /// The place behind it.
    pub end: u32,
}

/// What a search for import tables comes to first.
#[derive(Clone, Copy, Debug, PartialEq, Eq)]
pub enum Next {
    /// A table.
    Table(Import),
    /// No start of a table is left.
    End,
    /// A bad table, at this place: another pair of words comes before the two words 0 that end it,
    /// or the range ends before them. The search stops there.
    Bad(u32),
}

/// What the pair of words at a place is.
#[derive(Clone, Copy)]
enum Pair {
    /// A stub.
    Stub,
    /// Two words 0.
    Zeroes,
    /// Neither.
    Other,
}

/// Finds the first import table at or after `scan` in the range of `len` bytes from `from` on. Both
/// are physical places, `scan` is a multiple of 4, and the range lies in RAM.
///
/// Called with `scan` at `from`, and then at the end of the table last given, it gives each table
/// of the range once, in order.
pub fn imports(ram: &Ram, from: u32, len: u32, scan: u32) -> Next
    requires aligned { scan % 4 ≡ 0 }
    requires after { from ≤ scan }
    requires before { scan ≤ from + len }
    requires inside { from + len ≤ length ram.now }
    ensures next { result ≡ next_of (next_table ram.now (from + len) scan) }
    ensures table { IfTable result (IsNextImport ram.now (from + len) scan) }
{
    let stop = end_in_ram(ram, from, len);
    let Some(at) = find_start(ram, stop, scan) else {
        return Next::End;
    };
    match read_import(ram, stop, at) {
        Some(import) => Next::Table(import),
        None => Next::Bad(at),
    }
}

/// Reads the place and the index of a table's stub `i`. The table is one that `imports` gave of
/// this memory.
pub fn stub(ram: &Ram, table: &Import, i: u32) -> (u32, u16)
    requires table { (found : ImportTable) × IsImportOf ram.now table.now found }
    requires below { i < table.now.stubs }
    ensures stub { (found : ImportTable) → IsImportOf ram.now table.now found
        → slice_get found.stubs i ≡ Some result }
    ensures place { result.0 ≡ table.now.at + HEADER_BYTES + 8 * i }
    ensures inside { (result.0 % 4 ≡ 0) × (result.0 + 8 ≤ length ram.now) }
{
    let import = *table;
    let place = import.at + HEADER_BYTES + 8 * i;
    (place, (word(ram, place + 4) - STUB_INDEX) as u16)
}

/// Gives the place behind a range of RAM.
fn end_in_ram(ram: &Ram, from: u32, len: u32) -> u32
    requires { from + len ≤ length ram.now }
    ensures stop { result ≡ from + len }
    ensures sized { IsRamSize (length ram.now) }
{
    from + len.min(ram.size() - from)
}

/// Finds the place of the least start of a table from `scan` on.
fn find_start(ram: &Ram, stop: u32, scan: u32) -> Option<u32>
    requires aligned { scan % 4 ≡ 0 }
    requires before { scan ≤ stop }
    requires inside { stop ≤ length ram.now }
    ensures start { result ≡ first_start ram.now stop scan }
    ensures place { IfSome result (λ at. (scan ≤ at) × (at + 8 ≤ stop) × (at % 4 ≡ 0)) }
{
    let words = (stop - scan) / 4;
    if words == 0 {
        return None;
    }
    let mut first = word(ram, scan);
    for index in 1..words {
        let at = scan + 4 * index;
        let second = word(ram, at);
        if first == IMPORT_MAGIC && second == 0 {
            return Some(at - 4);
        }
        first = second;
    }
    None
}

/// Reads the table that starts at a place. None where it is bad.
fn read_import(ram: &Ram, stop: u32, at: u32) -> Option<Import>
    requires aligned { at % 4 ≡ 0 }
    requires before { at ≤ stop }
    requires inside { stop ≤ length ram.now }
    requires sized { IsRamSize (length ram.now) }
    ensures table { result ≡ option_map import_of (table_at ram.now stop at) }
    ensures extent { IfSome result (λ import. HasExtent stop import × (import.at ≡ at)) }
{
    let first = at + HEADER_BYTES;
    let stubs = count_stubs(ram, stop, first)?;
    Some(Import {
        at,
        name: name(ram, at + 12),
        version: half(ram, at + 8),
        stubs,
        end: first + 8 * stubs + 8,
    })
}

/// Counts the stubs from `first` on before two words 0. None where another pair of words comes
/// first, or the range ends.
fn count_stubs(ram: &Ram, stop: u32, first: u32) -> Option<u32>
    requires aligned { first % 4 ≡ 0 }
    requires inside { stop ≤ length ram.now }
    ensures count { result ≡ option_map length (ended_stubs ram.now stop first) }
    ensures end { IfSome result (λ count. first + 8 * count + 8 ≤ stop) }
{
    for count in 0..stop.saturating_sub(first) / 8 {
        match read_pair(ram, first + 8 * count) {
            Pair::Stub => {}
            Pair::Zeroes => return Some(count),
            Pair::Other => return None,
        }
    }
    None
}

/// Tells what the two words at a place are.
fn read_pair(ram: &Ram, place: u32) -> Pair
    requires aligned { place % 4 ≡ 0 }
    requires inside { place + 8 ≤ length ram.now }
    ensures { result ≡ pair_at ram.now place }
{
    match (word(ram, place), word(ram, place + 4)) {
        (JUMP_BACK, STUB_INDEX..=LAST_STUB_INDEX) => Pair::Stub,
        (0, 0) => Pair::Zeroes,
        _ => Pair::Other,
    }
}
