//! The second pass over a range: its stubs are bound, one after another.
//!
//! Memory is read while it changes. What counts is what stood there before: behind the stub bound
//! last the text is as it was, and the first word of a stub that was bound was `jr $ra`.

ghost use Rattle.std.specs.Prelude.{◌≡◌, ◌+◌, ◌*◌, ◌%◌, ◌^◌, ◌<◌, ◌≤◌, IfSome, length};
ghost use Rattle.std.specs.List.{slice_get};
ghost use Rattle.iop_base.specs.Places.{IsRamSize};
ghost use Rattle.irx_tables.specs.Imports.{ImportTable};
ghost use Rattle.irx_tables.specs.Results.{HasExtent, IsImportOf};
ghost use Rattle.irx_tables.specs.declared.words.TheConstants.{HEADER_BYTES, MOST_FUNCTIONS};
ghost use Rattle.iop_registry.specs.Entries.{IsTable};
ghost use Rattle.iop_stubs.specs.Binding.{IsSound};
ghost use Rattle.iop_linker.specs.Linking.{target_of, text_stubs, linked_memory, HasNoLiveStub};
ghost use Rattle.iop_linker.specs.Underway.{former_word, former_functions, table_stubs, stubs_at, HasRoom, IsRestFree, IsNextStub, Binds};

use crate::library::{library, major};
use iop_base::JUMP_BACK;
use iop_registry::Registry;
use iop_stubs::{Guest, Stub};
use irx_tables::{HEADER_BYTES, Import, Next, exports_count, imports, word};

/// The range of a module's text: physical places in RAM.
#[derive(Clone, Copy)]
struct Text {
    from: u32,
    len: u32,
}

/// The functions of a library.
#[derive(Clone, Copy)]
struct Functions {
    /// The place of its export table.
    table: u32,
    /// How many it has.
    count: u32,
    ghost aligned: { table % 4 ≡ 0 },
    ghost physical: { table < 2 ^ 29 },
    ghost few: { count ≤ MOST_FUNCTIONS },
}

/// Binds the stubs of a range whose index is below the number of their library's functions. There
/// is room for them.
pub(crate) fn bind_tables(guest: &mut Guest, registry: &Registry, from: u32, len: u32)
    requires aligned { from % 4 ≡ 0 }
    requires inside { from + len ≤ length guest.old.ram }
    requires apart { HasNoLiveStub guest.old from len }
    requires room { HasRoom guest.old (text_stubs guest.old.ram registry.now from len) }
    ensures memory { guest.new
        ≡ linked_memory guest.old (text_stubs guest.old.ram registry.now from len) }
    ensures sound { IsSound guest.new }
{
    let text = Text { from, len };
    let mut scan = from;
    while let Next::Table(import) = imports(guest.ram(), from, len, scan) {
        bind_table(guest, text, &import, library(registry, &import));
        scan = import.end;
    }
}

/// Binds the stubs of a table, whose library's export table stands at `library`. No stub of the
/// text is live from the table on.
fn bind_table(guest: &mut Guest, text: Text, import: &Import, library: Option<u32>)
    requires table { (found : ImportTable) × IsImportOf guest.old.ram import.now found }
    requires library { IfSome library IsTable }
    requires inside { text.from + text.len ≤ length guest.old.ram }
    requires after { text.from ≤ import.now.at }
    requires extent { HasExtent (text.from + text.len) import.now }
    requires free { IsRestFree text.from text.len import.now.at guest.old }
    requires room { HasRoom guest.old
        (table_stubs text.from text.len guest.old import.now library) }
    ensures { let stubs = table_stubs text.from text.len guest.old import.now library in
        Binds text.from text.len import.now.end guest.old guest.new stubs }
{
    let Some(table) = library else {
        return;
    };
    let functions = functions_at(guest, text, table);
    for i in 0..import.stubs {
        bind_stub(
            guest,
            text,
            import,
            functions,
            import.at + HEADER_BYTES + 8 * i,
        );
    }
}

/// Counts the functions of the export table that stood at a place before.
fn functions_at(guest: &Guest, text: Text, table: u32) -> Functions
    requires { IsTable table }
    ensures table { result.table ≡ table }
    ensures count { result.count ≡ length (former_functions text.from text.len guest.now table) }
    ensures inside { 0 < result.count
        → table + HEADER_BYTES + 4 * result.count ≤ length guest.now.ram }
    ensures sized { IsRamSize (length guest.now.ram) }
{
    let count = exports_count(guest.ram(), table);
    Functions { table, count }
}

/// Binds the stub at a place, if its index is below the number of the library's functions. No stub
/// of the text is live from there on.
fn bind_stub(guest: &mut Guest, text: Text, import: &Import, functions: Functions, at: u32)
    requires next { IsNextStub text.from text.len guest.old at }
    requires functions { 0 < functions.count
        → functions.table + HEADER_BYTES + 4 * functions.count ≤ length guest.old.ram }
    requires count { functions.count
        ≡ length (former_functions text.from text.len guest.old functions.table) }
    requires room { HasRoom guest.old
        (stubs_at text.from text.len guest.old import.now functions.table at) }
    ensures { let stubs = stubs_at text.from text.len guest.old import.now functions.table at in
        Binds text.from text.len (at + 8) guest.old guest.new stubs }
{
    let index = (word(guest.ram(), at + 4) % 0x1_0000) as u16;
    if let Some(function) = function(guest, text, functions, index) {
        guest.bind(Stub {
            at,
            name: import.name,
            major: major(import),
            index,
            target: target(function),
        });
    }
}

/// Reads the word of a function, as it stood before. None where the library has no function of this
/// index.
fn function(guest: &Guest, text: Text, functions: Functions, index: u16) -> Option<u32>
    requires functions { 0 < functions.count
        → functions.table + HEADER_BYTES + 4 * functions.count ≤ length guest.now.ram }
    requires count { functions.count
        ≡ length (former_functions text.from text.len guest.now functions.table) }
    ensures { result
        ≡ slice_get (former_functions text.from text.len guest.now functions.table) index }
{
    let index = u32::from(index);
    if index < functions.count {
        let place = functions.table + HEADER_BYTES + 4 * index;
        Some(former_word(guest, text, place))
    } else {
        None
    }
}

/// Reads the word at a place, as it stood before.
fn former_word(guest: &Guest, text: Text, place: u32) -> u32
    requires aligned { place % 4 ≡ 0 }
    requires inside { place + 4 ≤ length guest.now.ram }
    ensures { result ≡ former_word text.from text.len guest.now place }
{
    if text.from <= place && place - text.from < text.len && guest.at(place).is_some() {
        JUMP_BACK
    } else {
        word(guest.ram(), place)
    }
}

/// Gives the place to which a jump goes for a function's word: its bits 2 to 27.
fn target(function: u32) -> u32
    ensures place { result ≡ target_of function }
    ensures aligned { result % 4 ≡ 0 }
    ensures near { result < 2 ^ 28 }
{
    4 * (function / 4 % 0x400_0000)
}
