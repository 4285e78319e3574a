//! The first pass over a range: whether it can be linked, and how many stubs would be bound.

ghost use Rattle.std.specs.Prelude.{◌≡◌, ◌+◌, ◌/◌, ◌%◌, ◌≤◌, IfOk, length};
ghost use Rattle.irx_tables.specs.Imports.{ImportTable, tables_of};
ghost use Rattle.irx_tables.specs.Results.{IsImportOf};
ghost use Rattle.irx_tables.specs.Exports.{functions};
ghost use Rattle.iop_registry.specs.Entries.{table_of};
ghost use Rattle.iop_linker.specs.Linking.{first_without_library, text_stubs};
ghost use Rattle.iop_linker.specs.Underway.{bound_import, text_count, import_count};

use crate::library::{library, major};
use crate::link_fault::LinkFault;
use iop_ram::Ram;
use iop_registry::Registry;
use irx_tables::{Import, Next, exports_count, imports, stub};

/// Finds the place of the bad table of a range.
pub(crate) fn bad_table(ram: &Ram, from: u32, len: u32) -> Option<u32>
    requires aligned { from % 4 ≡ 0 }
    requires inside { from + len ≤ length ram.now }
    ensures { result ≡ (tables_of ram.now from len).bad }
{
    let mut scan = from;
    loop {
        match imports(ram, from, len, scan) {
            Next::Table(import) => scan = import.end,
            Next::End => return None,
            Next::Bad(at) => return Some(at),
        }
    }
}

/// Counts the stubs of a range's tables that are bound. `NoLibrary` at the first table whose
/// library is not registered.
pub(crate) fn count_new(
    ram: &Ram,
    registry: &Registry,
    from: u32,
    len: u32,
) -> Result<u32, LinkFault>
    requires aligned { from % 4 ≡ 0 }
    requires inside { from + len ≤ length ram.now }
    ensures { let without = first_without_library registry.now (tables_of ram.now from len).whole in
        result ≡ text_count without (length (text_stubs ram.now registry.now from len)) }
{
    let mut count = 0;
    let mut scan = from;
    while let Next::Table(import) = imports(ram, from, len, scan) {
        count += count_bound(ram, registry, &import)?;
        scan = import.end;
    }
    Ok(count)
}

/// Counts the stubs of a table that are bound. `NoLibrary` where its library is not registered.
fn count_bound(ram: &Ram, registry: &Registry, import: &Import) -> Result<u32, LinkFault>
    requires { (found : ImportTable) × IsImportOf ram.now import.now found }
    ensures count { let library =
        table_of registry.now import.now.name (import.now.version / 256) in
        let stubs = bound_import (functions ram.now) ram.now import.now library in
        result ≡ import_count library import.now (length stubs) }
    ensures few { IfOk result (λ count. count ≤ import.now.stubs) }
{
    let Some(table) = library(registry, import) else {
        return Err(LinkFault::NoLibrary {
            table: import.at,
            name: import.name,
            major: major(import),
        });
    };
    let functions = exports_count(ram, table);
    let mut count = 0;
    for i in 0..import.stubs {
        let (_, index) = stub(ram, import, i);
        count += u32::from(u32::from(index) < functions);
    }
    Ok(count)
}
