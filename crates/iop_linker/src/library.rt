//! The library that an import table asks for.

ghost use Rattle.std.specs.Prelude.{◌≡◌, ◌/◌, IfSome};
ghost use Rattle.iop_registry.specs.Entries.{table_of, IsTable};

use iop_registry::Registry;
use irx_tables::Import;

/// Gives the major version that a table asks for.
pub(crate) fn major(import: &Import) -> u8
    ensures { result ≡ import.now.version / 256 }
{
    (import.version / 256) as u8
}

/// Finds the place of the export table of the library that a table asks for.
pub(crate) fn library(registry: &Registry, import: &Import) -> Option<u32>
    ensures table { result ≡ table_of registry.now import.now.name (import.now.version / 256) }
    ensures place { IfSome result IsTable }
{
    registry.find(import.name, major(import))
}
