//! The blocks of memory, the registered libraries, and the live stubs.

ghost use Rattle.std.specs.Prelude.{◌≡◌, Some, IfOk, MatchResult};
ghost use Rattle.iop_base.specs.Places.{IsRamSize};
ghost use Rattle.iop_saved_tables.specs.Tables.{used_form};
ghost use Rattle.iop_snapshot.specs.Reading.{GivesNone};
ghost use Rattle.iop_saved_machine.specs.Back.{used_back, libraries_back};
ghost use Rattle.iop_saved_machine.specs.Restored.{tables_parts, TablesAreBack};
ghost use Rattle.iop_saved_machine.specs.Tables.{kernel_alone, libraries_form, read_tables};

use iop_registry::Registry;
use iop_saved_tables::{restore_blocks, restore_libraries, restore_stubs};
use iop_snapshot::{Decoder, SnapFault};
use iop_stubs::Stub;
use iop_sysmem::Blocks;
use std::alloc::{AllocError, Global};

/// Tables that were put back, and the stubs that were read, which come to life in RAM.
#[derive(Drop)]
pub(crate) struct Tables {
    pub(crate) blocks: Blocks,
    pub(crate) registry: Registry,
    pub(crate) stubs: Vec<Stub>,
}

/// Reads blocks, libraries and stubs, and puts the blocks back into a RAM of so many bytes, and the
/// libraries into a registry of none. `Bad` exactly where the bytes at the front are none, unless
/// memory runs out.
#[tactic(auto, unfolding(crate::specs::Tables::tables_form))]
pub(crate) fn restore_tables(
    alloc: Global,
    size: u32,
    decoder: &mut Decoder<'_>,
) -> Result<Tables, SnapFault>
    requires sized { IsRamSize size }
    ensures read { let read = (read_tables size).read decoder.old in
        MatchResult result (λ made. read ≡ Some (tables_parts made, decoder.new))
        (GivesNone read) }
    ensures back { IfOk result (TablesAreBack size) }
{
    let blocks = restore_used(alloc, size, decoder)?;
    let registry = restore_registry(alloc, decoder)?;
    let stubs = restore_stubs(alloc, decoder)?;
    Ok(Tables {
        blocks,
        registry,
        stubs,
    })
}

/// Makes the blocks of a RAM of so many bytes, of which the kernel's alone is used.
fn blocks_of(alloc: Global, size: u32) -> Result<Blocks, AllocError>
    requires sized { IsRamSize size }
    ensures { IfOk result (λ blocks. blocks ≡ kernel_alone size) }
{
    Blocks::new(alloc, size)
}

/// Reads the blocks that are used in a RAM of so many bytes, and puts them back. `Bad` exactly
/// where the bytes at the front are none, unless memory runs out.
fn restore_used(alloc: Global, size: u32, decoder: &mut Decoder<'_>) -> Result<Blocks, SnapFault>
    requires sized { IsRamSize size }
    ensures read { let read = (used_form (kernel_alone size)).read decoder.old in
        MatchResult result (λ made. read ≡ Some (made.used, decoder.new)) (GivesNone read) }
    ensures back { IfOk result (λ made. used_back size made.used ≡ Some made) }
{
    let blocks = blocks_of(alloc, size)?;
    restore_blocks(blocks, decoder)
}

/// Reads libraries and puts them back into a registry of none. `Bad` exactly where the bytes at the
/// front are none, unless memory runs out.
fn restore_registry(alloc: Global, decoder: &mut Decoder<'_>) -> Result<Registry, SnapFault>
    ensures read { let read = libraries_form.read decoder.old in
        MatchResult result (λ made. read ≡ Some (made, decoder.new)) (GivesNone read) }
    ensures back { IfOk result (λ made. libraries_back made ≡ Some made) }
{
    let registry = Registry::empty(alloc)?;
    restore_libraries(registry, decoder)
}
