//! What a snapshot has behind the kernel.

ghost use Rattle.std.specs.Prelude.{◌≡◌, Some, IfOk, MatchResult};
ghost use Rattle.iop_base.specs.Places.{IsRamSize};
ghost use Rattle.iop_snapshot.specs.Reading.{GivesNone};
ghost use Rattle.iop_saved_machine.specs.Back.{bare};
ghost use Rattle.iop_saved_machine.specs.Parts.{rest_form};
ghost use Rattle.iop_saved_machine.specs.Restored.{rest_parts, TablesAreBack};
ghost use Rattle.iop_saved_machine.specs.Tables.{read_tables};

use crate::loading::{Loading, restore_loading};
use crate::memory::restore_ram;
use crate::tables::{Tables, restore_tables};
use iop_snapshot::{Decoder, SnapFault};
use iop_stubs::Guest;
use std::alloc::Global;

/// What was read behind the kernel: tables, modules and the script, and RAM, in which no stub is
/// live yet.
#[derive(Drop)]
pub(crate) struct Rest {
    pub(crate) tables: Tables,
    pub(crate) loading: Loading,
    pub(crate) guest: Guest,
}

/// Reads what stands behind the kernel of a machine whose RAM has so many bytes. `Bad` exactly
/// where the bytes at the front are none of it, unless memory runs out.
pub(crate) fn restore_rest(
    alloc: Global,
    size: u32,
    decoder: &mut Decoder<'_>,
) -> Result<Rest, SnapFault>
    requires sized { IsRamSize size }
    ensures read { let read = (rest_form (read_tables size) size).read decoder.old in
        MatchResult result (λ made. read ≡ Some (rest_parts made, decoder.new)) (GivesNone read) }
    ensures back { IfOk result (λ made. TablesAreBack size made.tables) }
    ensures bare { IfOk result (λ made. made.guest ≡ bare made.guest.ram) }
{
    let tables = restore_tables(alloc, size, decoder)?;
    let loading = restore_loading(alloc, decoder)?;
    let guest = restore_ram(alloc, size, decoder)?;
    Ok(Rest {
        tables,
        loading,
        guest,
    })
}
