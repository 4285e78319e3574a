//! The whole machine, read from the bytes of a file and put back.

ghost use Rattle.std.specs.Prelude.{◌≡◌, ℕ, [], Some, IfOk, MatchResult};
ghost use Rattle.iop_kernel.specs.System.{Core};
ghost use Rattle.iop_saved_kernel.specs.Parts.{Parts, core_back, core_form};
ghost use Rattle.iop_saved_kernel.specs.Restored.{HoldsCore};
ghost use Rattle.iop_snapshot.specs.Reading.{GivesNone};
ghost use Rattle.iop_saved_machine.specs.Back.{bare};
ghost use Rattle.iop_saved_machine.specs.Parts.{machine_with, read_machine};
ghost use Rattle.iop_saved_machine.specs.Restored.{TablesAreBack, rest_parts, RestoresWhole};

use crate::head::restore_head;
use crate::loading::Loading;
use crate::rest::{Rest, restore_rest};
use crate::tables::Tables;
use iop_ready::Ready;
use iop_registry::Registry;
use iop_saved_kernel::{RestoredKernel, restore_kernel};
use iop_saved_tables::put_stubs;
use iop_snapshot::{Decoder, SnapFault};
use iop_stubs::Guest;
use iop_sysmem::Blocks;
use std::alloc::Global;

/// A machine that was put back.
#[derive(Drop)]
pub struct RestoredMachine<R> {
    /// The kernel and its processor.
    pub core: RestoredKernel<R>,
    /// Memory with its live stubs.
    pub guest: Guest,
    /// The blocks of memory.
    pub blocks: Blocks,
    /// The registered libraries.
    pub registry: Registry,
    /// What is still to be loaded, and what is still to come of the script.
    pub loading: Loading,
}

/// All parts of a machine, in whose RAM no stub is live yet.
#[derive(Drop)]
struct Unfinished<R> {
    core: RestoredKernel<R>,
    rest: Rest,
}

/// Reads a machine from the bytes of a file and puts it back, beside a list of ready threads in
/// which none is.
///
/// `Bad` exactly where the bytes, all of them, spell no parts of a machine that can be put back,
/// unless memory runs out; `Memory` says nothing of the bytes.
pub fn restore_machine<R: Ready + Drop>(
    alloc: Global,
    ready: R,
    bytes: &[u8],
) -> Result<RestoredMachine<R>, SnapFault>
    requires none { R.stands ready [] }
    ensures { RestoresWhole R.stands result bytes.now }
{
    let mut decoder = Decoder::new(bytes);
    let made = restore_parts(alloc, ready, &mut decoder)?;
    if decoder.left() != 0 {
        return Err(SnapFault::Bad);
    }
    let Unfinished { core, rest } = made;
    let Rest {
        tables,
        loading,
        guest,
    } = rest;
    let Tables {
        blocks,
        registry,
        stubs,
    } = tables;
    let Some(guest) = put_stubs(guest, &stubs) else {
        return Err(SnapFault::Bad);
    };
    Ok(RestoredMachine {
        core,
        guest,
        blocks,
        registry,
        loading,
    })
}

/// Reads all parts, beside a list of ready threads in which none is. `Bad` exactly where the bytes
/// at the front are no parts that can be put back but for the stubs, unless memory runs out.
#[tactic(auto, unfolding(crate::specs::Parts::parts_form))]
fn restore_parts<R: Ready + Drop>(
    alloc: Global,
    ready: R,
    decoder: &mut Decoder<'_>,
) -> Result<Unfinished<R>, SnapFault>
    requires none { R.stands ready [] }
    ensures read { let read = read_machine.read decoder.old in
        MatchResult result
        (λ made. (size : ℕ) × (p : Parts) × (c : Core) × HoldsCore R.stands made.core c
        × (core_back p ≡ Some c) × TablesAreBack size made.rest.tables
        × (read ≡ Some (machine_with (size, (p, rest_parts made.rest)), decoder.new)))
        (GivesNone read) }
    ensures bare { IfOk result (λ made. made.rest.guest ≡ bare made.rest.guest.ram) }
{
    let Some(size) = restore_head(decoder) else {
        return Err(SnapFault::Bad);
    };
    let core = restore_core(alloc, ready, decoder)?;
    let rest = restore_rest(alloc, size, decoder)?;
    Ok(Unfinished { core, rest })
}

/// Reads a kernel and its processor and puts them back, beside a list of ready threads in which
/// none is. `Bad` exactly where the bytes at the front are none that can be put back, unless memory
/// runs out.
fn restore_core<R: Ready + Drop>(
    alloc: Global,
    ready: R,
    decoder: &mut Decoder<'_>,
) -> Result<RestoredKernel<R>, SnapFault>
    requires none { R.stands ready [] }
    ensures { let read = core_form.read decoder.old in
        MatchResult result
        (λ made. (p : Parts) × (c : Core) × HoldsCore R.stands made c × (core_back p ≡ Some c)
        × (read ≡ Some (p, decoder.new)))
        (GivesNone read) }
{
    restore_kernel(alloc, ready, decoder)
}
