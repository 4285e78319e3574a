//! What is still to be loaded, and what is still to come of the script.

ghost use Rattle.std.specs.Prelude.{◌≡◌, true, Some, MatchResult};
ghost use Rattle.iop_snapshot.specs.Reading.{Reads, GivesNone};
ghost use Rattle.iop_snapshot.specs.Writing.{place_of, Writes};
ghost use Rattle.iop_saved_machine.specs.Loading.{next_module_form, loading_form};
ghost use Rattle.iop_saved_machine.specs.Restored.{loading_parts};

use crate::begun_module::{BegunModule, restore_begun};
use iop_base::WriteFault;
use iop_ports::Sink;
use iop_saved_script::{Module, restore_args, restore_events, restore_modules, restore_named};
use iop_script::{Args, Named, Raise};
use iop_snapshot::widths::NEXT_MODULE;
use iop_snapshot::{Decoder, Encoder, SnapFault};
use std::alloc::Global;

/// What is still to be loaded, and what is still to come of the script.
#[derive(Drop)]
pub struct Loading {
    /// The module that the loader's thread begins or runs, if there is one.
    pub begun: Option<BegunModule>,
    /// The number of the module that is loaded next.
    pub next: u32,
    /// The modules that were not loaded yet, in order.
    pub modules: Vec<Module>,
    /// The events that are still to come, in order.
    pub events: Vec<Raise>,
    /// The words for modules by their numbers.
    pub args: Vec<Args>,
    /// The words for modules by their names.
    pub named: Vec<Named>,
}

/// Reads what is still to be loaded and to come. `Bad` exactly where the bytes at the front are
/// none of it, unless memory runs out.
#[tactic(auto, unfolding(crate::specs::Loading::loading_form))]
pub(crate) fn restore_loading(
    alloc: Global,
    decoder: &mut Decoder<'_>,
) -> Result<Loading, SnapFault>
    ensures { let read = loading_form.read decoder.old in
        MatchResult result (λ made. read ≡ Some (loading_parts made, decoder.new))
        (GivesNone read) }
{
    let Some(begun) = restore_begun(decoder) else {
        return Err(SnapFault::Bad);
    };
    let Some(next) = restore_next(decoder) else {
        return Err(SnapFault::Bad);
    };
    let modules = restore_modules(alloc, decoder)?;
    let events = restore_events(alloc, decoder)?;
    let args = restore_args(alloc, decoder)?;
    let named = restore_named(alloc, decoder)?;
    Ok(Loading {
        begun,
        next,
        modules,
        events,
        args,
        named,
    })
}

/// Writes the number of the module that is loaded next.
#[tactic(auto, unfolding(crate::specs::Loading::next_module_form, iop_snapshot::specs::Forms::item))]
pub(crate) fn save_next<S: Sink>(next: u32, encoder: &mut Encoder<'_, S>) -> Result<(), WriteFault>
    ensures written { Writes result (next_module_form.spell next) (place_of S.told encoder.old)
        (place_of S.told encoder.new) }
    ensures fits { next_module_form.fits next ≡ true }
{
    encoder.item(&NEXT_MODULE, &[u64::from(next)])
}

/// Reads the number of the module that is loaded next. None exactly where too few bytes are left.
#[tactic(auto, unfolding(crate::specs::Loading::next_module_form, iop_snapshot::specs::Forms::item))]
fn restore_next(decoder: &mut Decoder<'_>) -> Option<u32>
    ensures { Reads next_module_form result decoder.old decoder.new }
{
    let mut numbers = [0; 1];
    decoder.item(&NEXT_MODULE, &mut numbers)?;
    Some(numbers[0] as u32)
}
