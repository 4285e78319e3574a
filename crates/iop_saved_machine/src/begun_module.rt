//! The module that the loader's thread begins or runs.

ghost use Rattle.std.specs.Prelude.{◌≡◌, true, OnOk, is_some};
ghost use Rattle.iop_snapshot.specs.Forms.{present, fits_where, spell_where};
ghost use Rattle.iop_snapshot.specs.Items.{fits_item};
ghost use Rattle.iop_snapshot.specs.Reading.{Reads};
ghost use Rattle.iop_snapshot.specs.Writing.{place_of, Writes};
ghost use Rattle.iop_snapshot.specs.declared.widths.TheConstants.{MODULE as WIDTHS};
ghost use Rattle.iop_saved_machine.specs.BegunModules.{flag_form, begun_numbers, module_form, begun_form};

use iop_base::WriteFault;
use iop_modload::ImagePlace;
use iop_ports::Sink;
use iop_snapshot::widths::{MODULE, MODULE_PRESENT};
use iop_snapshot::{Decoder, Encoder, flag_of};

/// A module that the loader's thread begins or runs.
#[derive(Clone, Copy, Debug, PartialEq, Eq)]
pub struct BegunModule {
    /// Its number, from 1 on.
    pub number: u32,
    /// Where its image stands.
    pub place: ImagePlace,
}

/// Writes whether a module was begun, and where one was, that module.
#[tactic(auto, using(crate::proofs::Sending::writing), unfolding(crate::specs::BegunModules::begun_form))]
pub(crate) fn save_begun<S: Sink>(
    begun: Option<BegunModule>,
    encoder: &mut Encoder<'_, S>,
) -> Result<(), WriteFault>
    ensures written { Writes result (begun_form.spell begun) (place_of S.told encoder.old)
        (place_of S.told encoder.new) }
    ensures fits { OnOk result (begun_form.fits begun ≡ true) }
{
    save_flag(begun.is_some(), encoder)?;
    save_where(begun, encoder)
}

/// Reads whether a module was begun, and where one was, that module. None exactly where the bytes
/// at the front are none of it.
#[tactic(auto, unfolding(crate::specs::BegunModules::begun_form))]
pub(crate) fn restore_begun(decoder: &mut Decoder<'_>) -> Option<Option<BegunModule>>
    ensures { Reads begun_form result decoder.old decoder.new }
{
    let there = restore_flag(decoder)?;
    let begun = restore_where(there, decoder)?;
    Some(begun)
}

/// Writes a truth value.
#[tactic(auto, unfolding(crate::specs::BegunModules::flag_form, iop_snapshot::specs::Forms::item))]
fn save_flag<S: Sink>(there: bool, encoder: &mut Encoder<'_, S>) -> Result<(), WriteFault>
    ensures written { Writes result (flag_form.spell there) (place_of S.told encoder.old)
        (place_of S.told encoder.new) }
    ensures fits { flag_form.fits there ≡ true }
{
    encoder.item(&MODULE_PRESENT, &[u64::from(there)])
}

/// Writes a module, where there is one.
fn save_where<S: Sink>(
    begun: Option<BegunModule>,
    encoder: &mut Encoder<'_, S>,
) -> Result<(), WriteFault>
    ensures written { Writes result (spell_where module_form begun)
        (place_of S.told encoder.old) (place_of S.told encoder.new) }
    ensures fits { fits_where (is_some begun) module_form begun ≡ true }
{
    match begun {
        None => Ok(()),
        Some(module) => save_module(module, encoder),
    }
}

/// Writes a module.
#[tactic(auto, unfolding(crate::specs::BegunModules::module_form, iop_snapshot::specs::Forms::item))]
fn save_module<S: Sink>(module: BegunModule, encoder: &mut Encoder<'_, S>) -> Result<(), WriteFault>
    ensures written { Writes result (module_form.spell «module») (place_of S.told encoder.old)
        (place_of S.told encoder.new) }
    ensures fits { module_form.fits «module» ≡ true }
{
    encoder.item(&MODULE, &numbers_of_module(module))
}

/// Tells the numbers of a module.
fn numbers_of_module(module: BegunModule) -> [u64; 3]
    ensures numbers { result ≡ begun_numbers «module» }
    ensures fits { fits_item WIDTHS (begun_numbers «module») ≡ true }
{
    [
        u64::from(module.number),
        u64::from(module.place.base),
        u64::from(module.place.len),
    ]
}

/// Reads a truth value. None exactly where the bytes at the front are none.
#[tactic(auto, unfolding(crate::specs::BegunModules::flag_form, iop_snapshot::specs::Forms::item))]
fn restore_flag(decoder: &mut Decoder<'_>) -> Option<bool>
    ensures { Reads flag_form result decoder.old decoder.new }
{
    let mut numbers = [0; 1];
    decoder.item(&MODULE_PRESENT, &mut numbers)?;
    flag_of(numbers[0])
}

/// Reads a module, where there is one.
fn restore_where(there: bool, decoder: &mut Decoder<'_>) -> Option<Option<BegunModule>>
    ensures { Reads (present there module_form) result decoder.old decoder.new }
{
    if there {
        Some(Some(restore_module(decoder)?))
    } else {
        Some(None)
    }
}

/// Reads a module. None exactly where too few bytes are left.
#[tactic(auto, unfolding(crate::specs::BegunModules::module_form, iop_snapshot::specs::Forms::item))]
fn restore_module(decoder: &mut Decoder<'_>) -> Option<BegunModule>
    ensures { Reads module_form result decoder.old decoder.new }
{
    let mut numbers = [0; 3];
    decoder.item(&MODULE, &mut numbers)?;
    Some(BegunModule {
        number: numbers[0] as u32,
        place: ImagePlace {
            base: numbers[1] as u32,
            len: numbers[2] as u32,
        },
    })
}
