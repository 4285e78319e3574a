//! The modules that were not loaded yet.

ghost use Rattle.std.specs.Prelude.{◌≡◌, Some, true, All, MatchResult, OnOk};
ghost use Rattle.iop_snapshot.specs.Reading.{GivesNone};
ghost use Rattle.iop_snapshot.specs.Writing.{place_of, Writes};
ghost use Rattle.iop_saved_script.specs.Forms.{file_form, list_of};
ghost use Rattle.iop_saved_script.specs.Sizes.{IsShort, FileIsShort};

use crate::bytes::{restore_bytes, save_bytes};
use crate::list::{Spelled, restore_all, save_all};
use crate::module::Module;
use crate::text::{restore_text, save_text};
use iop_base::WriteFault;
use iop_ports::Sink;
use iop_snapshot::{Decoder, Encoder, SnapFault};
use std::alloc::Global;

impl Spelled for Module {
    ghost form = { file_form };

    ghost IsSized = { FileIsShort };

    #[tactic(auto, using(iop_snapshot::proofs::Sending::writes_then, iop_snapshot::proofs::Sending::writes_exit), unfolding(crate::specs::Forms::file_form))]
    fn save<S: Sink>(&self, encoder: &mut Encoder<'_, S>) -> Result<(), WriteFault> {
        save_text(&self.name, encoder)?;
        save_bytes(&self.file, encoder)
    }

    #[tactic(auto, unfolding(crate::specs::Forms::file_form))]
    fn restore(alloc: Global, decoder: &mut Decoder<'_>) -> Result<Self, SnapFault> {
        Ok(Module {
            name: restore_text(alloc, decoder)?,
            file: restore_bytes(alloc, decoder)?,
        })
    }
}

/// Writes modules, in their order.
pub fn save_modules<S: Sink>(
    modules: &[Module],
    encoder: &mut Encoder<'_, S>,
) -> Result<(), WriteFault>
    requires few { IsShort modules.now }
    requires bytes { All FileIsShort modules.now }
    ensures written { Writes result ((list_of file_form).spell modules.now)
        (place_of S.told encoder.old) (place_of S.told encoder.new) }
    ensures fits { OnOk result ((list_of file_form).fits modules.now ≡ true) }
{
    save_all(modules, encoder)
}

/// Reads modules. `Bad` exactly where no list of modules can be read whose names are texts, unless
/// memory runs out.
pub fn restore_modules(alloc: Global, decoder: &mut Decoder<'_>) -> Result<Vec<Module>, SnapFault>
    ensures { let read = (list_of file_form).read decoder.old in
        MatchResult result (λ modules. read ≡ Some (modules.items, decoder.new)) (GivesNone read) }
{
    restore_all(alloc, decoder)
}
