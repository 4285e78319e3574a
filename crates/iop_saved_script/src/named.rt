//! The words of the script for modules by their names.

ghost use Rattle.std.specs.Prelude.{◌≡◌, Some, true, All, MatchResult, OnOk};
ghost use Rattle.iop_snapshot.specs.Reading.{GivesNone};
ghost use Rattle.iop_snapshot.specs.Writing.{place_of, Writes};
ghost use Rattle.iop_saved_script.specs.Forms.{named_form, list_of};
ghost use Rattle.iop_saved_script.specs.Sizes.{IsShort, NamedIsShort};

use crate::bytes::{restore_bytes, save_bytes};
use crate::list::{Spelled, restore_all, save_all};
use crate::words::{restore_words, save_words};
use iop_base::WriteFault;
use iop_ports::Sink;
use iop_script::Named;
use iop_snapshot::{Decoder, Encoder, SnapFault};
use std::alloc::Global;

impl Spelled for Named {
    ghost form = { named_form };

    ghost IsSized = { NamedIsShort };

    #[tactic(auto, using(iop_snapshot::proofs::Sending::writes_then, iop_snapshot::proofs::Sending::writes_exit), unfolding(crate::specs::Forms::named_form))]
    fn save<S: Sink>(&self, encoder: &mut Encoder<'_, S>) -> Result<(), WriteFault> {
        save_bytes(&self.name, encoder)?;
        save_words(&self.words, encoder)
    }

    #[tactic(auto, unfolding(crate::specs::Forms::named_form))]
    fn restore(alloc: Global, decoder: &mut Decoder<'_>) -> Result<Self, SnapFault> {
        Ok(Named {
            name: restore_bytes(alloc, decoder)?,
            words: restore_words(alloc, decoder)?,
        })
    }
}

/// Writes the words for modules by their names, in their order.
pub fn save_named<S: Sink>(named: &[Named], encoder: &mut Encoder<'_, S>) -> Result<(), WriteFault>
    requires few { IsShort named.now }
    requires words { All NamedIsShort named.now }
    ensures written { Writes result ((list_of named_form).spell named.now)
        (place_of S.told encoder.old) (place_of S.told encoder.new) }
    ensures fits { OnOk result ((list_of named_form).fits named.now ≡ true) }
{
    save_all(named, encoder)
}

/// Reads the words for modules by their names. `Bad` exactly where no list of them can be read,
/// unless memory runs out.
pub fn restore_named(alloc: Global, decoder: &mut Decoder<'_>) -> Result<Vec<Named>, SnapFault>
    ensures { let read = (list_of named_form).read decoder.old in
        MatchResult result (λ named. read ≡ Some (named.items, decoder.new)) (GivesNone read) }
{
    restore_all(alloc, decoder)
}
