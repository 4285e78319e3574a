//! The words of the script for modules by their numbers.

ghost use Rattle.std.specs.Prelude.{◌≡◌, Some, true, All, MatchResult, OnOk};
ghost use Rattle.iop_snapshot.specs.Reading.{GivesNone};
ghost use Rattle.iop_snapshot.specs.Writing.{place_of, Writes};
ghost use Rattle.iop_saved_script.specs.Forms.{args_form, list_of};
ghost use Rattle.iop_saved_script.specs.Sizes.{IsShort, ArgsAreShort};

use crate::list::{Spelled, restore_all, save_all};
use crate::words::{restore_words, save_words};
use iop_base::WriteFault;
use iop_ports::Sink;
use iop_script::Args;
use iop_snapshot::widths::ARGUMENTS_MODULE;
use iop_snapshot::{Decoder, Encoder, SnapFault};
use std::alloc::Global;

impl Spelled for Args {
    ghost form = { args_form };

    ghost IsSized = { ArgsAreShort };

    #[tactic(auto, using(iop_snapshot::proofs::Sending::writes_then, iop_snapshot::proofs::Sending::writes_exit), unfolding(crate::specs::Forms::args_form, iop_snapshot::specs::Forms::item))]
    fn save<S: Sink>(&self, encoder: &mut Encoder<'_, S>) -> Result<(), WriteFault> {
        encoder.item(&ARGUMENTS_MODULE, &[u64::from(self.module)])?;
        save_words(&self.words, encoder)
    }

    #[tactic(auto, unfolding(crate::specs::Forms::args_form, iop_snapshot::specs::Forms::item))]
    fn restore(alloc: Global, decoder: &mut Decoder<'_>) -> Result<Self, SnapFault> {
        let mut module = [0; 1];
        let Some(()) = decoder.item(&ARGUMENTS_MODULE, &mut module) else {
            return Err(SnapFault::Bad);
        };
        Ok(Args {
            module: module[0] as u32,
            words: restore_words(alloc, decoder)?,
        })
    }
}

/// Writes the words for modules by their numbers, in their order.
pub fn save_args<S: Sink>(args: &[Args], encoder: &mut Encoder<'_, S>) -> Result<(), WriteFault>
    requires few { IsShort args.now }
    requires words { All ArgsAreShort args.now }
    ensures written { Writes result ((list_of args_form).spell args.now)
        (place_of S.told encoder.old) (place_of S.told encoder.new) }
    ensures fits { OnOk result ((list_of args_form).fits args.now ≡ true) }
{
    save_all(args, encoder)
}

/// Reads the words for modules by their numbers. `Bad` exactly where no list of them can be read,
/// unless memory runs out.
pub fn restore_args(alloc: Global, decoder: &mut Decoder<'_>) -> Result<Vec<Args>, SnapFault>
    ensures { let read = (list_of args_form).read decoder.old in
        MatchResult result (λ args. read ≡ Some (args.items, decoder.new)) (GivesNone read) }
{
    restore_all(alloc, decoder)
}
