//! Words that modules are handed.

ghost use Rattle.std.specs.Prelude.{◌≡◌, Some, true, MatchResult, OnOk};
ghost use Rattle.iop_snapshot.specs.Reading.{GivesNone};
ghost use Rattle.iop_snapshot.specs.Writing.{place_of, Writes};
ghost use Rattle.iop_saved_script.specs.Forms.{bytes_form, words_form};
ghost use Rattle.iop_saved_script.specs.Sizes.{IsShort, WordsAreShort};

use crate::bytes::{restore_bytes, save_bytes};
use crate::list::{Spelled, restore_all, save_all};
use iop_base::WriteFault;
use iop_ports::Sink;
use iop_script::Word;
use iop_snapshot::{Decoder, Encoder, SnapFault};
use std::alloc::Global;

impl Spelled for Word {
    ghost form = { bytes_form };

    ghost IsSized = { IsShort };

    fn save<S: Sink>(&self, encoder: &mut Encoder<'_, S>) -> Result<(), WriteFault> {
        save_bytes(&self.bytes, encoder)
    }

    fn restore(alloc: Global, decoder: &mut Decoder<'_>) -> Result<Self, SnapFault> {
        let bytes = restore_bytes(alloc, decoder)?;
        Ok(Word { bytes })
    }
}

/// Writes words, in their order.
#[tactic(auto, unfolding(crate::specs::Forms::words_form))]
pub(crate) fn save_words<S: Sink>(
    words: &[Word],
    encoder: &mut Encoder<'_, S>,
) -> Result<(), WriteFault>
    requires { WordsAreShort words.now }
    ensures written { Writes result (words_form.spell words.now) (place_of S.told encoder.old)
        (place_of S.told encoder.new) }
    ensures fits { OnOk result (words_form.fits words.now ≡ true) }
{
    save_all(words, encoder)
}

/// Reads words. `Bad` exactly where no list of words can be read, unless memory runs out.
#[tactic(auto, unfolding(crate::specs::Forms::words_form))]
pub(crate) fn restore_words(
    alloc: Global,
    decoder: &mut Decoder<'_>,
) -> Result<Vec<Word>, SnapFault>
    ensures { let read = words_form.read decoder.old in
        MatchResult result (λ words. read ≡ Some (words.items, decoder.new)) (GivesNone read) }
{
    restore_all(alloc, decoder)
}
