//! Lists of bytes that are a text.

ghost use Rattle.std.specs.Prelude.{◌≡◌, Some, true, MatchResult, string_bytes};
ghost use Rattle.iop_snapshot.specs.Reading.{GivesNone};
ghost use Rattle.iop_snapshot.specs.Writing.{place_of, Writes};
ghost use Rattle.iop_saved_script.specs.Forms.{text_form};
ghost use Rattle.iop_saved_script.specs.Sizes.{IsShort};

use crate::bytes::{lend_bytes, save_bytes};
use iop_base::WriteFault;
use iop_ports::Sink;
use iop_snapshot::{Decoder, Encoder, SnapFault};
use std::alloc::Global;

/// Writes a text: how many bytes it has, and the bytes.
pub(crate) fn save_text<S: Sink>(text: &str, encoder: &mut Encoder<'_, S>) -> Result<(), WriteFault>
    requires { IsShort text.now }
    ensures written { Writes result (text_form.spell text.now) (place_of S.told encoder.old)
        (place_of S.told encoder.new) }
    ensures fits { text_form.fits text.now ≡ true }
{
    save_bytes(text.as_bytes(), encoder)
}

/// Reads a list of bytes that are a text. `Bad` exactly where there is none, or its bytes are no
/// UTF-8, unless memory runs out.
pub(crate) fn restore_text(alloc: Global, decoder: &mut Decoder<'_>) -> Result<String, SnapFault>
    ensures { let read = text_form.read decoder.old in
        MatchResult result (λ text. read ≡ Some (string_bytes text, decoder.new)) (GivesNone read) }
{
    let Some(bytes) = lend_bytes(decoder) else {
        return Err(SnapFault::Bad);
    };
    let Ok(text) = str::from_utf8(bytes) else {
        return Err(SnapFault::Bad);
    };
    Ok(String::from_str(alloc, text)?)
}
