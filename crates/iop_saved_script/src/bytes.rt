//! Lists of bytes.

ghost use Rattle.std.specs.Prelude.{◌≡◌, Some, None, true, MatchOption, MatchResult};
ghost use Rattle.iop_snapshot.specs.Reading.{GivesNone};
ghost use Rattle.iop_snapshot.specs.Writing.{place_of, Writes};
ghost use Rattle.iop_saved_script.specs.Forms.{bytes_form};
ghost use Rattle.iop_saved_script.specs.Sizes.{IsShort};

use iop_base::WriteFault;
use iop_ports::Sink;
use iop_snapshot::widths::COUNT;
use iop_snapshot::{Decoder, Encoder, SnapFault};
use std::alloc::Global;

/// Writes a list of bytes: how many, and the bytes.
#[tactic(auto, using(iop_snapshot::proofs::Sending::writes_then, iop_snapshot::proofs::Sending::writes_exit), unfolding(crate::specs::Forms::bytes_form, iop_snapshot::specs::Forms::item, iop_snapshot::specs::Forms::bytes))]
pub(crate) fn save_bytes<S: Sink>(
    bytes: &[u8],
    encoder: &mut Encoder<'_, S>,
) -> Result<(), WriteFault>
    requires { IsShort bytes.now }
    ensures written { Writes result (bytes_form.spell bytes.now) (place_of S.told encoder.old)
        (place_of S.told encoder.new) }
    ensures fits { bytes_form.fits bytes.now ≡ true }
{
    encoder.item(&COUNT, &[bytes.len() as u64])?;
    encoder.bytes(bytes)
}

/// Lends the next list of bytes. None exactly where there is none.
#[tactic(auto, unfolding(crate::specs::Forms::bytes_form, iop_snapshot::specs::Forms::item, iop_snapshot::specs::Forms::bytes))]
pub(crate) fn lend_bytes<'a>(decoder: &mut Decoder<'a>) -> Option<&'a [u8]>
    ensures { MatchOption result (bytes_form.read decoder.old ≡ None)
        (λ bytes. bytes_form.read decoder.old ≡ Some (bytes.now, decoder.new)) }
{
    let mut count = [0; 1];
    let Some(()) = decoder.item(&COUNT, &mut count) else {
        return None;
    };
    decoder.bytes(count[0] as u32)
}

/// Reads a list of bytes. `Bad` exactly where there is none, unless memory runs out.
pub(crate) fn restore_bytes(alloc: Global, decoder: &mut Decoder<'_>) -> Result<Vec<u8>, SnapFault>
    ensures { let read = bytes_form.read decoder.old in
        MatchResult result (λ bytes. read ≡ Some (bytes.items, decoder.new)) (GivesNone read) }
{
    let Some(bytes) = lend_bytes(decoder) else {
        return Err(SnapFault::Bad);
    };
    Ok(Vec::from_slice(alloc, bytes)?)
}
