//! Values that are spelled as one item.

ghost use Rattle.std.specs.Prelude.{◌≡◌, true};
ghost use Rattle.iop_snapshot.specs.Forms.{Form};
ghost use Rattle.iop_snapshot.specs.Reading.{Reads};
ghost use Rattle.iop_snapshot.specs.Writing.{place_of, Writes};

use iop_base::WriteFault;
use iop_ports::Sink;
use iop_snapshot::{Decoder, Encoder};

/// A value that is spelled as one item.
pub(crate) trait Record: Copy {
    /// How it is spelled.
    ghost form: { Form Self };

    /// Writes it. It has a spelling.
    fn save<S: Sink>(self, encoder: &mut Encoder<'_, S>) -> Result<(), WriteFault>
        ensures written { Writes result (form.spell self) (place_of S.told encoder.old)
            (place_of S.told encoder.new) }
        ensures fits { form.fits self ≡ true };

    /// Reads one. None exactly where the bytes at the front are none.
    fn restore(decoder: &mut Decoder<'_>) -> Option<Self>
        ensures { Reads form result decoder.old decoder.new };
}
