//! Values that are spelled as one item, and lists of them.

ghost use Rattle.std.specs.Prelude.{◌≡◌, ◌<◌, ◌^◌, true, length, OnOk};
ghost use Rattle.iop_snapshot.specs.Forms.{Form, spell_list, fits_list};
ghost use Rattle.iop_snapshot.specs.Reading.{Reads};
ghost use Rattle.iop_snapshot.specs.Writing.{place_of, Writes};

use iop_base::WriteFault;
use iop_ports::Sink;
use iop_snapshot::{Decoder, Encoder, SaveItems, save_list};

/// A value that is spelled as one item.
pub(crate) trait Record: Copy {
    /// How it is spelled.
    ghost form: { Form Self };

    /// Writes it. It has a spelling.
    fn save<S: Sink>(self, encoder: &mut Encoder<'_, S>) -> Result<(), WriteFault>
        ensures written { Writes result (form.spell self) (place_of S.told encoder.old)
            (place_of S.told encoder.new) }
        ensures fits { form.fits self ≡ true };

    /// Reads one. None exactly where the bytes at the front are none.
    fn restore(decoder: &mut Decoder<'_>) -> Option<Self>
        ensures { Reads form result decoder.old decoder.new };
}

/// The records of a list that are still to be written.
#[derive(Drop)]
struct Records<'a, T> {
    records: &'a [T],
}

impl<T: Record> SaveItems<T> for Records<'_, T> {
    ghost ahead = { λ r xs. r.records.now ≡ xs };

    ghost form = { T.form };

    fn save_next<S: Sink>(&mut self, encoder: &mut Encoder<'_, S>) -> Result<(), WriteFault> {
        let Some((record, rest)) = self.records.split_first() else {
            return Ok(());
        };
        record.save(encoder)?;
        self.records = rest;
        Ok(())
    }
}

/// Writes a list of records.
pub(crate) fn save_records<T: Record, S: Sink>(
    records: &[T],
    encoder: &mut Encoder<'_, S>,
) -> Result<(), WriteFault>
    requires few { length records.now < 2 ^ 32 }
    ensures written { Writes result (spell_list T.form records.now) (place_of S.told encoder.old)
        (place_of S.told encoder.new) }
    ensures fits { OnOk result (fits_list (λ _. T.form) records.now ≡ true) }
{
    let count = records.len() as u32;
    save_list::<T, Records<'_, T>, S>(count, &mut Records { records }, encoder)
}
