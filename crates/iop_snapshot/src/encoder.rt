//! What writes the bytes of a snapshot.

ghost use Rattle.std.specs.Prelude.{◌≡◌, ◌<◌, ◌^◌, true};
ghost use Rattle.std.specs.List.{list_all};
ghost use Rattle.iop_base.specs.Numbers.{bytes_of};
ghost use Rattle.iop_snapshot.specs.Items.{is_width, fits_item, spell_item};
ghost use Rattle.iop_snapshot.specs.Writing.{place_of, Writes};

use byteorder::{ByteOrder, LittleEndian};
use iop_base::WriteFault;
use iop_ports::{Sink, send};

/// Writes numbers and bytes to a sink, one behind the other. It takes no memory.
#[derive(Drop)]
pub struct Encoder<'a, S: Sink> {
    sink: &'a mut S,
}

impl<'a, S: Sink> Encoder<'a, S> {
    /// An encoder that writes behind what this sink has taken.
    pub fn new(sink: &'a mut S) -> Self
        ensures told { (place_of S.told result).told ≡ S.told sink.old }
        ensures same_sink { (place_of S.told result).name ≡ sink.entry.ghost_name }
    {
        Encoder { sink }
    }

    /// Writes an item: as many numbers as widths, each of 1, 2, 4 or 8 bytes, the lowest first.
    ///
    /// It fails exactly where a write of the sink fails, which has then taken a front of the bytes.
    pub fn item(&mut self, widths: &[u8], values: &[u64]) -> Result<(), WriteFault>
        requires widths { list_all is_width widths.now ≡ true }
        requires fits { fits_item widths.now values.now ≡ true }
        ensures { Writes result (spell_item widths.now values.now) (place_of S.told self.old)
            (place_of S.told self.new) }
    {
        for (index, width) in widths.iter().enumerate() {
            self.number(*width, values[index])?;
        }
        Ok(())
    }

    /// Writes bytes. It fails as `item` does.
    pub fn bytes(&mut self, bytes: &[u8]) -> Result<(), WriteFault>
        ensures { Writes result bytes.now (place_of S.told self.old) (place_of S.told self.new) }
    {
        if send(self.sink, bytes) {
            Ok(())
        } else {
            Err(WriteFault)
        }
    }

    /// Writes a number in so many bytes, the lowest first.
    fn number(&mut self, width: u8, value: u64) -> Result<(), WriteFault>
        requires width { is_width width ≡ true }
        requires fits { value < 256 ^ width }
        ensures { Writes result (bytes_of width value) (place_of S.told self.old)
            (place_of S.told self.new) }
    {
        let width = usize::from(width);
        let mut bytes = [0; 8];
        LittleEndian::write_uint(&mut bytes, value, width);
        self.bytes(&bytes[..width])
    }
}
