//! The head of a snapshot.

ghost use Rattle.std.specs.Prelude.{◌≡◌, true, IfSome};
ghost use Rattle.iop_base.specs.Places.{IsRamSize};
ghost use Rattle.iop_snapshot.specs.Items.{fits_item};
ghost use Rattle.iop_snapshot.specs.Reading.{Reads};
ghost use Rattle.iop_snapshot.specs.Writing.{place_of, Writes};
ghost use Rattle.iop_snapshot.specs.declared.widths.TheConstants.{HEAD as WIDTHS};
ghost use Rattle.iop_saved_machine.specs.Heads.{head_numbers, size_in, is_ram_size, head_form};

use iop_base::{LARGE_RAM, SMALL_RAM, WriteFault};
use iop_ports::Sink;
use iop_snapshot::widths::HEAD;
use iop_snapshot::{Decoder, Encoder};

/// The letters that a snapshot begins with.
pub(crate) const LETTERS: [u8; 8] = *b"IOPSNAP1";

/// How many bytes a MiB has.
pub(crate) const MIB: u32 = 0x10_0000;

/// Writes the head of a machine whose RAM has so many bytes, 2 MiB or 8 MiB.
#[tactic(auto, unfolding(crate::specs::Heads::head_form, iop_snapshot::specs::Forms::item))]
pub(crate) fn save_head<S: Sink>(size: u32, encoder: &mut Encoder<'_, S>) -> Result<(), WriteFault>
    requires sized { IsRamSize size }
    ensures written { Writes result (head_form.spell size) (place_of S.told encoder.old)
        (place_of S.told encoder.new) }
    ensures fits { head_form.fits size ≡ true }
{
    encoder.item(&HEAD, &numbers_of_head(size))
}

/// Reads a head and tells how many bytes RAM has. None exactly where the bytes at the front are
/// none.
#[tactic(auto, unfolding(crate::specs::Heads::head_form, iop_snapshot::specs::Forms::item))]
pub(crate) fn restore_head(decoder: &mut Decoder<'_>) -> Option<u32>
    ensures read { Reads head_form result decoder.old decoder.new }
    ensures sized { IfSome result IsRamSize }
{
    let mut numbers = [0; 9];
    decoder.item(&HEAD, &mut numbers)?;
    size_in(&numbers)
}

/// Tells the numbers of a head: the letters, and how many MiB these bytes are.
fn numbers_of_head(size: u32) -> [u64; 9]
    ensures numbers { result ≡ head_numbers size }
    ensures fits { fits_item WIDTHS (head_numbers size) ≡ true }
{
    let [a, b, c, d, e, f, g, h] = LETTERS;
    [
        u64::from(a),
        u64::from(b),
        u64::from(c),
        u64::from(d),
        u64::from(e),
        u64::from(f),
        u64::from(g),
        u64::from(h),
        u64::from(size / MIB),
    ]
}

/// Sees numbers as a head and tells how many bytes RAM has. None exactly where they are none.
fn size_in(numbers: &[u64; 9]) -> Option<u32>
    ensures size { result ≡ size_in numbers.now }
    ensures passes { IfSome result (λ size. is_ram_size size ≡ true) }
    ensures sized { IfSome result IsRamSize }
{
    if *numbers == numbers_of_head(SMALL_RAM) {
        return Some(SMALL_RAM);
    }
    if *numbers == numbers_of_head(LARGE_RAM) {
        return Some(LARGE_RAM);
    }
    None
}
