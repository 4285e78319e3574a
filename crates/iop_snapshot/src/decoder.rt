//! What reads the bytes of a snapshot.

ghost use Rattle.std.specs.Prelude.{◌≡◌, ◌<◌, ◌≤◌, None, Some, true, length, drop, IfNone, IfSome, OnSome, MatchOption, MatchBool};
ghost use Rattle.std.specs.List.{list_all};
ghost use Rattle.iop_snapshot.specs.Items.{is_width, fits_item, item_size, numbers_in, read_item, read_bytes};

use byteorder::{ByteOrder, LittleEndian};
use std::marker::Model;

/// Reads numbers and bytes from the bytes of a file, one behind the other. It takes no memory.
///
/// Its meaning is the bytes that are left.
#[derive(Drop)]
pub struct Decoder<'a> {
    rest: &'a [u8],
}

impl<'a> Model for Decoder<'a> {
    ghost use Rattle.std.specs.Prelude.{ℕ, List, All};
    ghost use Rattle.iop_base.specs.Numbers.{IsByte};

    ghost Value = { List ℕ };

    ghost view = { λ decoder. decoder.rest.now };

    ghost invariant = { λ decoder. All IsByte decoder.rest.now };
}

impl<'a> Decoder<'a> {
    /// A decoder at the first of these bytes.
    pub fn new(bytes: &'a [u8]) -> Self
        ensures { result ≡ bytes.now }
    {
        Decoder { rest: bytes }
    }

    /// How many bytes are left.
    pub fn left(&self) -> usize
        ensures { result ≡ length self.now }
    {
        self.rest.len()
    }

    /// Takes the next item: as many numbers as widths, each of 1, 2, 4 or 8 bytes, the lowest first.
    ///
    /// None exactly where fewer bytes are left than the item takes. Then nothing changes, in
    /// `values` neither.
    pub fn item(&mut self, widths: &[u8], values: &mut [u64]) -> Option<()>
        requires lengths { length values.old ≡ length widths.now }
        requires widths { list_all is_width widths.now ≡ true }
        ensures read { MatchOption result (read_item widths.now self.old ≡ None)
            (λ _. read_item widths.now self.old ≡ Some (values.new, self.new)) }
        ensures fits { OnSome result (fits_item widths.now values.new ≡ true) }
        ensures short { IfNone result (length self.old < item_size widths.now) }
        ensures none { IfNone result ((self.new ≡ self.old) × (values.new ≡ values.old)) }
    {
        if !have_room(self.rest, widths) {
            return None;
        }
        self.rest = fill(values, widths, self.rest);
        Some(())
    }

    /// Takes the next `len` bytes, which are lent from the file.
    ///
    /// None exactly where fewer are left, and then nothing changes.
    pub fn bytes(&mut self, len: u32) -> Option<&'a [u8]>
        ensures read { MatchOption result (read_bytes len self.old ≡ None)
            (λ bytes. read_bytes len self.old ≡ Some (bytes.now, self.new)) }
        ensures short { IfNone result (length self.old < len) }
        ensures none { IfNone result (self.new ≡ self.old) }
    {
        let len = len as usize;
        if self.left() < len {
            return None;
        }
        let (front, rest) = self.rest.split_at(len);
        self.rest = rest;
        Some(front)
    }
}

/// Whether numbers of these widths have room in the bytes.
fn have_room(bytes: &[u8], widths: &[u8]) -> bool
    ensures { MatchBool result (item_size widths.now ≤ length bytes.now)
        (length bytes.now < item_size widths.now) }
{
    let mut left = bytes.len();
    for width in widths {
        let width = usize::from(*width);
        if left < width {
            return false;
        }
        left -= width;
    }
    true
}

/// Fills in the numbers of these widths that stand at the front of the bytes, and answers the bytes
/// behind them.
fn fill<'a>(values: &mut [u64], widths: &[u8], bytes: &'a [u8]) -> &'a [u8]
    requires lengths { length values.old ≡ length widths.now }
    requires widths { list_all is_width widths.now ≡ true }
    requires room { item_size widths.now ≤ length bytes.now }
    ensures numbers { values.new ≡ numbers_in widths.now bytes.now }
    ensures behind { result.now ≡ drop (item_size widths.now) bytes.now }
{
    let mut rest = bytes;
    for (index, width) in widths.iter().enumerate() {
        let width = usize::from(*width);
        let (_, behind) = rest.split_at(width);
        values[index] = LittleEndian::read_uint(rest, width);
        rest = behind;
    }
    rest
}
