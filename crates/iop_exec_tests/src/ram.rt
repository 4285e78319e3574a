ghost use Rattle.std.specs.Prelude.{◌≡◌, ◌+◌, ◌<◌, ◌≤◌, IfSome, length, slice_index};
ghost use Rattle.iop_base.specs.Numbers.{number_at, bytes_of, width_bytes, with_bytes};
ghost use Rattle.iop_base.specs.Places.{access_at};

use iop_base::{Bad, Width};
use iop_exec::Bus;
use std::alloc::{AllocError, Global};

/// The bytes of a RAM.
#[derive(Drop)]
pub(crate) struct Ram {
    bytes: Vec<u8>,
}

impl Ram {
    /// Makes a RAM of these words from an address on, and of zeros before it.
    pub fn new(alloc: Global, start: u32, words: &[u32]) -> Result<Self, AllocError> {
        let mut bytes = Vec::new(alloc);
        for _ in 0..start {
            bytes.push(0)?;
        }
        for word in words {
            bytes.extend_from_slice(&word.to_le_bytes())?;
        }
        Ok(Ram { bytes })
    }

    /// Finds the place of an access of so many bytes.
    fn place(&self, at: u32, width: u32) -> Option<usize>
        requires { 0 < width }
        ensures place { result ≡ access_at (length self.now.bytes.items) at width }
        ensures within { IfSome result (λ p. p + width ≤ length self.now.bytes.items) }
    {
        let place = (at % 0x2000_0000) as usize;
        let mapped = matches!(at / 0x2000_0000, 0 | 4 | 5);
        if at % width == 0 && mapped && place + width as usize <= self.bytes.len() {
            Some(place)
        } else {
            None
        }
    }

    fn byte(&self, place: usize) -> u32
        requires { place < length self.now.bytes.items }
        ensures value { result ≡ slice_index self.now.bytes.items place }
        ensures below { result < 256 }
    {
        u32::from(self.bytes[place])
    }

    fn half(&self, place: usize) -> u32
        requires { place + 1 < length self.now.bytes.items }
        ensures value { result ≡ number_at self.now.bytes.items place 2 }
        ensures below { result < 65536 }
    {
        self.byte(place) + 256 * self.byte(place + 1)
    }

    /// Writes the lowest bytes of a value.
    fn put(&mut self, place: usize, count: u32, value: u32)
        requires { place + count ≤ length self.old.bytes.items }
        ensures { self.new.bytes.items
            ≡ with_bytes self.old.bytes.items place (bytes_of count value) }
    {
        if count > 0 {
            self.bytes[place] = (value % 256) as u8;
            self.put(place + 1, count - 1, value / 256);
        }
    }
}

impl Bus for Ram {
    ghost use Rattle.std.specs.Prelude.{◌≡◌, Some};
    ghost use Rattle.iop_base.specs.Places.{store_at};

    ghost bytes = { λ r. r.bytes.items };

    ghost stores = { λ r at width value after. Unit {0} };

    fn fetch(&self, at: u32) -> Result<u32, Bad> {
        self.load(at, Width::Word)
    }

    fn load(&self, at: u32, width: Width) -> Result<u32, Bad> {
        match width {
            Width::Byte => Ok(self.byte(self.place(at, 1).ok_or(Bad)?)),
            Width::Half => Ok(self.half(self.place(at, 2).ok_or(Bad)?)),
            Width::Word => {
                let place = self.place(at, 4).ok_or(Bad)?;
                Ok(self.half(place) + 65536 * self.half(place + 2))
            }
        }
    }

    fn store(&mut self, at: u32, width: Width, value: u32) -> Result<(), Bad> {
        let count = count_of(width);
        let place = self.place(at, count).ok_or(Bad)?;
        self.put(place, count, value);
        Ok(())
    }
}

/// Tells how many bytes an access has.
fn count_of(width: Width) -> u32
    ensures count { result ≡ width_bytes width }
    ensures some { 0 < result }
{
    match width {
        Width::Byte => 1,
        Width::Half => 2,
        Width::Word => 4,
    }
}
