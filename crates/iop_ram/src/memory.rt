ghost use Rattle.std.specs.Prelude.{◌≡◌, ◌+◌, ◌≤◌, ℕ, IfOk, IfSome, IsSome, Some, is_ok, is_some};
ghost use Rattle.std.specs.Prelude.{unwrap_or, option_copied, length, slice_index};
ghost use Rattle.std.specs.Borrow.{sem};
ghost use Rattle.std.specs.Option.{ok_or};
ghost use Rattle.iop_base.specs.Numbers.{width_bytes, with_bytes};
ghost use Rattle.iop_base.specs.Places.{IsRamSize, phys, range_at, access_at, load_at, store_at};
ghost use Rattle.iop_base.specs.declared.width.Width.TheVariants.{Byte, Half, Word};
ghost use Rattle.iop_ram.specs.Windows.{window_of, store_bytes_at, LendsRange};

use byteorder::{ByteOrder, LittleEndian};
use iop_base::{Bad, Width};
use std::alloc::{AllocError, Global};
use std::marker::Model;

/// The physical place of an address in a RAM of `size` bytes. None exactly outside RAM.
///
/// The addresses from 0 on (KUSEG), from 0x80000000 on (KSEG0) and from 0xA0000000 on (KSEG1) name the
/// same RAM; every other address is outside.
pub fn physical(at: u32, size: u32) -> Option<u32>
    requires { IsRamSize size }
    ensures { result ≡ phys size at }
{
    if at < size {
        return Some(at);
    }
    let place = at % 0x2000_0000;
    match at / 0x2000_0000 {
        // Segment 0 was answered above; named here, the compiled loop is a fifth faster.
        0 | 4 | 5 if place < size => Some(place),
        _ => None,
    }
}

/// Bytes that are all zero.
fn zeroes(alloc: Global, len: usize) -> Result<Vec<u8>, AllocError>
    ensures sized { IfOk result (λ bytes. length bytes.items ≡ len) }
    ensures zero { IfOk result (λ bytes. (p : ℕ) → slice_index bytes.items p ≡ 0) }
{
    vec![in alloc; 0; len]
}

/// RAM of 2 MiB or 8 MiB. Numbers are unsigned and their lowest byte comes first (little-endian).
///
/// An address through KUSEG (from 0 on), KSEG0 (from 0x80000000 on) and KSEG1 (from 0xA0000000 on)
/// names the same RAM. Every other address is `Bad`, and so is one that is not a multiple of the width
/// that is read or written; nothing changes then. The clauses write that value `record {}`.
#[derive(Drop)]
pub struct Ram {
    bytes: Vec<u8>,
}

impl Model for Ram {
    ghost use Rattle.std.specs.Prelude.{ℕ, List, length};
    ghost use Rattle.iop_base.specs.Places.{IsRamSize};

    ghost Value = { List ℕ };

    ghost view = { λ ram. ram.bytes.items };

    ghost invariant = { λ ram. IsRamSize (length ram.bytes.items) };
}

impl Ram {
    /// Memory of `size` bytes, 2 MiB or 8 MiB, that is all zero.
    pub fn new(alloc: Global, size: u32) -> Result<Self, AllocError>
        requires { IsRamSize size }
        ensures sized { IfOk result (λ ram. length ram ≡ size) }
        ensures zero { IfOk result (λ ram. (p : ℕ) → slice_index ram p ≡ 0) }
    {
        let bytes = zeroes(alloc, size as usize)?;
        Ok(Ram { bytes })
    }

    /// Memory that holds a copy of these bytes: 2 MiB or 8 MiB of them.
    pub fn of_bytes(alloc: Global, bytes: &[u8]) -> Result<Self, AllocError>
        requires { IsRamSize (length bytes.now) }
        ensures { IfOk result (λ ram. ram ≡ bytes.now) }
    {
        Ok(Ram {
            bytes: bytes.to_vec(alloc)?,
        })
    }

    /// How many bytes it has: 2 MiB or 8 MiB.
    pub fn size(&self) -> u32
        ensures value { result ≡ length self.now }
        ensures sized { IsRamSize (length self.now) }
    {
        self.bytes.len() as u32
    }

    /// The place of a range that lies wholly in RAM.
    fn range(&self, at: u32, len: usize) -> Option<usize>
        ensures place { result ≡ range_at (length self.now) at len }
        ensures inside { IfSome result (λ p. p + len ≤ length self.now) }
        ensures sized { IsRamSize (length self.now) }
    {
        let place = physical(at, self.size())? as usize;
        (len <= self.bytes.len() - place).then_some(place)
    }

    /// The place of an access of this width.
    fn access(&self, at: u32, width: Width) -> Result<usize, Bad>
        ensures place { let place = access_at (length self.now) at (width_bytes width) in
            result ≡ ok_or place (record {}) }
        ensures inside { IfOk result (λ p. p + width_bytes width ≤ length self.now) }
        ensures sized { IsRamSize (length self.now) }
    {
        let len = width.bytes();
        let place = self.range(at, len).ok_or(Bad)?;
        if at as usize % len == 0 {
            Ok(place)
        } else {
            Err(Bad)
        }
    }

    /// The byte at an address. `Bad` outside RAM.
    pub fn load8(&self, at: u32) -> Result<u8, Bad>
        ensures value { result ≡ ok_or (load_at self.now at Byte) (record {}) }
        ensures sized { IsRamSize (length self.now) }
    {
        let place = self.access(at, Width::Byte)?;
        Ok(self.bytes[place])
    }

    /// The half word at an address. `Bad` outside RAM and at an odd address.
    pub fn load16(&self, at: u32) -> Result<u16, Bad>
        ensures value { result ≡ ok_or (load_at self.now at Half) (record {}) }
        ensures sized { IsRamSize (length self.now) }
    {
        let place = self.access(at, Width::Half)?;
        Ok(LittleEndian::read_u16(&self.bytes[place..]))
    }

    /// The word at an address. `Bad` outside RAM and at an address that is not a multiple of 4.
    pub fn load32(&self, at: u32) -> Result<u32, Bad>
        ensures value { result ≡ ok_or (load_at self.now at Word) (record {}) }
        ensures sized { IsRamSize (length self.now) }
    {
        let place = self.access(at, Width::Word)?;
        Ok(LittleEndian::read_u32(&self.bytes[place..]))
    }

    /// Stores a byte. `Bad` outside RAM.
    pub fn store8(&mut self, at: u32, value: u8) -> Result<(), Bad>
        ensures accepted { is_ok result ≡ is_some (store_at self.old at Byte value) }
        ensures memory { self.new ≡ unwrap_or (store_at self.old at Byte value) self.old }
        ensures same_size { length self.new ≡ length self.old }
        ensures sized { IsRamSize (length self.new) }
    {
        let place = self.access(at, Width::Byte)?;
        self.put(place, &[value]);
        Ok(())
    }

    /// Stores a half word. `Bad` outside RAM and at an odd address.
    pub fn store16(&mut self, at: u32, value: u16) -> Result<(), Bad>
        ensures accepted { is_ok result ≡ is_some (store_at self.old at Half value) }
        ensures memory { self.new ≡ unwrap_or (store_at self.old at Half value) self.old }
        ensures same_size { length self.new ≡ length self.old }
        ensures sized { IsRamSize (length self.new) }
    {
        let place = self.access(at, Width::Half)?;
        self.put(place, &value.to_le_bytes());
        Ok(())
    }

    /// Stores a word. `Bad` outside RAM and at an address that is not a multiple of 4.
    pub fn store32(&mut self, at: u32, value: u32) -> Result<(), Bad>
        ensures accepted { is_ok result ≡ is_some (store_at self.old at Word value) }
        ensures memory { self.new ≡ unwrap_or (store_at self.old at Word value) self.old }
        ensures same_size { length self.new ≡ length self.old }
        ensures sized { IsRamSize (length self.new) }
    {
        let place = self.access(at, Width::Word)?;
        self.put(place, &value.to_le_bytes());
        Ok(())
    }

    /// Stores bytes from an address on. `Bad` exactly where their range is not wholly in RAM, also for no
    /// byte: the address itself names a place in RAM, and the end is at most its size. They need not be
    /// aligned.
    pub fn store_bytes(&mut self, at: u32, bytes: &[u8]) -> Result<(), Bad>
        ensures accepted { is_ok result ≡ is_some (store_bytes_at self.old at bytes.now) }
        ensures memory { self.new ≡ unwrap_or (store_bytes_at self.old at bytes.now) self.old }
        ensures same_size { length self.new ≡ length self.old }
        ensures sized { IsRamSize (length self.new) }
    {
        let place = self.range(at, bytes.len()).ok_or(Bad)?;
        self.put(place, bytes);
        Ok(())
    }

    /// Puts bytes at a physical place.
    fn put(&mut self, place: usize, bytes: &[u8])
        requires { place + length bytes.now ≤ length self.old }
        ensures memory { self.new ≡ with_bytes self.old place bytes.now }
        ensures same_size { length self.new ≡ length self.old }
        ensures sized { IsRamSize (length self.new) }
    {
        self.bytes[place..place + bytes.len()].copy_from_slice(bytes);
    }

    /// The bytes of a range of `len` bytes. None exactly where it is not wholly in RAM, also for a `len`
    /// of 0: the address itself names a place in RAM, and the end is at most its size.
    pub fn window(&self, at: u32, len: u32) -> Option<&[u8]>
        ensures window { option_copied result ≡ window_of self.now at len }
        ensures sized { IsRamSize (length self.now) }
    {
        let place = self.range(at, len as usize)?;
        Some(&self.bytes[place..place + len as usize])
    }

    /// Whether a range of `len` bytes lies wholly in RAM, also for a `len` of 0: the address itself
    /// names a place in RAM, and the end is at most its size.
    pub fn contains(&self, at: u32, len: u32) -> bool
        ensures { result ≡ is_some (range_at (length self.now) at len) }
    {
        self.range(at, len as usize).is_some()
    }

    /// Lends the bytes of a range for writing: what they are when the loan ends is what RAM holds.
    /// The range lies wholly in RAM (`contains`).
    pub fn window_mut(&mut self, at: u32, len: u32) -> &mut [u8]
        requires { IsSome (range_at (length self.old) at len) }
        ensures* writes_back { sem 𝓛 (LendsRange self.entry at len result) }
        ensures window { Some result.now ≡ window_of self.old at len }
        ensures len { length result.now ≡ len }
    {
        let place = self.range(at, len as usize).unwrap();
        self.bytes.slice_mut(place..place + len as usize)
    }
}
