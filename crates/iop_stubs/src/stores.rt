//! Stores into RAM of which no stub is told yet.

ghost use Rattle.std.specs.Prelude.{◌≡◌, ◌+◌, ◌%◌, ◌^◌, ◌≤◌, All, length};
ghost use Rattle.std.specs.Prelude.{IfOk, IfSome, OnErr};
ghost use Rattle.std.specs.Fn.{FnOnceReturnsAtMut};
ghost use Rattle.std.specs.Option.{ok_or};
ghost use Rattle.iop_base.specs.Numbers.{IsByte, width_bytes, bytes_of, with_bytes};
ghost use Rattle.iop_base.specs.Places.{range_at, access_at};
ghost use Rattle.iop_stubs.specs.Lending.{range_bytes};

use iop_base::{Bad, Width};
use iop_ram::{Ram, physical};

/// Stores a number of this width, and gives its place. `Bad` as `Guest::store` says.
pub(crate) fn store_number(ram: &mut Ram, at: u32, width: Width, value: u32) -> Result<u32, Bad>
    ensures place { result ≡ ok_or (access_at (length ram.old) at (width_bytes width)) (record {}) }
    ensures inside { IfOk result (λ place. place + width_bytes width ≤ length ram.old) }
    ensures memory { IfOk result (λ place.
        ram.new ≡ with_bytes ram.old place (bytes_of (width_bytes width) value)) }
    ensures same { OnErr result (ram.new ≡ ram.old) }
{
    match width {
        Width::Byte => ram.store8(at, (value % 0x100) as u8),
        Width::Half => ram.store16(at, (value % 0x1_0000) as u16),
        Width::Word => ram.store32(at, value),
    }?;
    physical(at, ram.size()).ok_or(Bad)
}

/// Stores bytes, and gives their place. `Bad` as `Guest::store_bytes` says.
pub(crate) fn put_bytes(ram: &mut Ram, at: u32, bytes: &[u8]) -> Result<u32, Bad>
    ensures place { result ≡ ok_or (range_at (length ram.old) at (length bytes.now)) (record {}) }
    ensures inside { IfOk result (λ place. place + length bytes.now ≤ length ram.old) }
    ensures memory { IfOk result (λ place. ram.new ≡ with_bytes ram.old place bytes.now) }
    ensures same { OnErr result (ram.new ≡ ram.old) }
{
    ram.store_bytes(at, bytes)?;
    physical(at, ram.size()).ok_or(Bad)
}

/// Finds the place of a range. None where it is not wholly in RAM.
pub(crate) fn find_range(ram: &Ram, at: u32, len: u32) -> Option<u32>
    ensures place { result ≡ range_at (length ram.now) at len }
    ensures inside { IfSome result (λ place. place + len ≤ length ram.now) }
{
    if ram.contains(at, len) {
        physical(at, ram.size())
    } else {
        None
    }
}

/// Calls `write` on the bytes of a window.
pub(crate) fn write_into<R, F: FnOnce(&mut [u8]) -> R>(window: &mut [u8], write: F) -> R
    requires { (bytes : _) → length bytes.now ≡ length window.old → F.pre write bytes }
    ensures called { FnOnceReturnsAtMut F.FnOnce write window.old result window.new }
    ensures bytes { All IsByte window.new }
{
    write(window)
}

/// Stores a word.
pub(crate) fn store_word(ram: &mut Ram, place: u32, word: u32)
    requires aligned { place % 4 ≡ 0 }
    requires inside { place + 4 ≤ length ram.old }
    requires sized { length ram.old ≤ 2 ^ 29 }
    ensures { ram.new ≡ with_bytes ram.old place (bytes_of 4 word) }
{
    ram.store32(place, word).unwrap();
}

/// Stores at `place` the bytes that RAM holds from `source` on.
pub(crate) fn move_bytes(ram: &mut Ram, place: u32, source: u32, len: u32)
    requires source { source + len ≤ length ram.old }
    requires place { place + len ≤ length ram.old }
    ensures { ram.new ≡ with_bytes ram.old place (range_bytes ram.old (Some source) len) }
{
    let all = ram.window_mut(0, ram.size());
    all.copy_within(source as usize..(source + len) as usize, place as usize);
}
