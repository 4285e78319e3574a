//! Numbers at the end of a file, the lowest byte first.

ghost use Rattle.std.specs.Prelude.{◌≡◌, ◌++◌, ◌<◌, ◌^◌, OnOk};
ghost use Rattle.irx_build.specs.Files.{halves, words, padding};

use crate::layout::ALIGNMENT;
use byteorder::{ByteOrder, LittleEndian};
use std::alloc::AllocError;

/// Adds half words.
pub(crate) fn push_halves(file: &mut Vec<u8>, numbers: &[u16]) -> Result<(), AllocError>
    ensures { OnOk result (file.new.items ≡ file.old.items ++ halves numbers.now) }
{
    for number in numbers {
        let mut bytes = [0; 2];
        LittleEndian::write_u16(&mut bytes, *number);
        file.extend_from_slice(&bytes)?;
    }
    Ok(())
}

/// Adds words.
pub(crate) fn push_words(file: &mut Vec<u8>, numbers: &[u32]) -> Result<(), AllocError>
    ensures { OnOk result (file.new.items ≡ file.old.items ++ words numbers.now) }
{
    for number in numbers {
        let mut bytes = [0; 4];
        LittleEndian::write_u32(&mut bytes, *number);
        file.extend_from_slice(&bytes)?;
    }
    Ok(())
}

/// Adds the zeros that follow so many bytes, up to a multiple of 4.
pub(crate) fn push_padding(file: &mut Vec<u8>, size: u32) -> Result<(), AllocError>
    requires { size < 2 ^ 31 }
    ensures { OnOk result (file.new.items ≡ file.old.items ++ padding size) }
{
    let count = size.next_multiple_of(ALIGNMENT) - size;
    for _ in 0..count {
        file.push(0)?;
    }
    Ok(())
}
