ghost use Rattle.std.specs.Prelude.{◌≡◌, option_map};
ghost use Rattle.irx_info.specs.Information.{information_of, information_in};

use byteorder::{ByteOrder, LittleEndian};
use iop_base::first_zero;

/// How many bytes the numbers of module information take; the name stands behind them.
pub const NUMBERS_SIZE: usize = 26;

/// What an IRX file says of its module (ps2sdk's iopmod section, a part of type 0x70000080).
///
/// Addresses and sizes are in bytes. Addresses count from the image's first byte.
#[derive(Clone, Copy, Debug, PartialEq, Eq)]
pub struct Info<'a> {
    /// The module's id word, which is read and not used.
    pub id: u32,
    /// Where the module's code is entered.
    pub entry: u32,
    /// What `$gp` is.
    pub gp: u32,
    /// How many bytes of code the image begins with.
    pub text_size: u32,
    /// How many bytes of data follow the code.
    pub data_size: u32,
    /// How many zero bytes follow the data.
    pub bss_size: u32,
    /// The module's version: major * 256 + minor.
    pub version: u16,
    /// The module's name, without the zero byte that ends it.
    pub name: &'a [u8],
}

/// Reads a part of module information: six words and a half word, little-endian, and a name up to
/// the first zero byte, which is lent from the part. Bytes behind that zero byte are not looked at.
///
/// `None` exactly where the part is shorter than 27 bytes or has no zero byte from place 26 on.
pub fn read_info<'a>(part: &'a [u8]) -> Option<Info<'a>>
    ensures { option_map information_of result ≡ information_in part.now }
{
    if part.len() <= NUMBERS_SIZE {
        return None;
    }
    let end = first_zero(&part[NUMBERS_SIZE..])?;
    Some(Info {
        id: LittleEndian::read_u32(part),
        entry: LittleEndian::read_u32(&part[4..]),
        gp: LittleEndian::read_u32(&part[8..]),
        text_size: LittleEndian::read_u32(&part[12..]),
        data_size: LittleEndian::read_u32(&part[16..]),
        bss_size: LittleEndian::read_u32(&part[20..]),
        version: LittleEndian::read_u16(&part[24..]),
        name: &part[NUMBERS_SIZE..NUMBERS_SIZE + end],
    })
}
