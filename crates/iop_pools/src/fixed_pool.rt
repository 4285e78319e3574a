ghost use Rattle.std.specs.Prelude.{◌≡◌, ◌+◌, ◌^◌, ◌≤◌};
ghost use Rattle.iop_pools.specs.FixedPools.{bytes, block_for};

use crate::attribute::is_attribute;
use iop_base::Code;

/// The size of a block is a multiple of so many bytes.
pub const FIXED_UNIT: u32 = 4;

/// The greatest size of a block in bytes.
pub const MOST_BLOCK_BYTES: u32 = 0x1_0000;

/// The most blocks of a fixed pool.
pub const MOST_BLOCKS: usize = 1024;

/// What is known of a fixed pool.
#[derive(Clone, Copy, Debug, Drop, PartialEq, Eq)]
pub struct FixedPool {
    /// Its attribute: 0, or `BY_PRIORITY`.
    pub attr: u32,
    /// A word of the guest's own.
    pub option: u32,
    /// The address of its first byte.
    pub base: u32,
    /// How many bytes a block has.
    pub size: u32,
    /// How many blocks it has.
    pub count: u32,
    /// How many of them are free.
    pub free: u32,
}

/// Tells how many bytes a block of a size has.
pub(crate) fn block_for(size: u32) -> u32
    requires { size + FIXED_UNIT ≤ 2 ^ 32 }
    ensures { result ≡ block_for size }
{
    size.div_ceil(FIXED_UNIT) * FIXED_UNIT
}

/// Tells how many bytes a pool of so many blocks has. `ILLEGAL_ATTRIBUTE` exactly where the
/// attribute is neither 0 nor `BY_PRIORITY`, else `ILLEGAL_SIZE` exactly where the size is not 1 to
/// `MOST_BLOCK_BYTES`, or the count is not 1 to `MOST_BLOCKS`.
pub(crate) fn bytes(attr: u32, size: u32, count: u32) -> Result<u32, Code>
    ensures { result ≡ bytes attr size count }
{
    if !is_attribute(attr) {
        return Err(Code::ILLEGAL_ATTRIBUTE);
    }
    if size == 0 || size > MOST_BLOCK_BYTES || count == 0 || count > MOST_BLOCKS as u32 {
        return Err(Code::ILLEGAL_SIZE);
    }
    Ok(block_for(size) * count)
}
