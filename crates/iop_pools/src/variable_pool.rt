ghost use Rattle.std.specs.Prelude.{◌≡◌, ◌+◌, ◌^◌, ◌≤◌};
ghost use Rattle.iop_pools.specs.VariablePools.{bytes, pool_length};

use crate::attribute::is_attribute;
use iop_base::Code;

/// How many bytes a unit of a variable pool has: what is taken of it, and the pool, has so many
/// units.
pub const VARIABLE_UNIT: u32 = 16;

/// The smallest size of a variable pool in bytes.
pub const LEAST_BYTES: u32 = 16;

/// The greatest size of a variable pool in bytes.
pub const MOST_BYTES: u32 = 0x1_0000;

/// The most ranges that can be out of one variable pool.
pub const MOST_RANGES: usize = (MOST_BYTES / VARIABLE_UNIT) as usize;

/// What is known of a variable pool.
#[derive(Clone, Copy, Debug, Drop, PartialEq, Eq)]
pub struct VariablePool {
    /// Its attribute: 0, or `BY_PRIORITY`.
    pub attr: u32,
    /// A word of the guest's own.
    pub option: u32,
    /// The address of its first byte.
    pub base: u32,
    /// How many bytes it has.
    pub size: u32,
    /// How many of them are free.
    pub free: u32,
    /// The size of its greatest free range.
    pub greatest: u32,
}

/// Tells how many bytes a pool of a size has.
pub(crate) fn pool_length(size: u32) -> u32
    requires { size + VARIABLE_UNIT ≤ 2 ^ 32 }
    ensures { result ≡ pool_length size }
{
    size.div_ceil(VARIABLE_UNIT) * VARIABLE_UNIT
}

/// Tells how many bytes a pool of a size has. `ILLEGAL_ATTRIBUTE` exactly where the attribute is
/// neither 0 nor `BY_PRIORITY`, else `ILLEGAL_SIZE` exactly where the size is not `LEAST_BYTES` to
/// `MOST_BYTES`.
pub(crate) fn bytes(attr: u32, size: u32) -> Result<u32, Code>
    ensures { result ≡ bytes attr size }
{
    if !is_attribute(attr) {
        return Err(Code::ILLEGAL_ATTRIBUTE);
    }
    if size < LEAST_BYTES || size > MOST_BYTES {
        return Err(Code::ILLEGAL_SIZE);
    }
    Ok(pool_length(size))
}
