//! The sizes of blocks of RAM.

ghost use Rattle.std.specs.Prelude.{◌≡◌, ◌+◌, ◌^◌, ◌≤◌};
ghost use Rattle.iop_base.specs.BlockSizes.{block_len};

/// How many bytes a unit of RAM has: each block starts at a multiple of it and has a multiple of
/// it.
pub const BLOCK_UNIT: u32 = 256;

/// How many bytes the block has that is made for `len` bytes: the least multiple of `BLOCK_UNIT`
/// that is not less. It fits 32 bits for every `len` up to 2^32 - `BLOCK_UNIT`.
pub fn block_len(len: u32) -> u32
    requires { len + BLOCK_UNIT ≤ 2 ^ 32 }
    ensures { result ≡ block_len len }
{
    len.div_ceil(BLOCK_UNIT) * BLOCK_UNIT
}
