/// A used range of RAM. Places are physical addresses.
#[derive(Clone, Copy, Debug, PartialEq, Eq)]
pub struct Block {
    /// The place of its first byte, a multiple of `BLOCK_UNIT`.
    pub start: u32,
    /// How many bytes it has, a multiple of `BLOCK_UNIT` and not 0.
    pub size: u32,
}
