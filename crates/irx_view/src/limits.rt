use iop_base::LARGE_RAM;

/// The most bytes that an image may have: 8 MiB, the size of the memory in which it is looked at.
pub const MOST_IMAGE: u32 = LARGE_RAM;
