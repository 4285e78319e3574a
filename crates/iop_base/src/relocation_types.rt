//! The types of relocation entries that a module has (System V ABI, MIPS supplement).

/// Nothing is changed.
pub const R_MIPS_NONE: u8 = 0;

/// The word becomes an address.
pub const R_MIPS_32: u8 = 2;

/// The low 26 bits become the target of a jump.
pub const R_MIPS_26: u8 = 4;

/// The low 16 bits become the high half of an address.
pub const R_MIPS_HI16: u8 = 5;

/// The low 16 bits become the low half of an address.
pub const R_MIPS_LO16: u8 = 6;
