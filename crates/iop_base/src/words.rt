//! Words of modules and of the guest's code that more than one crate writes or looks for.

/// `jr $ra` (MIPS I): the first word of each stub, and the second of each service of the kernel.
pub const JUMP_BACK: u32 = 0x03E0_0008;

/// `addiu $0, $0, 0` (MIPS I): the second word of the stub of function 0. That of function n is n more, as
/// ps2sdk's irx.h writes it.
pub const STUB_INDEX: u32 = 0x2400_0000;

/// The first word of an import table (ps2sdk's irx.h).
pub const IMPORT_MAGIC: u32 = 0x41E0_0000;

/// The first word of an export table (ps2sdk's irx.h).
pub const EXPORT_MAGIC: u32 = 0x41C0_0000;
