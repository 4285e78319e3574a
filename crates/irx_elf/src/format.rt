//! The numbers of an IRX file: the sizes of ELF's headers, and the types that make a file a module's
//! (ELF TIS 1.2, ps2sdk).

/// How a little-endian ELF file of 32 bits begins.
pub const MAGIC: [u8; 6] = [0x7f, b'E', b'L', b'F', 1, 1];

/// How many bytes a file header has.
pub const FILE_HEADER_SIZE: usize = 52;

/// How many bytes a program header has.
pub const SEGMENT_SIZE: u32 = 32;

/// How many bytes a section header has.
pub const SECTION_SIZE: u32 = 40;

/// How many bytes a relocation entry has.
pub const ENTRY_SIZE: u32 = 8;

/// The type of an IRX file (ps2sdk), in `e_type`.
pub const IRX: u16 = 0xff80;

/// The number of MIPS, in `e_machine`.
pub const MIPS: u16 = 8;

/// The type of the program header of the module information.
pub const MODULE_INFO: u32 = 0x7000_0080;

/// The type of the program header of the image, `PT_LOAD`.
pub const IMAGE: u32 = 1;

/// The type of a section of relocation entries without addends, `SHT_REL`.
pub const RELOCATIONS: u32 = 9;
