//! Sizes and limits of import and export tables (ps2sdk's irx.h).

/// The bytes of an import or an export table before its stubs or functions.
pub const HEADER_BYTES: u32 = 20;

/// The most functions of an export table that count. It is this project's own profile.
pub const MOST_FUNCTIONS: u32 = 1024;
