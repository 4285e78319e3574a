//! What a module may take: this project's profile.

/// The most bytes that a module's file may have.
pub const LONGEST_FILE: u32 = 4_194_304;
