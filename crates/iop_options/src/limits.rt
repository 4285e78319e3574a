//! What the words of the command may ask for: this project's profile.

/// How many instructions a run may execute where the words do not say it.
pub const DEFAULT_BUDGET: u64 = 10_000_000;

/// How many instructions a run may be allowed at most.
pub const MOST_BUDGET: u64 = 1_000_000_000_000;

/// How many bytes a dump may have at most.
pub const LONGEST_DUMP: u32 = 0x1_0000;

/// How many digits a number of a dump may have at most.
pub(crate) const MOST_HEX_DIGITS: usize = 8;

/// How many bytes the name of a module's file, or of a snapshot's, may have at most.
pub const LONGEST_WORD: usize = 255;
