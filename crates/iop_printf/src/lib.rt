//! Formatted text: what `printf` prints.
#![tactic(auto)]

mod arguments;
mod conversion;
mod formatting;
pub mod laws;
mod letter;
mod notation;
mod numerals;
mod reading;
mod strings;
mod texts;

pub use formatting::{format, format_regs};
pub use strings::string_at;

/// The length in bytes at which a text is cut, and the greatest value that a width or a precision
/// counts as. This project's profile.
pub const LONGEST: usize = 4096;
