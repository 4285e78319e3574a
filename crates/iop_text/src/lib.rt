//! Texts of bounded room, and what is appended to them: bytes, decimal numbers and hexadecimal
//! digits.
#![tactic(auto)]

mod appending;

pub use appending::{append, append_hex, append_hex_digits, append_number};
