//! Instruction words as text, listings of memory, and registers that are read too soon.
#![tactic(auto)]

mod lines;
mod load_delay;
mod text;

pub use lines::listing;
pub use load_delay::read_too_soon;
pub use text::inst_text;
