//! The text of a trace line and of a line of a dump, and what takes lines and texts over two sinks.
#![tactic(auto)]

mod dump;
mod text;
mod two_sinks;

pub use dump::{BYTES_IN_LINE, DUMP_ROOM, dump_line};
pub use text::line_text;
pub use two_sinks::Out;
