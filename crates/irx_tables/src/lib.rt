//! Import and export tables as they stand in memory.
#![tactic(auto)]

mod export_tables;
mod import_tables;
pub mod laws;
mod reading;
mod words;

pub use export_tables::{export_word, exports_count, header};
pub use import_tables::{Import, Next, imports, stub};
pub use reading::word;
pub use words::{HEADER_BYTES, MOST_FUNCTIONS};
