//! The words of the command: which words are one, and what they choose.
#![tactic(auto)]

mod command;
mod copies;
mod dump_range;
mod fault;
pub mod laws;
mod limits;
mod modules;
mod names;
mod numbers;
mod options;
mod parsing;
mod ram_size;
mod values;

pub use dump_range::DumpRange;
pub use fault::WordFault;
pub use limits::{DEFAULT_BUDGET, LONGEST_DUMP, LONGEST_WORD, MOST_BUDGET};
pub use options::Options;
pub use parsing::parse_options;
pub use ram_size::RamSize;
