//! The command: the files that its words name, the run, and what it writes and answers.
#![tactic(auto)]

mod answering;
mod command;
mod dumping;
mod inputs;
mod keeping;
pub mod laws;
mod modules;
mod modules_to_load;
mod reading;
mod refusing;
mod running;
mod snapshots;
mod status;
mod unread;
mod unrestored;
mod words;

pub use command::iop_main;
pub use iop_generator::generate;
pub use iop_options::{DumpRange, Options, WordFault, parse_options};
pub use snapshots::LONGEST_SNAPSHOT;
pub use status::Status;
