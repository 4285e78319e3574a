//! The machine: RAM, the processor, the kernel, and the modules that it loads and runs.
#![tactic(auto)]

mod arguments;
mod burst;
mod events;
mod guest_bus;
mod iop;
mod kernel_area;
pub mod laws;
mod loading;
mod looking;
mod machine;
mod modules_left;
mod progress;
mod registers;
mod restored_loader;
mod restoring;
mod script_words;
mod services;
mod snapshots;

pub use arguments::{MOST_WORD_BYTES, MOST_WORDS};
pub use iop_saved_script::Module;
pub use machine::Machine;
