//! How processors, threads and all threads of a table stand in a snapshot.
#![tactic(auto)]

mod cpu;
pub mod laws;
mod ready;
mod table;
mod thread;

pub use cpu::{restore_cpu, restore_kept, save_cpu};
pub use ready::{put_ready, restore_ready, save_ready};
pub use table::{restore_threads, save_threads};
pub use thread::{restore_thread, save_thread};
