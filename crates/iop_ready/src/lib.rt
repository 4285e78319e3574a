//! The list of the threads that are ready to run.
#![tactic(auto)]

mod entry;
mod kernel_ready;
pub mod laws;
mod plain_ready;
mod priority;
mod priority_set;
mod queue_ready;
mod ready;
mod slot;

pub use kernel_ready::KernelReady;
pub use plain_ready::PlainReady;
pub use priority::{LOWEST_PRIORITY, Priority};
pub use queue_ready::QueueReady;
pub use ready::Ready;
pub use slot::{MOST_THREADS, Slot};
