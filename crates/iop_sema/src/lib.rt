//! Semaphores: their counts, and the threads that wait for them.
#![tactic(auto)]

pub mod laws;
mod restoring;
mod semaphore;
mod semaphores;

pub use semaphore::{BY_PRIORITY, Semaphore};
pub use semaphores::Semaphores;
