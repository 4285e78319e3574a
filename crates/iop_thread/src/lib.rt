//! Threads: their records, which of them are ready, and which one runs.
#![tactic(auto)]

mod found;
mod kind;
pub mod laws;
mod moves;
mod param;
mod places;
mod reading;
mod restored_threads;
mod scheduling;
mod state;
mod thread;
mod threads;
mod wait;

pub use kind::Kind;
pub use param::Param;
pub use restored_threads::RestoredThreads;
pub use state::State;
pub use thread::{
    LOADER, LOADER_ATTRIBUTE, LOADER_PRIORITY, LOADER_STACK, LOADER_STACK_SIZE, MOST_WAKEUPS,
    THREAD_RETURN, Thread, registers_at,
};
pub use threads::Threads;
pub use wait::Wait;
