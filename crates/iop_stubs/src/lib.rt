//! The memory that a guest sees: RAM in which bound import stubs stand as jumps, and the list of
//! the live stubs.
#![tactic(auto)]

mod guest_memory;
pub mod laws;
mod live_stub;
mod live_stubs;
mod restoring;
mod stores;
mod word_set;

pub use guest_memory::Guest;
pub use live_stub::Stub;
