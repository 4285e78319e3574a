//! Event flags: their patterns of bits, and the threads that wait for bits.
#![tactic(auto)]

mod event_flag;
mod event_flags;
pub mod laws;
mod met;
mod restoring;
mod wanted;

pub use event_flag::{EventFlag, MANY_WAITERS};
pub use event_flags::EventFlags;
pub use met::Met;
pub use wanted::{CLEAR, EITHER, Wanted, holds};
