//! Tables of the objects that threads wait for, with the queues of the threads that wait.
#![tactic(auto)]

pub mod laws;
mod objects;
mod restoring;
mod waiter;

pub use objects::{FIRST_ID, MOST_OBJECTS, MOST_WAITERS, Objects};
pub use waiter::Waiter;
