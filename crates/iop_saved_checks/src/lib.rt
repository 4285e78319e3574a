//! Whether the tables of a kernel that was put back agree with each other and with memory.
#![tactic(auto)]

mod kernel;
pub mod laws;
mod made;
mod objects;
mod pools;
mod threads;
mod waited;
mod waiters;

pub use kernel::agrees;
