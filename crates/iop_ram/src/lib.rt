//! The memory of the machine.
#![tactic(auto)]

mod memory;

pub use memory::{Ram, physical};
