//! Control blocks that stand in lists: nodes linked both ways in tables of fixed length.
#![tactic(auto)]

mod arena;
pub mod laws;

pub use arena::Arena;
