//! The blocks of the machine's memory: which ranges of RAM are used, and the calls that give and
//! free them.
#![tactic(auto)]

mod block;
mod blocks;
pub mod laws;
mod restoring;

pub use block::Block;
pub use blocks::{Blocks, KERNEL, NO_BLOCK, NOWHERE};
