//! Pools of memory: variable pools, of which ranges of any size are taken, and fixed pools, of
//! which blocks of one size are taken, and the threads that wait for memory.
#![tactic(auto)]

mod attribute;
mod block_walk;
mod fixed_layout;
mod fixed_pool;
mod fixed_pools;
pub mod laws;
mod layout;
mod met;
mod out;
mod pools;
mod range;
mod range_walk;
mod variable_layout;
mod variable_pool;
mod variable_pools;
mod walks;

pub use attribute::BY_PRIORITY;
pub use block_walk::BlockWalk;
pub use fixed_layout::FixedLayout;
pub use fixed_pool::{FIXED_UNIT, FixedPool, MOST_BLOCK_BYTES, MOST_BLOCKS};
pub use fixed_pools::FixedPools;
pub use layout::{FIRST_BASE, Layout};
pub use met::Met;
pub use out::Out;
pub use range::Range;
pub use range_walk::RangeWalk;
pub use variable_layout::VariableLayout;
pub use variable_pool::{LEAST_BYTES, MOST_BYTES, MOST_RANGES, VARIABLE_UNIT, VariablePool};
pub use variable_pools::VariablePools;
