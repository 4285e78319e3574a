//! The registry of libraries: by name and major version, the place of each library's export table.
#![tactic(auto)]

pub mod laws;
mod registry;

pub use registry::{
    Entry, FIRST_LIBRARIES, KERNEL_TABLE_LEN, KERNEL_TABLES_AT, LATER_TABLES_AT, MOST_LIBRARIES,
    Registry,
};
