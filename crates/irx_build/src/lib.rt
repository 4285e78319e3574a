//! The IRX file of a module's unit.
#![tactic(auto)]

mod accepted_unit;
mod build_fault;
mod building;
mod headers;
pub mod laws;
mod layout;
mod writing;

pub use build_fault::BuildFault;
pub use building::{LARGEST_UNIT, LONGEST_NAME, SHORTEST_TEXT, build};
