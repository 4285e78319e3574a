//! The parts of an IRX file, lent from its bytes.
#![tactic(auto)]

mod file_header;
pub mod format;
mod irx;
mod irx_file;
mod reading;
mod relocations;
mod section;
mod section_table;
mod segment;

pub use irx::Irx;
pub use relocations::{Lists, Relocations};
