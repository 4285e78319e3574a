//! The module information of an IRX file.
#![tactic(auto)]

mod info;

pub use info::{Info, NUMBERS_SIZE, read_info};
