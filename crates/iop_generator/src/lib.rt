//! This project's own test module, whose source is given: any number of threads up to 250, which
//! sum under a counting semaphore.
#![tactic(auto)]

mod generating;
mod source;

pub use generating::{LONGEST_GENERATED, generate};
