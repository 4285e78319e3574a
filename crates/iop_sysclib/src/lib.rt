//! The services of the kernel's library `sysclib`: memory, strings and numbers of the C library.
#![tactic(auto)]

mod addresses;
mod base;
mod comparing;
mod digits;
pub mod laws;
mod memory_calls;
mod numerals;
mod padded;
mod ranges;
mod reading;
mod serving;
mod sprintf;
mod string_calls;
mod string_places;
mod string_stores;
mod strtol;

pub use serving::serve_sysclib;
