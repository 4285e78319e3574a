//! How a whole machine stands in a snapshot: as the bytes of a file.
#![tactic(auto)]

mod begun_module;
mod head;
pub mod laws;
mod lent;
mod loading;
mod machine;
mod memory;
mod rest;
mod tables;

pub use begun_module::BegunModule;
pub use lent::LentMachine;
pub use loading::Loading;
pub use machine::{RestoredMachine, restore_machine};
