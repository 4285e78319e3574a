//! Linking: the import stubs in a module's text become jumps to the functions of registered
//! libraries.
#![tactic(auto)]

mod binding;
mod checking;
pub mod laws;
mod library;
mod link_fault;
mod linking;

pub use link_fault::LinkFault;
pub use linking::link;
