//! How the script, and the modules that are left, stand in a snapshot.
#![tactic(auto)]

mod args;
mod bytes;
mod events;
pub mod laws;
mod list;
mod module;
mod modules;
mod named;
mod text;
mod words;

pub use args::{restore_args, save_args};
pub use events::{restore_events, save_events};
pub use module::Module;
pub use modules::{restore_modules, save_modules};
pub use named::{restore_named, save_named};
