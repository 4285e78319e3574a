//! How alarms and delays, interrupt lines, blocks, libraries and stubs stand in a snapshot.
#![tactic(auto)]

mod blocks;
pub mod laws;
mod libraries;
mod lines;
mod record;
mod stubs;
mod timers;

pub use blocks::{restore_blocks, save_blocks};
pub use libraries::{restore_libraries, save_libraries};
pub use lines::{restore_lines, save_lines};
pub use stubs::{put_stubs, restore_stubs, save_stubs};
pub use timers::{restore_alarms, restore_delays, save_alarms, save_delays};
