//! How semaphores, event flags, mailboxes and pools stand in a snapshot, with the threads that wait
//! for them.
#![tactic(auto)]

mod event_flags;
mod fixed_pools;
mod head;
pub mod laws;
mod listing;
mod mailboxes;
mod objects;
mod parts;
mod priorities;
mod putting;
mod record;
mod semaphores;
mod variable_pools;
mod waiters;

pub use event_flags::{restore_event_flags, save_event_flags};
pub use fixed_pools::{restore_fixed_pools, save_fixed_pools};
pub use head::Head;
pub use mailboxes::{restore_mailboxes, save_mailboxes};
pub use priorities::Priorities;
pub use semaphores::{restore_semaphores, save_semaphores};
pub use variable_pools::{restore_variable_pools, save_variable_pools};
