//! Mailboxes: their messages, and the threads that wait for messages.
#![tactic(auto)]

pub mod laws;
mod mailbox;
mod mailboxes;
mod restoring;

pub use mailbox::{MESSAGES_BY_PRIORITY, Mailbox, WAITERS_BY_PRIORITY};
pub use mailboxes::{MOST_MESSAGES, Mailboxes};
