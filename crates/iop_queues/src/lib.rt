//! Queues whose items have priorities, and stand in the nodes of one arena; and numbers by which
//! queues are assigned to their holders.
#![tactic(auto)]

mod condition;
pub mod laws;
mod numbers;
mod queued;
mod queues;
mod walk;
mod walks;

pub use condition::Condition;
pub use numbers::Numbers;
pub use queued::Queued;
pub use queues::Queues;
pub use walk::Walk;
