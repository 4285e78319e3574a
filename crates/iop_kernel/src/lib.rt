//! The kernel: its services, deliveries, and dispatch.
#![tactic(auto)]

mod active_handler;
mod after;
mod answering;
mod call;
mod deliveries;
mod event_flags;
mod fixed_pools;
mod handlers;
mod interrupts;
mod kernel;
mod mailboxes;
mod named_threads;
mod objects;
mod places;
mod pool_services;
mod priorities;
mod semaphores;
mod serving;
mod stacks;
mod system_clock;
mod thbase;
mod thread_starts;
mod thread_status;
mod thread_waits;
mod variable_pools;
mod waits;
mod words;

pub use active_handler::{ActiveHandler, Cause, HANDLER_RETURN, HANDLER_STACK};
pub use after::After;
pub use call::{Call, HANDLER_RETURN_CALL, MODULE_RETURN_CALL, THREAD_RETURN_CALL};
pub use event_flags::{FLAG_STATUS_WORDS, FLAG_WORDS};
pub use fixed_pools::{FPL_STATUS_WORDS, FPL_WORDS};
pub use kernel::Kernel;
pub use mailboxes::{MAILBOX_STATUS_WORDS, MAILBOX_WORDS};
pub use pool_services::FROM_BELOW;
pub use semaphores::{SEMAPHORE_STATUS_WORDS, SEMAPHORE_WORDS};
pub use stacks::{ATTRIBUTES, FROM_ABOVE, LEAST_STACK, PARAM_WORDS};
pub use system_clock::{MICROS_OF_SECOND, TIME_WORDS};
pub use thread_status::STATUS_WORDS;
pub use variable_pools::{VPL_STATUS_WORDS, VPL_WORDS};
