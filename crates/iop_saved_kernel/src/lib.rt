//! How the kernel and its processor stand in a snapshot.
#![tactic(auto)]

mod executing;
mod head;
mod kernel;
pub mod laws;
mod next;
mod objects;
mod priorities;
mod threads;
mod timers;

pub use executing::Executing;
pub use head::KernelHead;
pub use kernel::{RestoredKernel, restore_kernel, save_kernel};
pub use next::Next;
pub use priorities::ThreadPriority;
