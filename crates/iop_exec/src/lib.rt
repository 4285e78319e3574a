//! Executes one instruction of the R3000 over a processor and a bus.
#![tactic(auto)]

mod arithmetic;
mod bus;
mod cpu;
mod execution;
pub mod laws;
mod memory;
mod position;
mod registers;

pub use bus::Bus;
pub use cpu::{Cpu, Event, Pending};
pub use execution::{step, step_apart};
pub use position::Position;
pub use registers::Registers;
