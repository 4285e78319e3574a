//! The interrupt lines: which are raised, which are enabled, and the handler of each.
#![tactic(auto)]

mod handler;
mod irq_line;
mod irqs;
pub mod laws;
mod line_set;

pub use handler::Handler;
pub use irq_line::IrqLine;
pub use irqs::{IRQ_LINES, Irqs};
