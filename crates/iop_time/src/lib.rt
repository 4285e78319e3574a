//! The clock: ticks and microseconds, moments, and the alarms and delays that come due.
#![tactic(auto)]

mod alarm;
mod clock;
mod delay;
mod due;
pub mod laws;
mod restoring;
mod ticks;
mod turn;

pub use alarm::Alarm;
pub use clock::{Clock, MOST_ALARMS, MOST_DELAYS};
pub use delay::Delay;
pub use due::Due;
pub use ticks::{NEVER, micros_of, moment_after, ticks_of};
