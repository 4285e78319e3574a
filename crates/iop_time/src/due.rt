use crate::alarm::Alarm;
use crate::delay::Delay;

/// What has come due.
#[derive(Clone, Copy, Debug, PartialEq, Eq)]
pub enum Due {
    /// An alarm, whose handler is to be called.
    Alarm(Alarm),
    /// A delay, whose thread is to wake.
    Delay(Delay),
}
