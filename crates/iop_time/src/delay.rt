ghost use Rattle.std.specs.Prelude.{◌≡◌};
ghost use Rattle.iop_time.specs.Turns.{turn_of_delay};

use crate::turn::Turn;

/// A delay: the wait of a thread until a moment.
#[derive(Clone, Copy, Debug, PartialEq, Eq)]
pub struct Delay {
    /// Its number, from 1 on.
    pub number: u64,
    /// When it comes, in ticks: at most `NEVER`.
    pub moment: u64,
    /// The id of the thread that waits.
    pub thread: u32,
}

impl Delay {
    /// Tells its turn.
    pub(crate) fn turn(&self) -> Turn
        ensures { result ≡ turn_of_delay self.now }
    {
        Turn {
            moment: self.moment,
            number: self.number,
        }
    }
}
