ghost use Rattle.std.specs.Prelude.{◌≡◌};
ghost use Rattle.iop_time.specs.Turns.{comes, is_before, sooner, first_with, first_turn};

use crate::alarm::Alarm;
use crate::delay::Delay;
use crate::ticks::NEVER;

/// When an alarm or a delay comes: by its moment, and at one moment by its number.
#[derive(Clone, Copy, Debug, PartialEq, Eq)]
pub(crate) struct Turn {
    /// The moment, in ticks.
    pub(crate) moment: u64,
    /// The number.
    pub(crate) number: u64,
}

impl Turn {
    /// Tells whether it comes at all.
    pub(crate) fn comes(&self) -> bool
        ensures { result ≡ comes self.now }
    {
        self.moment < NEVER
    }

    /// Tells whether it comes before another.
    fn is_before(self, other: Turn) -> bool
        ensures { result ≡ is_before self other }
    {
        self.moment < other.moment || self.moment == other.moment && self.number < other.number
    }

    /// Chooses which comes first: this turn or the first of others, if there are others.
    fn sooner(self, first: Option<Turn>) -> Turn
        ensures { result ≡ sooner first self }
    {
        match first {
            Some(other) if other.is_before(self) => other,
            _ => self,
        }
    }
}

/// Chooses the first of some turns and one more. One that never comes changes nothing.
pub(crate) fn first_with(first: Option<Turn>, turn: Turn) -> Option<Turn>
    ensures { result ≡ first_with first turn }
{
    if turn.comes() {
        Some(turn.sooner(first))
    } else {
        first
    }
}

/// Finds the turn that comes first. None exactly where none comes.
pub(crate) fn first_turn(alarms: &[Alarm], delays: &[Delay]) -> Option<Turn>
    ensures { result ≡ first_turn alarms.now delays.now }
{
    alarms
        .iter()
        .map(|alarm| alarm.turn())
        .chain(delays.iter().map(|delay| delay.turn()))
        .fold(None, first_with)
}
