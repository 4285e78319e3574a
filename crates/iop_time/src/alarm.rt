ghost use Rattle.std.specs.Prelude.{◌≡◌, map};
ghost use Rattle.std.specs.List.{list_any};
ghost use Rattle.iop_time.specs.Timers.{is_alarm_of, later};
ghost use Rattle.iop_time.specs.Turns.{turn_of_alarm};

use crate::ticks::moment_after;
use crate::turn::Turn;

/// An alarm: a call of a handler at a moment. Its fields beside number and moment are those of
/// ps2sdk's `SetAlarm`.
#[derive(Clone, Copy, Debug, PartialEq, Eq)]
pub struct Alarm {
    /// Its number, from 1 on.
    pub number: u64,
    /// When it comes, in ticks: at most `NEVER`.
    pub moment: u64,
    /// The address of its handler.
    pub handler: u32,
    /// What the handler is handed.
    pub arg: u32,
    /// The global pointer of who set it.
    pub gp: u32,
}

impl Alarm {
    /// Tells whether it is the alarm of this handler and argument.
    pub(crate) fn is_of(&self, handler: u32, arg: u32) -> bool
        ensures { result ≡ is_alarm_of handler arg self.now }
    {
        self.handler == handler && self.arg == arg
    }

    /// Makes of it the alarm that comes so many ticks later, if it has this number.
    fn later(self, number: u64, ticks: u32) -> Alarm
        ensures { result ≡ later number ticks self }
    {
        if self.number != number {
            return self;
        }
        Alarm {
            moment: moment_after(self.moment, u64::from(ticks)),
            ..self
        }
    }

    /// Tells its turn.
    pub(crate) fn turn(&self) -> Turn
        ensures { result ≡ turn_of_alarm self.now }
    {
        Turn {
            moment: self.moment,
            number: self.number,
        }
    }
}

/// Tells whether an alarm of a handler and its argument stands.
pub(crate) fn is_set(alarms: &[Alarm], handler: u32, arg: u32) -> bool
    ensures { result ≡ list_any (is_alarm_of handler arg) alarms.now }
{
    alarms.iter().any(|alarm| alarm.is_of(handler, arg))
}

/// Puts the alarm of a number off by so many ticks, if it stands.
pub(crate) fn put_off(alarms: &mut [Alarm], number: u64, ticks: u32)
    ensures { alarms.new ≡ map (later number ticks) alarms.old }
{
    for alarm in alarms.iter_mut() {
        *alarm = alarm.later(number, ticks);
    }
}
