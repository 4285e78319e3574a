//! The alarms and delays that stand, read in order and put back.

ghost use Rattle.std.specs.Prelude.{◌≡◌, if◌then◌else◌, nat_le};
ghost use Rattle.std.specs.List.{list_any};
ghost use Rattle.iop_time.specs.Timers.{AreTimers, is_delay_of};
ghost use Rattle.iop_time.specs.Restoring.{may_be_timer, alarms_are_below, delays_are_below, alarms_have, delays_have};
ghost use Rattle.iop_time.specs.Restoring.{alarm_may_follow, delay_may_follow, with_last_alarm, with_last_delay};

use crate::alarm::{Alarm, is_set};
use crate::clock::{Clock, MOST_ALARMS, MOST_DELAYS};
use crate::delay::Delay;
use crate::ticks::NEVER;
use crate::turn::first_with;

impl Clock {
    /// Lends the alarms in the order of their numbers.
    pub fn alarms(&self) -> &[Alarm]
        ensures alarms { result.now ≡ self.now.alarms }
        ensures sound { AreTimers self.now }
    {
        &self.alarms
    }

    /// Lends the delays in the order of their numbers.
    pub fn delays(&self) -> &[Delay]
        ensures delays { result.now ≡ self.now.delays }
        ensures sound { AreTimers self.now }
    {
        &self.delays
    }

    /// Tells the number of the next alarm or delay.
    pub fn next_number(&self) -> u64
        ensures number { result ≡ self.now.next }
        ensures sound { AreTimers self.now }
    {
        self.next
    }

    /// Puts an alarm back behind those that stand. The next number is above its number then.
    ///
    /// False, and no change, exactly where its number is 0, 2^64 - 1, that of a delay or not above
    /// that of every alarm, where its moment is above `NEVER`, where an alarm of its handler and
    /// argument stands, or where `MOST_ALARMS` stand.
    pub fn put_alarm(&mut self, alarm: Alarm) -> bool
        ensures may { result ≡ alarm_may_follow self.old.alarms self.old.delays alarm }
        ensures put { self.new ≡ if result then with_last_alarm self.old alarm else self.old }
        ensures was_sound { AreTimers self.old }
        ensures sound { AreTimers self.new }
    {
        if !alarm_may_follow(&self.alarms, &self.delays, alarm) {
            return false;
        }
        self.next = self.next.max(alarm.number + 1);
        self.alarms.push_reserved(alarm);
        self.first = first_with(self.first, alarm.turn());
        true
    }

    /// Puts a delay back behind those that stand. The next number is above its number then.
    ///
    /// False, and no change, exactly where its number is 0, 2^64 - 1, that of an alarm or not above
    /// that of every delay, where its moment is above `NEVER`, where a delay of its thread stands,
    /// or where `MOST_DELAYS` stand.
    pub fn put_delay(&mut self, delay: Delay) -> bool
        ensures may { result ≡ delay_may_follow self.old.alarms self.old.delays delay }
        ensures put { self.new ≡ if result then with_last_delay self.old delay else self.old }
        ensures was_sound { AreTimers self.old }
        ensures sound { AreTimers self.new }
    {
        if !delay_may_follow(&self.alarms, &self.delays, delay) {
            return false;
        }
        self.next = self.next.max(delay.number + 1);
        self.delays.push_reserved(delay);
        self.first = first_with(self.first, delay.turn());
        true
    }

    /// Puts the number of the next alarm or delay back. False, and no change, exactly where it is
    /// below the one that is next.
    pub fn put_next(&mut self, number: u64) -> bool
        ensures may { result ≡ nat_le self.old.next number }
        ensures put { self.new ≡ if result then record self.old { next = number } else self.old }
        ensures was_sound { AreTimers self.old }
        ensures sound { AreTimers self.new }
    {
        if number < self.next {
            return false;
        }
        self.next = number;
        true
    }
}

/// Tells whether an alarm or a delay may have this number and this moment.
fn may_be_timer(number: u64, moment: u64) -> bool
    ensures { result ≡ may_be_timer number moment }
{
    0 < number && number < u64::MAX && moment <= NEVER
}

/// Tells whether each alarm has a number below this one.
fn alarms_are_below(number: u64, alarms: &[Alarm]) -> bool
    ensures { result ≡ alarms_are_below number alarms.now }
{
    alarms.iter().all(|alarm| alarm.number < number)
}

/// Tells whether each delay has a number below this one.
fn delays_are_below(number: u64, delays: &[Delay]) -> bool
    ensures { result ≡ delays_are_below number delays.now }
{
    delays.iter().all(|delay| delay.number < number)
}

/// Tells whether an alarm has this number.
fn alarms_have(number: u64, alarms: &[Alarm]) -> bool
    ensures { result ≡ alarms_have number alarms.now }
{
    alarms.iter().any(|alarm| alarm.number == number)
}

/// Tells whether a delay has this number.
fn delays_have(number: u64, delays: &[Delay]) -> bool
    ensures { result ≡ delays_have number delays.now }
{
    delays.iter().any(|delay| delay.number == number)
}

/// Tells whether a delay is that of this thread.
fn is_delayed(delays: &[Delay], thread: u32) -> bool
    ensures { result ≡ list_any (is_delay_of thread) delays.now }
{
    delays.iter().any(|delay| delay.thread == thread)
}

/// Tells whether an alarm may stand behind these alarms, beside these delays.
fn alarm_may_follow(alarms: &[Alarm], delays: &[Delay], alarm: Alarm) -> bool
    ensures { result ≡ alarm_may_follow alarms.now delays.now alarm }
{
    may_be_timer(alarm.number, alarm.moment)
        && alarms.len() < MOST_ALARMS
        && alarms_are_below(alarm.number, alarms)
        && !is_set(alarms, alarm.handler, alarm.arg)
        && !delays_have(alarm.number, delays)
}

/// Tells whether a delay may stand behind these delays, beside these alarms.
fn delay_may_follow(alarms: &[Alarm], delays: &[Delay], delay: Delay) -> bool
    ensures { result ≡ delay_may_follow alarms.now delays.now delay }
{
    may_be_timer(delay.number, delay.moment)
        && delays.len() < MOST_DELAYS
        && delays_are_below(delay.number, delays)
        && !is_delayed(delays, delay.thread)
        && !alarms_have(delay.number, alarms)
}
