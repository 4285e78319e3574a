ghost use Rattle.std.specs.Prelude.{◌≡◌, ◌<◌, ◌-◌, ◌^◌, IfOk, false, if◌then◌else◌, length};
ghost use Rattle.std.specs.List.{list_any};
ghost use Rattle.iop_time.specs.Timers.{AreTimers, no_timers, is_alarm_of, is_delay_of, sets_alarm, cancels, delays, drops_delay, sets_again, removes};
ghost use Rattle.iop_time.specs.Turns.{due, next_moment};
ghost use Rattle.iop_time.specs.Taking.{alarm_of, delay_of, timer_of, takes_due};

use crate::alarm::{Alarm, is_set, put_off};
use crate::delay::Delay;
use crate::due::Due;
use crate::ticks::NEVER;
use crate::turn::{Turn, first_turn, first_with};
use iop_base::Code;
use std::alloc::{AllocError, Global};
use std::marker::Model;

/// The most alarms that can stand. It is this project's own profile.
pub const MOST_ALARMS: usize = 255;

/// The most delays that can stand: one for each thread.
pub const MOST_DELAYS: usize = 255;

/// The alarms and delays that stand, and the number of the next one.
///
/// One count numbers both, from 1 on, and gives no number twice. No two alarms have the same
/// handler and argument, and no two delays the same thread. A moment of `NEVER` never comes.
#[derive(Drop)]
pub struct Clock {
    /// The number of the next alarm or delay.
    pub(crate) next: u64,
    /// The alarms in the order of their numbers.
    pub(crate) alarms: Vec<Alarm>,
    /// The delays in the order of their numbers.
    pub(crate) delays: Vec<Delay>,
    /// The turn that comes first.
    pub(crate) first: Option<Turn>,
}

impl Model for Clock {
    ghost use Rattle.std.specs.Prelude.{◌≡◌, ◌≤◌, ◌<◌, ◌^◌, vec_capacity};
    ghost use Rattle.iop_time.specs.declared.clock.TheConstants.{MOST_ALARMS, MOST_DELAYS};
    ghost use Rattle.iop_time.specs.Timers.{Timers, AreTimers};
    ghost use Rattle.iop_time.specs.Turns.{first_turn};

    ghost Value = { Timers };

    ghost view = { λ c. record {
      next = c.next;
      alarms = c.alarms.items;
      delays = c.delays.items;
    } };

    ghost invariant = { λ c. AreTimers (record {
      next = c.next;
      alarms = c.alarms.items;
      delays = c.delays.items;
    })
        × (c.first ≡ first_turn c.alarms.items c.delays.items)
        × (MOST_ALARMS ≤ vec_capacity c.alarms)
        × (MOST_DELAYS ≤ vec_capacity c.delays) };
}

impl Clock {
    /// Makes a clock with no alarm and no delay. It takes all the memory that the clock will need;
    /// `AllocError` where the host has less.
    pub fn new(alloc: Global) -> Result<Self, AllocError>
        ensures timers { IfOk result (λ clock. clock ≡ no_timers) }
        ensures sound { IfOk result AreTimers }
    {
        Ok(Clock {
            next: 1,
            alarms: Vec::with_capacity(alloc, MOST_ALARMS)?,
            delays: Vec::with_capacity(alloc, MOST_DELAYS)?,
            first: None,
        })
    }

    /// Tells whether the alarm of a handler and its argument stands.
    fn has_alarm(&self, handler: u32, arg: u32) -> bool
        ensures stands { result ≡ list_any (is_alarm_of handler arg) self.now.alarms }
        ensures sound { AreTimers self.now }
    {
        is_set(&self.alarms, handler, arg)
    }

    /// Sets an alarm of a handler and its argument at a moment, in ticks.
    ///
    /// `HANDLER_FOUND` exactly where one of this handler and argument stands, else `NO_MEMORY`
    /// exactly where `MOST_ALARMS` stand; nothing changes then. Else `OK`.
    pub fn set_alarm(&mut self, moment: u64, handler: u32, arg: u32, gp: u32) -> Code
        requires { self.old.next < 2 ^ 64 - 1 }
        ensures code { result ≡ (sets_alarm self.old moment handler arg gp).0 }
        ensures timers { self.new ≡ (sets_alarm self.old moment handler arg gp).1 }
        ensures was_sound { AreTimers self.old }
        ensures sound { AreTimers self.new }
    {
        if self.has_alarm(handler, arg) {
            return Code::HANDLER_FOUND;
        }
        if self.alarms.len() >= MOST_ALARMS {
            return Code::NO_MEMORY;
        }
        let alarm = Alarm {
            number: self.next,
            moment: moment.min(NEVER),
            handler,
            arg,
            gp,
        };
        self.next += 1;
        self.alarms.push_reserved(alarm);
        self.first = first_with(self.first, alarm.turn());
        Code::OK
    }

    /// Cancels the alarm of a handler and its argument. `HANDLER_NOT_FOUND`, and no change, exactly
    /// where none stands; else `OK`.
    pub fn cancel(&mut self, handler: u32, arg: u32) -> Code
        ensures code { result ≡ (cancels self.old handler arg).0 }
        ensures timers { self.new ≡ (cancels self.old handler arg).1 }
        ensures was_sound { AreTimers self.old }
        ensures sound { AreTimers self.new }
    {
        if !self.has_alarm(handler, arg) {
            return Code::HANDLER_NOT_FOUND;
        }
        self.alarms.retain(|alarm| !alarm.is_of(handler, arg));
        self.first = first_turn(&self.alarms, &self.delays);
        Code::OK
    }

    /// Delays a thread, by its id, until a moment, in ticks.
    pub fn delay(&mut self, moment: u64, thread: u32)
        requires number { self.old.next < 2 ^ 64 - 1 }
        requires free { list_any (is_delay_of thread) self.old.delays ≡ false }
        requires room { length self.old.delays < MOST_DELAYS }
        ensures timers { self.new ≡ delays self.old moment thread }
        ensures was_sound { AreTimers self.old }
        ensures sound { AreTimers self.new }
    {
        let delay = Delay {
            number: self.next,
            moment: moment.min(NEVER),
            thread,
        };
        self.next += 1;
        self.delays.push_reserved(delay);
        self.first = first_with(self.first, delay.turn());
    }

    /// Takes out the delay of a thread, if it has one.
    pub fn drop_delay(&mut self, thread: u32)
        ensures timers { self.new ≡ drops_delay self.old thread }
        ensures was_sound { AreTimers self.old }
        ensures sound { AreTimers self.new }
    {
        self.delays.retain(|delay| delay.thread != thread);
        self.first = first_turn(&self.alarms, &self.delays);
    }

    /// Tells the number of the alarm or delay that comes next at moment `t`, in ticks: that of the
    /// least moment, and of the least number at that moment, among those whose moment is at most
    /// `t`. None exactly where there is none.
    pub fn due(&self, t: u64) -> Option<u64>
        ensures number { result ≡ due self.now t }
        ensures sound { AreTimers self.now }
    {
        let first = self.first?;
        (first.moment <= t).then_some(first.number)
    }

    /// Tells the least moment at which an alarm or a delay comes, in ticks. None exactly where none
    /// comes.
    pub fn next_moment(&self) -> Option<u64>
        ensures moment { result ≡ next_moment self.now }
        ensures sound { AreTimers self.now }
    {
        Some(self.first?.moment)
    }

    /// Finds the alarm of a number.
    fn alarm_of(&self, number: u64) -> Option<Due>
        ensures { result ≡ alarm_of self.now number }
    {
        let alarm = self.alarms.iter().find(|alarm| alarm.number == number)?;
        Some(Due::Alarm(*alarm))
    }

    /// Finds the delay of a number.
    fn delay_of(&self, number: u64) -> Option<Due>
        ensures { result ≡ delay_of self.now number }
    {
        let delay = self.delays.iter().find(|delay| delay.number == number)?;
        Some(Due::Delay(*delay))
    }

    /// Finds the alarm or the delay of a number.
    fn timer_of(&self, number: u64) -> Option<Due>
        ensures { result ≡ timer_of self.now number }
    {
        self.alarm_of(number).or_else(|| self.delay_of(number))
    }

    /// Takes what comes next at moment `t`, in ticks, the one whose number `due` tells. A delay
    /// leaves; an alarm stands until its handler's result.
    pub fn take_due(&mut self, t: u64) -> Option<Due>
        ensures due { result ≡ (takes_due self.old t).0 }
        ensures timers { self.new ≡ (takes_due self.old t).1 }
        ensures was_sound { AreTimers self.old }
        ensures sound { AreTimers self.new }
    {
        let number = self.due(t)?;
        let taken = self.timer_of(number)?;
        if let Due::Delay(delay) = taken {
            self.drop_delay(delay.thread);
        }
        Some(taken)
    }

    /// Sets the alarm of a number again, so many ticks after its moment, with the same number. No
    /// change where no alarm has the number.
    pub fn set_again(&mut self, number: u64, ticks: u32)
        ensures timers { self.new ≡ sets_again self.old number ticks }
        ensures was_sound { AreTimers self.old }
        ensures sound { AreTimers self.new }
    {
        put_off(&mut self.alarms, number, ticks);
        self.first = first_turn(&self.alarms, &self.delays);
    }

    /// Removes the alarm of a number, if one has it.
    pub fn remove(&mut self, number: u64)
        ensures timers { self.new ≡ removes self.old number }
        ensures was_sound { AreTimers self.old }
        ensures sound { AreTimers self.new }
    {
        self.alarms.retain(|alarm| alarm.number != number);
        self.first = first_turn(&self.alarms, &self.delays);
    }
}
