//! The services of `thbase` that look at the clock: delays, alarms, and what the time is.

ghost use Rattle.std.specs.Prelude.{◌≡◌, ◌+◌, ◌*◌, ◌<◌, ◌≤◌, ◌%◌, Some, None, length};
ghost use Rattle.iop_base.specs.Places.{IsRamSize};
ghost use Rattle.iop_time.specs.declared.clock.TheConstants.{MOST_DELAYS};
ghost use Rattle.iop_kernel.specs.Boards.{writes};
ghost use Rattle.iop_kernel.specs.Standing.{Holds, IsHeld, IsUndelayed, HasNumber, TakesCore, TakesBoard, core, board};
ghost use Rattle.iop_kernel.specs.System.{Kernel as State, caller_in};
ghost use Rattle.iop_kernel.specs.SystemClock.{time_words, ticks_in, waits_until, delay_thread, set_alarm, cancel_alarm, get_system_time, usec_to_clock, writes_seconds, clock_to_usec};
ghost use Rattle.iop_kernel.specs.declared.system_clock.TheConstants.{TIME_WORDS};

use crate::after::After;
use crate::answering::answer;
use crate::kernel::Kernel;
use crate::places::words_place;
use crate::words::store_words;
use iop_base::{Code, GuestFault, Lines};
use iop_exec::Cpu;
use iop_ready::Ready;
use iop_stubs::Guest;
use iop_thread::Wait;
use iop_time::{micros_of, moment_after, ticks_of};
use irx_tables::word;

/// How many words a time in ticks has: the lower one and then the higher one.
pub const TIME_WORDS: u32 = 2;

/// How many microseconds a second has.
pub const MICROS_OF_SECOND: u64 = 1_000_000;

/// Tells the words of a time in ticks.
fn time_words(ticks: u64) -> [u32; 2]
    ensures { result ≡ time_words ticks }
{
    [(ticks % (1 << 32)) as u32, (ticks >> 32) as u32]
}

/// Reads the time, in ticks, whose words stand at a physical place.
fn ticks_at(guest: &Guest, place: u32) -> u64
    requires aligned { place % 4 ≡ 0 }
    requires inside { place + 4 * TIME_WORDS ≤ length guest.now.ram }
    ensures { result ≡ ticks_in guest.now place }
{
    let ram = guest.ram();
    let low = u64::from(word(ram, place));
    let high = u64::from(word(ram, place + 4));
    low + high * (1 << 32)
}

impl<R: Ready> Kernel<R> {
    /// Lets the thread that calls wait until a moment.
    fn wait_until(&mut self, moment: u64, cpu: &Cpu) -> After
        requires sound { IsHeld R.stands self.old }
        requires undelayed { IsUndelayed R.stands self.old }
        requires room { self.old.handler ≡ None → length self.old.timers.delays < MOST_DELAYS }
        requires number { HasNumber self.old }
        ensures { (k : State) → Holds R.stands self.old k
            → TakesCore R.stands (waits_until (core k cpu.now) moment (caller_in k)) result
            self.new cpu.now }
    {
        let Some(thread) = self.caller() else {
            return After::Fault(GuestFault::Service);
        };
        self.timers.delay(moment, thread);
        self.wait(Wait::Delay, cpu)
    }

    /// Lets the thread that calls wait for so many microseconds, which are counted in whole ticks.
    /// `CANNOT_WAIT` where no other thread may run.
    pub(crate) fn delay_thread(&mut self, us: u32, cpu: &mut Cpu) -> After
        requires sound { IsHeld R.stands self.old }
        requires undelayed { IsUndelayed R.stands self.old }
        requires room { self.old.handler ≡ None → length self.old.timers.delays < MOST_DELAYS }
        requires number { HasNumber self.old }
        ensures { (k : State) → Holds R.stands self.old k
            → TakesCore R.stands (delay_thread (core k cpu.old) us) result self.new cpu.new }
    {
        if !self.may_switch() {
            return answer(cpu, Code::CANNOT_WAIT);
        }
        self.wait_until(moment_after(self.clock, ticks_of(us)), cpu)
    }

    /// Sets an alarm of a handler and its argument, with the `$gp` of the caller, so many ticks
    /// from now as the two words at `at` say, and answers a code of `Clock::set_alarm`. The words
    /// are looked at first.
    pub(crate) fn set_alarm(
        &mut self,
        at: u32,
        handler: u32,
        arg: u32,
        cpu: &mut Cpu,
        guest: &Guest,
    ) -> After
        requires number { HasNumber self.old }
        ensures { (k : State) → Holds R.stands self.old k
            → TakesCore R.stands (set_alarm (core k cpu.old) guest.now at handler arg) result
            self.new cpu.new }
    {
        let Some(place) = words_place(guest, at, TIME_WORDS) else {
            return After::Fault(GuestFault::Address);
        };
        let moment = moment_after(self.clock, ticks_at(guest, place));
        let code = self.timers.set_alarm(moment, handler, arg, cpu.regs[28]);
        answer(cpu, code)
    }

    /// Cancels the alarm of a handler and its argument, and answers a code of `Clock::cancel`.
    pub(crate) fn cancel_alarm(&mut self, handler: u32, arg: u32, cpu: &mut Cpu) -> After
        ensures { (k : State) → Holds R.stands self.old k
            → TakesCore R.stands (cancel_alarm (core k cpu.old) handler arg) result
            self.new cpu.new }
    {
        let code = self.timers.cancel(handler, arg);
        answer(cpu, code)
    }

    /// Writes a time in ticks at a physical place, where it has room, and answers 0.
    fn answer_time_at<L: Lines>(
        &self,
        place: u32,
        ticks: u64,
        cpu: &mut Cpu,
        guest: &mut Guest,
        lines: &mut L,
    ) -> After
        requires inside { place + 4 * TIME_WORDS ≤ length guest.old.ram }
        requires sized { IsRamSize (length guest.old.ram) }
        ensures { (k : State) → Holds R.stands self.now k
            → let done = writes guest.old (Some place) (time_words ticks) (core k cpu.old) in
            TakesBoard R.stands done result self.now cpu.new guest.new (L.output lines.old)
            (L.output lines.new) }
    {
        self.answer_words_at(place, &time_words(ticks), cpu, guest, lines)
    }

    /// Writes the moment, in ticks, in two words at `at`. The place is looked at first.
    #[tactic(auto, using(iop_base::proofs::Giving::gives_none))]
    pub(crate) fn get_system_time<L: Lines>(
        &self,
        at: u32,
        cpu: &mut Cpu,
        guest: &mut Guest,
        lines: &mut L,
    ) -> After
        ensures { (k : State) → Holds R.stands self.now k
            → TakesBoard R.stands (get_system_time (board k cpu.old guest.old) at) result
            self.now cpu.new guest.new (L.output lines.old) (L.output lines.new) }
    {
        let Some(place) = words_place(guest, at, TIME_WORDS) else {
            return After::Fault(GuestFault::Address);
        };
        self.answer_time_at(place, self.clock, cpu, guest, lines)
    }

    /// Writes how many whole ticks so many microseconds have, in two words at `at`. The place is
    /// looked at first.
    #[tactic(auto, using(iop_base::proofs::Giving::gives_none))]
    pub(crate) fn usec_to_clock<L: Lines>(
        &self,
        us: u32,
        at: u32,
        cpu: &mut Cpu,
        guest: &mut Guest,
        lines: &mut L,
    ) -> After
        ensures { (k : State) → Holds R.stands self.now k
            → TakesBoard R.stands (usec_to_clock (board k cpu.old guest.old) us at) result
            self.now cpu.new guest.new (L.output lines.old) (L.output lines.new) }
    {
        let Some(place) = words_place(guest, at, TIME_WORDS) else {
            return After::Fault(GuestFault::Address);
        };
        self.answer_time_at(place, ticks_of(us), cpu, guest, lines)
    }

    /// Writes the whole seconds of so many microseconds, as a word, at one physical place, and then
    /// the microseconds that are left at another, and answers 0. Both lie in RAM.
    fn answer_seconds_at<L: Lines>(
        &self,
        seconds: u32,
        rest: u32,
        micros: u64,
        cpu: &mut Cpu,
        guest: &mut Guest,
        lines: &mut L,
    ) -> After
        requires seconds_inside { seconds + 4 ≤ length guest.old.ram }
        requires rest_inside { rest + 4 ≤ length guest.old.ram }
        requires sized { IsRamSize (length guest.old.ram) }
        ensures { (k : State) → Holds R.stands self.now k
            → TakesBoard R.stands (writes_seconds (board k cpu.old guest.old) seconds rest micros)
            result self.now cpu.new guest.new (L.output lines.old) (L.output lines.new) }
    {
        let whole = (micros / MICROS_OF_SECOND % (1 << 32)) as u32;
        store_words(guest, seconds, &[whole], self.clock, lines);
        let left = (micros % MICROS_OF_SECOND) as u32;
        self.answer_word_at(Some(rest), left, cpu, guest, lines)
    }

    /// Writes the time whose two words stand at `time` in seconds at `seconds` and in the other
    /// microseconds at `rest`. The three places are looked at first.
    #[tactic(auto, using(iop_base::proofs::Giving::gives_none))]
    pub(crate) fn clock_to_usec<L: Lines>(
        &self,
        time: u32,
        seconds: u32,
        rest: u32,
        cpu: &mut Cpu,
        guest: &mut Guest,
        lines: &mut L,
    ) -> After
        ensures { (k : State) → Holds R.stands self.now k
            → TakesBoard R.stands (clock_to_usec (board k cpu.old guest.old) time seconds rest)
            result self.now cpu.new guest.new (L.output lines.old) (L.output lines.new) }
    {
        let Some(time) = words_place(guest, time, TIME_WORDS) else {
            return After::Fault(GuestFault::Address);
        };
        let Some(seconds) = words_place(guest, seconds, 1) else {
            return After::Fault(GuestFault::Address);
        };
        let Some(rest) = words_place(guest, rest, 1) else {
            return After::Fault(GuestFault::Address);
        };
        let micros = micros_of(ticks_at(guest, time));
        self.answer_seconds_at(seconds, rest, micros, cpu, guest, lines)
    }
}
