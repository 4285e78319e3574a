//! Deliveries of interrupt lines, alarms and delays.

ghost use Rattle.std.specs.Prelude.{◌≡◌, ◌-◌, ◌^◌, ◌<◌, is_some};
ghost use Rattle.iop_intr.specs.InterruptLines.{IsDeliverable, line_of};
ghost use Rattle.iop_time.specs.Taking.{takes_due};
ghost use Rattle.iop_kernel.specs.Deliveries.{is_in_slot, may_deliver, delivers_line, delivers_due, delivers, next_look};
ghost use Rattle.iop_kernel.specs.Standing.{Stands, IsSound, Delivers, core};
ghost use Rattle.iop_kernel.specs.System.{Kernel as State, with_irqs};

use crate::active_handler::Cause;
use crate::kernel::Kernel;
use iop_base::{Code, Line, Lines};
use iop_exec::Cpu;
use iop_intr::{Handler, Irqs};
use iop_ready::Ready;
use iop_time::Due;

impl<R: Ready> Kernel<R> {
    /// Says whether a thread runs that stands between a branch and its slot.
    fn is_in_slot(&self, cpu: &Cpu) -> bool
        ensures { (k : State) → Stands R.stands self.now k → result ≡ is_in_slot (core k cpu.now) }
    {
        self.threads.running().is_some() && cpu.in_slot
    }

    /// Says whether something may be delivered: interrupts are on, no handler runs, and no thread
    /// stands between a branch and its slot.
    fn may_deliver(&self, cpu: &Cpu) -> bool
        ensures { (k : State) → Stands R.stands self.now k → result ≡ may_deliver (core k cpu.now) }
    {
        self.interrupts && !self.in_handler() && !self.is_in_slot(cpu)
    }

    /// Says whether `deliver` would deliver something.
    pub fn would_deliver(&self, cpu: &Cpu) -> bool
        ensures { (k : State) → Stands R.stands self.now k
            → result ≡ is_some (delivers (core k cpu.now)) }
    {
        self.would_deliver_with(cpu, &self.irqs)
    }

    /// Says whether `deliver` would deliver something if these were the interrupt lines.
    pub fn would_deliver_with(&self, cpu: &Cpu, irqs: &Irqs) -> bool
        ensures { (k : State) → Stands R.stands self.now k
            → result ≡ is_some (delivers (with_irqs (core k cpu.now) irqs.now)) }
    {
        self.may_deliver(cpu)
            && (irqs.deliverable().is_some() || self.timers.due(self.clock).is_some())
    }

    /// Tells, where nothing is delivered now, the next moment at which something may be, in ticks,
    /// as long as nothing but plain instructions is executed. None exactly where none comes so:
    /// while interrupts are off or a handler runs, and where no alarm and no delay comes.
    pub fn next_look(&self, cpu: &Cpu) -> Option<u64>
        requires clock { self.now.clock < 2 ^ 64 - 1 }
        ensures { (k : State) → Stands R.stands self.now k → result ≡ next_look (core k cpu.now) }
    {
        if self.in_handler() || !self.interrupts {
            return None;
        }
        if self.is_in_slot(cpu) {
            return Some(self.clock + 1);
        }
        self.timers.next_moment()
    }

    /// Delivers a line that is raised, enabled and has a handler: it is lowered and disabled, and
    /// its handler begins.
    fn deliver_line<L: Lines>(&mut self, line: u8, cpu: &mut Cpu, lines: &mut L) -> bool
        requires sound { IsSound R.stands self.old }
        requires deliverable { IsDeliverable self.old.irqs line }
        ensures { (k : State) → Stands R.stands self.old k → let c = core k cpu.old in
            Delivers R.stands c (delivers_line c line (line_of k.irqs line).handler) result self.new
            cpu.new (L.output lines.old) (L.output lines.new) }
    {
        let handler = self.irqs.deliver(line);
        lines.line(self.clock, Line::Irq(u32::from(line)));
        self.begin_handler(Cause::Line(line), handler, cpu);
        true
    }

    /// Delivers the alarm or the delay that comes next, if its moment has come: the handler of an
    /// alarm begins, the thread of a delay is woken with 0.
    #[tactic(auto, using(iop_base::proofs::Giving::gives_none))]
    fn deliver_due<L: Lines>(&mut self, cpu: &mut Cpu, lines: &mut L) -> bool
        requires sound { IsSound R.stands self.old }
        ensures { (k : State) → Stands R.stands self.old k → let c = core k cpu.old in
            Delivers R.stands c (delivers_due c (takes_due k.timers k.clock)) result self.new
            cpu.new (L.output lines.old) (L.output lines.new) }
    {
        match self.timers.take_due(self.clock) {
            Some(Due::Alarm(alarm)) => {
                lines.line(self.clock, Line::Alarm(alarm.number));
                let handler = Handler {
                    address: alarm.handler,
                    arg: alarm.arg,
                    gp: alarm.gp,
                };
                self.begin_handler(Cause::Alarm(alarm.number), handler, cpu);
                true
            }
            Some(Due::Delay(delay)) => {
                lines.line(self.clock, Line::Due(delay.thread));
                self.wake(delay.thread, Code::OK);
                true
            }
            None => false,
        }
    }

    /// Delivers what comes first, and answers whether something did: the lowest line that is
    /// raised, enabled and has a handler; else the alarm or the delay of the least moment that has
    /// come, and at one moment that of the least number.
    ///
    /// Nothing is delivered while interrupts are off, while a handler runs, and where a thread runs
    /// that stands between a branch and its slot.
    #[tactic(auto, using(iop_base::proofs::Giving::gives_none), unfolding(crate::specs::Deliveries::delivers))]
    pub fn deliver<L: Lines>(&mut self, cpu: &mut Cpu, lines: &mut L) -> bool
        requires sound { IsSound R.stands self.old }
        ensures { (k : State) → Stands R.stands self.old k → let c = core k cpu.old in
            Delivers R.stands c (delivers c) result self.new cpu.new (L.output lines.old)
            (L.output lines.new) }
    {
        if !self.may_deliver(cpu) {
            return false;
        }
        match self.irqs.deliverable() {
            Some(line) => self.deliver_line(line, cpu, lines),
            None => self.deliver_due(cpu, lines),
        }
    }
}
