//! The execution of instructions.

ghost use Rattle.std.specs.Prelude.{◌≡◌, ℕ, ◌+◌, ◌*◌, ◌^◌, ◌<◌, ◌≤◌, false, None, length};
ghost use Rattle.iop_exec.specs.Processors.{cpu_of};
ghost use Rattle.iop_kernel.specs.Standing.{HasNumber};
ghost use Rattle.iop_trace.specs.Outs.{has_failed, output_of};
ghost use Rattle.iop_machine.specs.Advancing.{Advances, Progresses, IsLess, calls_by};
ghost use Rattle.iop_machine.specs.Laws.{IsMachine};
ghost use Rattle.iop_machine.specs.Running.{RunsFor, HasTime};
ghost use Rattle.iop_machine.specs.Stepping.{most_between};
ghost use Rattle.iop_machine.specs.Iop.{Iop as State};
ghost use Rattle.iop_machine.specs.Standing.{Stands, StandsBooted, IsSound};
ghost use Rattle.iop_machine.specs.World.{booted};

use crate::guest_bus::perform;
use crate::iop::Iop;
use crate::progress::Progress;
use iop_base::Stop;
use iop_exec::{Event, Position, Registers};
use iop_ports::Sink;
use iop_trace::Out;

impl Iop {
    /// Takes over the processor and the moment of a burst.
    #[cold]
    #[inline(never)]
    fn take_over(&mut self, registers: Registers, position: Position, clock: u64)
        requires sound { IsSound self.old }
        requires later { self.old.kernel.clock ≤ clock }
        ensures { (s : State) → Stands self.old s → Stands self.new (record s {
          cpu = cpu_of registers position;
          kernel = record s.kernel { clock = clock };
        }) }
    {
        self.cpu = registers.standing_at(position);
        self.kernel.advance(clock);
    }

    /// Executes instructions of the thread that runs, or of the handler that is active, one at
    /// least, and answers how many of `budget` are left. For so many, as long as they are plain,
    /// nothing else is to be done.
    ///
    /// Each instruction takes one of `budget`, also one that faults, which takes no tick. A burst
    /// ends at an instruction that calls a service or faults, at one in which a write failed, and
    /// where none is left. Whether anything else is due is not asked in between: a plain
    /// instruction changes processor, memory and clock alone. It is the one place that executes
    /// instructions. The processor, as registers and a position, and the clock are local meanwhile.
    #[inline(never)]
    fn burst<C: Sink, T: Sink>(&mut self, budget: u64, out: &mut Out<'_, C, T>) -> u64
        requires runs { (s : State) × Stands self.old s × RunsFor s budget }
        requires number { HasNumber self.old.kernel }
        requires some { 0 < budget }
        requires time { self.old.kernel.clock + budget < 2 ^ 64 }
        requires same_size { self.old.blocks.size ≡ length self.old.guest.ram }
        requires well { has_failed out.old ≡ false }
        ensures advances { (s : State) → Stands self.old s → RunsFor s budget
            → (k : ℕ) × Advances StandsBooted (booted s) budget k result self.new
            (output_of C.told T.told out.old)
            (output_of C.told T.told out.new) }
        ensures fewer { result < budget }
    {
        let mut registers = Registers::of(&self.cpu);
        let mut position = Position::of(&self.cpu);
        let mut clock = self.kernel.now();
        let mut left = budget;
        'instructions: loop {
            left -= 1;
            match perform(&mut registers, &mut position, &mut self.guest, clock, out) {
                Event::Plain => {
                    clock += 1;
                    if left == 0 || out.failed() {
                        self.take_over(registers, position, clock);
                        return left;
                    }
                }
                event => {
                    self.take_over(registers, position, clock);
                    self.conclude(event, out);
                    return left;
                }
            }
        }
    }

    /// Goes on once it was booted, by one delivery or one moment further, or by a dispatch, if one
    /// is to be made, and a burst of what executes then. Where nothing executes, and nothing is to
    /// come, the machine is quiet. It stops where an instruction would be executed and none of
    /// `budget` is left: the events that are due then are not taken.
    ///
    /// A burst ends at the tick of the next event, or at the moment of the next alarm or delay, at
    /// the latest: what comes due at a moment bounds it, and nothing is looked for in between.
    pub(crate) fn advance<C: Sink, T: Sink>(
        &mut self,
        budget: u64,
        out: &mut Out<'_, C, T>,
    ) -> Progress
        requires machine { (s : State) × Stands self.old s × IsMachine (booted s) }
        requires goes_on { self.old.over ≡ None }
        requires time { HasTime self.old.kernel.clock budget }
        requires same_size { self.old.blocks.size ≡ length self.old.guest.ram }
        requires well { has_failed out.old ≡ false }
        ensures progresses { (s : State) → Stands self.old s
            → Progresses StandsBooted result (booted s) budget self.new
            (output_of C.told T.told out.old)
            (output_of C.told T.told out.new) }
        ensures less { IsLess result (has_failed out.new) self.new.over false self.new.kernel
            (most_between * budget + calls_by None false self.old.kernel) }
    {
        if self.settle_first(out) {
            return Progress::Advanced(budget);
        }
        if !self.kernel.active() {
            self.wait();
            return Progress::Advanced(budget);
        }
        if budget == 0 {
            return Progress::Stopped(Stop::Budget);
        }
        self.take_events();
        let most = self.instructions_ahead(budget);
        let rest = self.burst(most, out);
        Progress::Advanced(budget - most + rest)
    }
}
