//! What a `syscall` leaves of the machine, and how modules end.

ghost use Rattle.std.specs.Prelude.{◌≡◌, ◌+◌, ◌^◌, ◌<◌, true, length};
ghost use Rattle.iop_exec.specs.Row.{behind_syscall};
ghost use Rattle.iop_machine.specs.Iop.{Iop as State, Takes};
ghost use Rattle.iop_kernel.specs.Standing.{HasNumber};
ghost use Rattle.iop_kernel.specs.System.{is_active};
ghost use Rattle.iop_machine.specs.Services.{faults_with, returns_by, ends_module, calls, concludes};
ghost use Rattle.iop_machine.specs.Standing.{Stands, IsSound};

use crate::iop::Iop;
use iop_base::{GuestFault, Lines, Stop};
use iop_exec::Event;
use iop_kernel::After;
use iop_modload::finish;
use iop_saved_machine::BegunModule;

impl Iop {
    /// Stops it with a fault of the instruction at pc.
    fn fault(&mut self, kind: GuestFault)
        ensures { (s : State) → Stands self.old s → Stands self.new (faults_with s kind) }
    {
        self.over = Some(Stop::Fault(kind, self.cpu.pc));
    }

    /// Ends a module, which returned a value, and lets the next one that loads begin. Where none
    /// does, the loader's thread, which runs, ends.
    fn end_module<L: Lines>(&mut self, begun: BegunModule, value: u32, lines: &mut L)
        requires sound { IsSound self.old }
        requires same_size { self.old.blocks.size ≡ length self.old.guest.ram }
        ensures { (s : State) → Stands self.old s
            → Takes Stands (ends_module s begun value) self.new
            (L.output lines.old) (L.output lines.new) }
    {
        finish(
            begun.number,
            &begun.place,
            value,
            &mut self.guest,
            &mut self.blocks,
            &mut self.registry,
            self.kernel.now(),
            lines,
        );
        self.load_first(lines);
        if self.begun.is_none() {
            self.kernel.end_running();
        }
    }

    /// Lets the loader's thread, which runs, return a value.
    #[tactic(auto, using(iop_base::proofs::Giving::gives_none))]
    fn return_module<L: Lines>(&mut self, value: u32, lines: &mut L)
        requires sound { IsSound self.old }
        requires same_size { self.old.blocks.size ≡ length self.old.guest.ram }
        ensures { (s : State) → Stands self.old s
            → Takes Stands (returns_by s s.begun value) self.new
            (L.output lines.old) (L.output lines.new) }
    {
        match self.begun {
            Some(begun) => self.end_module(begun, value, lines),
            None => self.kernel.end_running(),
        }
    }

    /// Lets the processor move on from its `syscall`, and does what the code asks for. Where that
    /// faults, the processor is as it was before, at the `syscall`.
    fn call<L: Lines>(&mut self, code: u32, lines: &mut L)
        requires runs { (s : State) × Stands self.old s × (is_active s.kernel ≡ true) }
        requires time { self.old.kernel.clock + 1 < 2 ^ 64 }
        requires number { HasNumber self.old.kernel }
        requires same_size { self.old.blocks.size ≡ length self.old.guest.ram }
        ensures { (s : State) → Stands self.old s
            → Takes Stands (calls s (behind_syscall s.cpu) code) self.new
            (L.output lines.old) (L.output lines.new) }
    {
        let before = self.cpu;
        self.cpu.move_on();
        let after = self.kernel.service(
            code,
            &mut self.cpu,
            &mut self.guest,
            &mut self.blocks,
            &mut self.registry,
            lines,
        );
        match after {
            After::Resume | After::Switch => self.end_call(),
            After::ModuleReturned(value) => {
                self.return_module(value, lines);
                self.end_call();
            }
            After::Fault(kind) => {
                self.cpu = before;
                self.fault(kind);
            }
        }
    }

    /// Concludes an instruction that ended a burst by its event: it stops with a fault, or does
    /// what a code asks for. The processor stands at the instruction.
    #[inline(never)]
    #[tactic(auto, using(iop_base::proofs::Giving::gives_none))]
    pub(crate) fn conclude<L: Lines>(&mut self, event: Event, lines: &mut L)
        requires runs { (s : State) × Stands self.old s × (is_active s.kernel ≡ true) }
        requires time { self.old.kernel.clock + 1 < 2 ^ 64 }
        requires number { HasNumber self.old.kernel }
        requires same_size { self.old.blocks.size ≡ length self.old.guest.ram }
        ensures { (s : State) → Stands self.old s
            → Takes Stands (concludes s event) self.new
            (L.output lines.old) (L.output lines.new) }
    {
        match event {
            Event::Plain => {}
            Event::Fault(kind) => self.fault(kind),
            Event::Service(code) => self.call(code, lines),
        }
    }
}
