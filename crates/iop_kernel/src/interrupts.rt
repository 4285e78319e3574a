//! The services of `intrman`.

ghost use Rattle.iop_kernel.specs.Interrupts.{register_handler, release_handler, enable_line, disable_line, disable_interrupts, enable_interrupts, suspend_interrupts, resume_interrupts, query_context, serves_intrman};
ghost use Rattle.iop_kernel.specs.Standing.{Holds, TakesCore, TakesBoard, core, board};
ghost use Rattle.iop_kernel.specs.System.{Kernel as State};

use crate::after::After;
use crate::answering::{answer, answer_word};
use crate::kernel::Kernel;
use crate::places::{optional_place, words_place};
use iop_base::{Code, GuestFault, Lines};
use iop_exec::Cpu;
use iop_ready::Ready;
use iop_services::IntrmanService;
use iop_stubs::Guest;

impl<R: Ready> Kernel<R> {
    /// Gives an interrupt line a handler, with its argument and the `$gp` of the caller, and
    /// answers a code of `Irqs::register`.
    pub(crate) fn register_handler(
        &mut self,
        line: u32,
        handler: u32,
        arg: u32,
        cpu: &mut Cpu,
    ) -> After
        ensures { (k : State) → Holds R.stands self.old k
            → TakesCore R.stands (register_handler (core k cpu.old) line handler arg) result
            self.new cpu.new }
    {
        let code = self.irqs.register(line, handler, arg, cpu.regs[28]);
        answer(cpu, code)
    }

    /// Takes the handler of a line away, and answers a code of `Irqs::release`.
    pub(crate) fn release_handler(&mut self, line: u32, cpu: &mut Cpu) -> After
        ensures { (k : State) → Holds R.stands self.old k
            → TakesCore R.stands (release_handler (core k cpu.old) line) result self.new cpu.new }
    {
        let code = self.irqs.release(line);
        answer(cpu, code)
    }

    /// Enables a line, and answers a code of `Irqs::enable`.
    pub(crate) fn enable_line(&mut self, line: u32, cpu: &mut Cpu) -> After
        ensures { (k : State) → Holds R.stands self.old k
            → TakesCore R.stands (enable_line (core k cpu.old) line) result self.new cpu.new }
    {
        let code = self.irqs.enable(line);
        answer(cpu, code)
    }

    /// Disables a line, and answers a code of `Irqs::disable`. Where there is such a line its
    /// number is written at `at`, 0 for nowhere, also where it was disabled. The place is looked at
    /// first.
    #[tactic(auto, using(iop_base::proofs::Giving::gives_none))]
    pub(crate) fn disable_line<L: Lines>(
        &mut self,
        line: u32,
        at: u32,
        cpu: &mut Cpu,
        guest: &mut Guest,
        lines: &mut L,
    ) -> After
        ensures { (k : State) → Holds R.stands self.old k
            → TakesBoard R.stands (disable_line (board k cpu.old guest.old) line at) result
            self.new cpu.new guest.new (L.output lines.old) (L.output lines.new) }
    {
        let Some(place) = optional_place(guest, at) else {
            return After::Fault(GuestFault::Address);
        };
        match self.irqs.disable(line) {
            Code::ILLEGAL_INTERRUPT => answer(cpu, Code::ILLEGAL_INTERRUPT),
            code => self.answer_code_at(place, line, code, cpu, guest, lines),
        }
    }

    /// Turns interrupts off. `INTERRUPTS_DISABLED` where they are off.
    pub(crate) fn disable_interrupts(&mut self, cpu: &mut Cpu) -> After
        ensures { (k : State) → Holds R.stands self.old k
            → TakesCore R.stands (disable_interrupts (core k cpu.old)) result self.new cpu.new }
    {
        if !self.interrupts {
            return answer(cpu, Code::INTERRUPTS_DISABLED);
        }
        self.interrupts = false;
        answer(cpu, Code::OK)
    }

    /// Turns interrupts on.
    pub(crate) fn enable_interrupts(&mut self, cpu: &mut Cpu) -> After
        ensures { (k : State) → Holds R.stands self.old k
            → TakesCore R.stands (enable_interrupts (core k cpu.old)) result self.new cpu.new }
    {
        self.interrupts = true;
        answer(cpu, Code::OK)
    }

    /// Writes at `at` whether interrupts are on, 1 or 0, and turns them off.
    /// `INTERRUPTS_DISABLED` where they were off. The place is looked at first.
    #[tactic(auto, using(iop_base::proofs::Giving::gives_none))]
    pub(crate) fn suspend_interrupts<L: Lines>(
        &mut self,
        at: u32,
        cpu: &mut Cpu,
        guest: &mut Guest,
        lines: &mut L,
    ) -> After
        ensures { (k : State) → Holds R.stands self.old k
            → TakesBoard R.stands (suspend_interrupts (board k cpu.old guest.old) at) result
            self.new cpu.new guest.new (L.output lines.old) (L.output lines.new) }
    {
        let Some(place) = words_place(guest, at, 1) else {
            return After::Fault(GuestFault::Address);
        };
        let were_on = self.interrupts;
        self.interrupts = false;
        let code = if were_on {
            Code::OK
        } else {
            Code::INTERRUPTS_DISABLED
        };
        self.answer_code_at(Some(place), u32::from(were_on), code, cpu, guest, lines)
    }

    /// Turns interrupts on, or off where the word is 0.
    pub(crate) fn resume_interrupts(&mut self, state: u32, cpu: &mut Cpu) -> After
        ensures { (k : State) → Holds R.stands self.old k
            → TakesCore R.stands (resume_interrupts (core k cpu.old) state) result
            self.new cpu.new }
    {
        self.interrupts = state != 0;
        answer(cpu, Code::OK)
    }

    /// Answers 1 where a handler calls, else 0.
    pub(crate) fn query_context(&mut self, cpu: &mut Cpu) -> After
        ensures { (k : State) → Holds R.stands self.old k
            → TakesCore R.stands (query_context (core k cpu.old)) result self.new cpu.new }
    {
        answer_word(cpu, u32::from(self.in_handler()))
    }

    /// Does what a service of `intrman` does.
    #[tactic(auto, using(iop_base::proofs::Giving::gives_none), unfolding(crate::specs::Interrupts::serves_intrman))]
    pub(crate) fn serve_intrman<L: Lines>(
        &mut self,
        service: IntrmanService,
        cpu: &mut Cpu,
        guest: &mut Guest,
        lines: &mut L,
    ) -> After
        ensures { (k : State) → Holds R.stands self.old k
            → TakesBoard R.stands (serves_intrman (board k cpu.old guest.old) service) result
            self.new cpu.new guest.new (L.output lines.old) (L.output lines.new) }
    {
        let [a0, a1, a2, a3] = [cpu.regs[4], cpu.regs[5], cpu.regs[6], cpu.regs[7]];
        match service {
            IntrmanService::RegisterIntrHandler => self.register_handler(a0, a2, a3, cpu),
            IntrmanService::ReleaseIntrHandler => self.release_handler(a0, cpu),
            IntrmanService::EnableIntr => self.enable_line(a0, cpu),
            IntrmanService::DisableIntr => self.disable_line(a0, a1, cpu, guest, lines),
            IntrmanService::CpuDisableIntr => self.disable_interrupts(cpu),
            IntrmanService::CpuEnableIntr => self.enable_interrupts(cpu),
            IntrmanService::CpuSuspendIntr => self.suspend_interrupts(a0, cpu, guest, lines),
            IntrmanService::CpuResumeIntr => self.resume_interrupts(a0, cpu),
            IntrmanService::QueryIntrContext => self.query_context(cpu),
        }
    }
}
