//! What a `syscall` asks of the kernel.

ghost use Rattle.iop_kernel.specs.Serving.{serves, calls_library, services};
ghost use Rattle.iop_kernel.specs.Standing.{Holds, IsHeld, Stands, IsActive, HasNumber, HasRoomToWait, HasSizeOf, Serves, ServesPlaced, system};
ghost use Rattle.iop_kernel.specs.System.{Kernel as State};

use crate::after::After;
use crate::answering::{answer, answer_or_fault, answer_word};
use crate::call::Call;
use crate::kernel::Kernel;
use iop_base::{Code, GuestFault, Line, Lines};
use iop_exec::Cpu;
use iop_libs::{serve_loadcore, serve_stdio, serve_sysmem};
use iop_ready::Ready;
use iop_registry::Registry;
use iop_services::{Service, row_of};
use iop_stubs::Guest;
use iop_sysclib::serve_sysclib;
use iop_sysmem::Blocks;

impl<R: Ready> Kernel<R> {
    /// Does what a service does.
    #[tactic(auto, using(iop_base::proofs::Giving::gives_none), unfolding(crate::specs::Serving::serves))]
    fn serve<L: Lines>(
        &mut self,
        service: Service,
        cpu: &mut Cpu,
        guest: &mut Guest,
        blocks: &mut Blocks,
        registry: &mut Registry,
        lines: &mut L,
    ) -> After
        requires sound { IsHeld R.stands self.old }
        requires room { HasRoomToWait R.stands self.old }
        requires number { HasNumber self.old }
        requires same_size { HasSizeOf blocks.old guest.old }
        ensures { (k : State) → Holds R.stands self.old k
            → let s = system k cpu.old guest.old blocks.old registry.old in
            Serves R.stands (serves s service) result self.new cpu.new guest.new blocks.new
            registry.new (L.output lines.old) (L.output lines.new) }
    {
        match service {
            Service::Loadcore(service) => {
                let answered = serve_loadcore(service, cpu, guest, registry);
                answer_or_fault(cpu, answered)
            }
            Service::Sysmem(service) => {
                let word = serve_sysmem(service, cpu, guest, blocks, lines);
                answer_word(cpu, word)
            }
            Service::Intrman(service) => self.serve_intrman(service, cpu, guest, lines),
            Service::Thbase(service) => self.serve_thbase(service, cpu, guest, blocks, lines),
            Service::Thsemap(service) => self.serve_thsemap(service, cpu, guest, lines),
            Service::Thevent(service) => self.serve_thevent(service, cpu, guest, lines),
            Service::Thmsgbx(service) => self.serve_thmsgbx(service, cpu, guest, lines),
            Service::Stdio(service) => {
                let word = serve_stdio(service, cpu, guest, lines);
                answer_word(cpu, word)
            }
            Service::Thvpool(service) => self.serve_thvpool(service, cpu, guest, blocks, lines),
            Service::Thfpool(service) => self.serve_thfpool(service, cpu, guest, blocks, lines),
            Service::Sysclib(service) => {
                let answered = serve_sysclib(service, cpu, guest, self.clock, lines);
                answer_or_fault(cpu, answered)
            }
        }
    }

    /// Calls service `number` of a kernel library, from a handler or from a thread. A number with
    /// no row answers -1 and is told; one that is called from elsewhere than its row allows answers
    /// `ILLEGAL_CONTEXT`.
    #[tactic(auto, using(iop_base::proofs::Giving::gives_none), unfolding(crate::specs::Serving::calls_library))]
    fn call_library<L: Lines>(
        &mut self,
        library: u32,
        number: u32,
        cpu: &mut Cpu,
        guest: &mut Guest,
        blocks: &mut Blocks,
        registry: &mut Registry,
        lines: &mut L,
    ) -> After
        requires sound { IsHeld R.stands self.old }
        requires room { HasRoomToWait R.stands self.old }
        requires number { HasNumber self.old }
        requires same_size { HasSizeOf blocks.old guest.old }
        ensures { (k : State) → Holds R.stands self.old k
            → let s = system k cpu.old guest.old blocks.old registry.old in
            Serves R.stands (calls_library library number s) result self.new cpu.new guest.new
            blocks.new registry.new (L.output lines.old) (L.output lines.new) }
    {
        let Some(row) = row_of(library, number) else {
            lines.line(
                self.clock,
                Line::Unlisted {
                    lib: library,
                    index: number,
                },
            );
            return answer_word(cpu, 0xFFFF_FFFF);
        };
        let inside = self.in_handler();
        if !row.context.allows(inside) {
            return answer(cpu, Code::ILLEGAL_CONTEXT);
        }
        self.serve(row.service, cpu, guest, blocks, registry, lines)
    }

    /// Does what is called by a code.
    #[tactic(auto, using(iop_base::proofs::Giving::gives_none))]
    fn serve_code<L: Lines>(
        &mut self,
        code: u32,
        cpu: &mut Cpu,
        guest: &mut Guest,
        blocks: &mut Blocks,
        registry: &mut Registry,
        lines: &mut L,
    ) -> After
        requires sound { IsHeld R.stands self.old }
        requires room { HasRoomToWait R.stands self.old }
        requires number { HasNumber self.old }
        requires same_size { HasSizeOf blocks.old guest.old }
        ensures { (k : State) → Holds R.stands self.old k
            → let s = system k cpu.old guest.old blocks.old registry.old in
            Serves R.stands (services s code) result self.new cpu.new guest.new blocks.new
            registry.new (L.output lines.old) (L.output lines.new) }
    {
        match Call::of_code(code) {
            Some(Call::Library { library, number }) => {
                self.call_library(library, number, cpu, guest, blocks, registry, lines)
            }
            Some(Call::ThreadReturn) => self.exit_thread(),
            Some(Call::HandlerReturn) => self.return_handler(cpu),
            Some(Call::ModuleReturn) => self.return_module(cpu),
            None => After::Fault(GuestFault::Service),
        }
    }

    /// Does what a `syscall` of a code asks for, where a thread or a handler executes. The
    /// processor stands behind it, and nothing is pending: what is pending of a load for `$v0`
    /// would replace the answer.
    ///
    /// It answers `Fault` exactly where the code has no meaning, where a place that it looks at is
    /// not in RAM or not aligned, where a handler returns as a thread or a module does, where a
    /// thread returns as a handler does, and where one other than the loader's returns as a module
    /// does: nothing has changed then. A number that no row lists answers -1 and is told, and one
    /// that is called from elsewhere than its row allows `ILLEGAL_CONTEXT`. `ModuleReturned` comes
    /// exactly where the call ends the loader's thread: interrupts are then on and dispatch is
    /// enabled, and nothing else has changed. `Switch` comes exactly where the caller waits, has
    /// ended, stands in the ready list, or is a handler that returned.
    pub fn service<L: Lines>(
        &mut self,
        code: u32,
        cpu: &mut Cpu,
        guest: &mut Guest,
        blocks: &mut Blocks,
        registry: &mut Registry,
        lines: &mut L,
    ) -> After
        requires active { IsActive R.stands self.old }
        requires number { HasNumber self.old }
        requires same_size { HasSizeOf blocks.old guest.old }
        ensures { (k : State) → Stands R.stands self.old k
            → let s = system k cpu.old guest.old blocks.old registry.old in
            ServesPlaced R.stands (services s code) result self.new cpu.new guest.new blocks.new
            registry.new (L.output lines.old) (L.output lines.new) }
    {
        self.serve_code(code, cpu, guest, blocks, registry, lines)
    }
}
