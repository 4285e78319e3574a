//! The thread that calls, and the thread that an id names.

ghost use Rattle.std.specs.Prelude.{◌≡◌, ◌==◌, ◌||◌, None, IfSome};
ghost use Rattle.iop_thread.specs.ThreadTable.{is_it};
ghost use Rattle.iop_kernel.specs.NamedThreads.{named, get_thread_id};
ghost use Rattle.iop_kernel.specs.Standing.{Holds, TakesCore, core};
ghost use Rattle.iop_kernel.specs.System.{Kernel as State, in_handler, caller_in, running_registers};

use crate::after::After;
use crate::answering::answer_word;
use crate::kernel::Kernel;
use iop_exec::Cpu;
use iop_ready::Ready;

impl<R: Ready> Kernel<R> {
    /// Says whether a handler runs.
    pub(crate) fn in_handler(&self) -> bool
        ensures { (k : State) → Holds R.stands self.now k → result ≡ in_handler k }
    {
        self.handler.is_some()
    }

    /// Tells the id of the thread that calls. None where a handler does.
    pub(crate) fn caller(&self) -> Option<u32>
        ensures id { (k : State) → Holds R.stands self.now k → result ≡ caller_in k }
        ensures outside { IfSome result (λ id. self.now.handler ≡ None) }
    {
        match self.handler {
            Some(_) => None,
            None => self.threads.running(),
        }
    }

    /// Reads the registers of the thread that runs, by those of the processor.
    pub(crate) fn running_registers(&self, cpu: &Cpu) -> Cpu
        ensures { (k : State) → Holds R.stands self.now k
            → result ≡ running_registers (core k cpu.now) }
    {
        match &self.handler {
            Some(handler) => handler.kept,
            None => *cpu,
        }
    }

    /// Finds the thread that an id names, where 0 names the thread that calls.
    pub(crate) fn named(&self, id: u32) -> Option<u32>
        ensures { (k : State) → Holds R.stands self.now k → result ≡ named (caller_in k) id }
    {
        if id == 0 { self.caller() } else { Some(id) }
    }

    /// Says whether it is the thread of an id that runs.
    pub(crate) fn is_running(&self, id: u32) -> bool
        ensures { (k : State) → Holds R.stands self.now k → result ≡ is_it k.threads.running id }
    {
        self.threads.running() == Some(id)
    }

    /// Says whether an id is 0 or that of the thread that calls.
    pub(crate) fn is_nobody_else(&self, id: u32) -> bool
        ensures { (k : State) → Holds R.stands self.now k
            → result ≡ (id == 0 || is_it (caller_in k) id) }
    {
        id == 0 || self.caller() == Some(id)
    }

    /// Answers the id of the thread that calls.
    pub(crate) fn get_thread_id(&mut self, cpu: &mut Cpu) -> After
        ensures { (k : State) → Holds R.stands self.old k
            → TakesCore R.stands (get_thread_id (core k cpu.old)) result self.new cpu.new }
    {
        answer_word(cpu, self.caller().unwrap_or(0))
    }
}
