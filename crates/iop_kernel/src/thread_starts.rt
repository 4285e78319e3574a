//! How threads start and end.

ghost use Rattle.std.specs.Prelude.{◌≡◌, true};
ghost use Rattle.iop_thread.specs.Operations.{ends_running, terminates};
ghost use Rattle.iop_kernel.specs.Standing.{Holds, IsHeld, TakesCore, core};
ghost use Rattle.iop_kernel.specs.System.{Kernel as State};
ghost use Rattle.iop_kernel.specs.ThreadStarts.{start_thread, exit_thread, return_module, terminates_by, terminate_thread};

use crate::after::After;
use crate::answering::answer;
use crate::kernel::Kernel;
use iop_base::{Code, GuestFault};
use iop_exec::Cpu;
use iop_ready::Ready;
use iop_thread::LOADER;

impl<R: Ready> Kernel<R> {
    /// Starts a dormant thread with an argument, and answers a code: `ILLEGAL_THREAD` for 0 and the
    /// loader's thread, and those of `Threads::start`.
    pub(crate) fn start_thread(&mut self, id: u32, argument: u32, cpu: &mut Cpu) -> After
        requires sound { IsHeld R.stands self.old }
        ensures { (k : State) → Holds R.stands self.old k
            → TakesCore R.stands (start_thread (core k cpu.old) id argument) result
            self.new cpu.new }
    {
        if id == 0 || id == LOADER {
            return answer(cpu, Code::ILLEGAL_THREAD);
        }
        let code = self.threads.start(id, argument);
        answer(cpu, code)
    }

    /// Turns interrupts on and enables dispatch.
    fn open(&mut self)
        ensures { (k : State) → Holds R.stands self.old k
            → Holds R.stands self.new (record k { interrupts = true; dispatching = true }) }
    {
        self.interrupts = true;
        self.dispatching = true;
    }

    /// Ends the loader's thread: its module returns a word.
    pub(crate) fn end_module(&mut self, word: u32) -> After
        ensures answer { result ≡ After.ModuleReturned word }
        ensures state { (k : State) → Holds R.stands self.old k
            → Holds R.stands self.new (record k { interrupts = true; dispatching = true }) }
    {
        self.open();
        After::ModuleReturned(word)
    }

    /// Ends the thread that calls.
    pub(crate) fn end(&mut self)
        requires sound { IsHeld R.stands self.old }
        ensures { (k : State) → Holds R.stands self.old k → let threads = ends_running k.threads in
            Holds R.stands self.new
            (record k { interrupts = true; dispatching = true; threads = threads }) }
    {
        self.open();
        self.threads.end_running();
    }

    /// Ends the thread that calls. In the loader's thread it is the return of its module, of 0.
    pub(crate) fn exit_thread(&mut self) -> After
        requires sound { IsHeld R.stands self.old }
        ensures { (k : State) (cpu : Cpu) → Holds R.stands self.old k
            → TakesCore R.stands (exit_thread (core k cpu)) result self.new cpu }
    {
        match self.caller() {
            None => After::Fault(GuestFault::Service),
            Some(LOADER) => self.end_module(0),
            Some(_) => {
                self.end();
                After::Switch
            }
        }
    }

    /// Ends the loader's thread where it calls: its module returns the word in `$v0`. From any
    /// other thread the call faults.
    pub(crate) fn return_module(&mut self, cpu: &Cpu) -> After
        ensures { (k : State) → Holds R.stands self.old k
            → TakesCore R.stands (return_module (core k cpu.now)) result self.new cpu.now }
    {
        if self.caller() == Some(LOADER) {
            return self.end_module(cpu.regs[2]);
        }
        After::Fault(GuestFault::Service)
    }

    /// Ends a thread, which then waits for no object, and answers a code. If it ran, interrupts are
    /// then on and dispatch is enabled.
    fn terminate(&mut self, id: u32, cpu: &mut Cpu) -> After
        requires sound { IsHeld R.stands self.old }
        ensures { (k : State) → Holds R.stands self.old k → let c = core k cpu.old in
            TakesCore R.stands (terminates_by c id (terminates k.threads id)) result
            self.new cpu.new }
    {
        // From a handler alone: a thread that calls is the one that runs.
        let ran = self.is_running(id);
        match self.threads.terminate(id) {
            Ok(wait) => {
                if ran {
                    self.open();
                }
                self.leave_object(id, wait);
                answer(cpu, Code::OK)
            }
            Err(code) => answer(cpu, code),
        }
    }

    /// Ends another thread, and answers a code: `ILLEGAL_THREAD` for 0, the thread that calls and
    /// the loader's, and those of `Threads::terminate`.
    pub(crate) fn terminate_thread(&mut self, id: u32, cpu: &mut Cpu) -> After
        requires sound { IsHeld R.stands self.old }
        ensures { (k : State) → Holds R.stands self.old k
            → TakesCore R.stands (terminate_thread (core k cpu.old) id) result self.new cpu.new }
    {
        if self.is_nobody_else(id) || id == LOADER {
            return answer(cpu, Code::ILLEGAL_THREAD);
        }
        self.terminate(id, cpu)
    }
}
