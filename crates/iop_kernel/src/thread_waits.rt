//! How threads wait, are woken, suspended and resumed.

ghost use Rattle.iop_kernel.specs.Standing.{Holds, IsHeld, TakesCore, core};
ghost use Rattle.iop_kernel.specs.System.{Kernel as State};
ghost use Rattle.iop_kernel.specs.ThreadWaits.{releases_from, release_wait, waits, sleep_thread, wakeup_thread, cancel_wakeups, suspend_thread, resume_thread};

use crate::after::After;
use crate::answering::{answer, answer_word};
use crate::kernel::Kernel;
use iop_base::Code;
use iop_exec::Cpu;
use iop_ready::Ready;
use iop_thread::Wait;

impl<R: Ready> Kernel<R> {
    /// Ends the wait of a thread with `WAIT_RELEASED`, and answers a code: `NOT_WAITING` where it
    /// has none.
    fn release_from(&mut self, id: u32, wait: Option<Wait>, cpu: &mut Cpu) -> After
        requires sound { IsHeld R.stands self.old }
        ensures { (k : State) → Holds R.stands self.old k
            → TakesCore R.stands (releases_from (core k cpu.old) id wait) result
            self.new cpu.new }
    {
        if wait.is_none() {
            return answer(cpu, Code::NOT_WAITING);
        }
        self.wake(id, Code::WAIT_RELEASED);
        self.leave_object(id, wait);
        answer(cpu, Code::OK)
    }

    /// Ends the wait of another thread, and answers a code: `ILLEGAL_THREAD` for 0 and the thread
    /// that calls, `UNKNOWN_THREAD` for an id that no live thread has, `NOT_WAITING` for one that
    /// does not wait.
    pub(crate) fn release_wait(&mut self, id: u32, cpu: &mut Cpu) -> After
        requires sound { IsHeld R.stands self.old }
        ensures { (k : State) → Holds R.stands self.old k
            → TakesCore R.stands (release_wait (core k cpu.old) id) result self.new cpu.new }
    {
        if self.is_nobody_else(id) {
            return answer(cpu, Code::ILLEGAL_THREAD);
        }
        match self.threads.get(id) {
            Some(thread) => {
                let (id, wait) = (thread.id, thread.state.wait());
                self.release_from(id, wait, cpu)
            }
            None => answer(cpu, Code::UNKNOWN_THREAD),
        }
    }

    /// Lets the thread that calls wait.
    pub(crate) fn wait(&mut self, wait: Wait, cpu: &Cpu) -> After
        requires sound { IsHeld R.stands self.old }
        ensures { (k : State) → Holds R.stands self.old k
            → TakesCore R.stands (waits (core k cpu.now) wait) result self.new cpu.now }
    {
        let registers = self.running_registers(cpu);
        self.threads.block(wait, &registers);
        After::Switch
    }

    /// Takes a wakeup of the thread that calls, or lets it wait until it is woken. `CANNOT_WAIT`
    /// where no other thread may run.
    #[tactic(auto, using(crate::proofs::Bodies::Refusals::no_wakeup))]
    pub(crate) fn sleep_thread(&mut self, cpu: &mut Cpu) -> After
        requires sound { IsHeld R.stands self.old }
        ensures { (k : State) → Holds R.stands self.old k
            → TakesCore R.stands (sleep_thread (core k cpu.old)) result self.new cpu.new }
    {
        if !self.may_switch() {
            return answer(cpu, Code::CANNOT_WAIT);
        }
        if self.threads.take_wakeup() {
            return answer(cpu, Code::OK);
        }
        self.wait(Wait::Sleep, cpu)
    }

    /// Wakes another thread, and answers a code: `ILLEGAL_THREAD` for 0 and the thread that calls,
    /// and those of `Threads::wakeup`.
    pub(crate) fn wakeup_thread(&mut self, id: u32, cpu: &mut Cpu) -> After
        requires sound { IsHeld R.stands self.old }
        ensures { (k : State) → Holds R.stands self.old k
            → TakesCore R.stands (wakeup_thread (core k cpu.old) id) result self.new cpu.new }
    {
        if self.is_nobody_else(id) {
            return answer(cpu, Code::ILLEGAL_THREAD);
        }
        let code = self.threads.wakeup(id);
        answer(cpu, code)
    }

    /// Takes all wakeups of a thread, 0 for the one that calls, and answers how many it had, or a
    /// code.
    pub(crate) fn cancel_wakeups(&mut self, id: u32, cpu: &mut Cpu) -> After
        requires sound { IsHeld R.stands self.old }
        ensures { (k : State) → Holds R.stands self.old k
            → TakesCore R.stands (cancel_wakeups (core k cpu.old) id) result self.new cpu.new }
    {
        let Some(id) = self.named(id) else {
            return answer(cpu, Code::ILLEGAL_THREAD);
        };
        match self.threads.cancel_wakeups(id) {
            Ok(wakeups) => answer_word(cpu, wakeups),
            Err(code) => answer(cpu, code),
        }
    }

    /// Suspends another thread, and answers a code: `ILLEGAL_THREAD` for 0 and the thread that
    /// calls, `CANNOT_WAIT` where it runs while dispatch is disabled, and those of
    /// `Threads::suspend`.
    pub(crate) fn suspend_thread(&mut self, id: u32, cpu: &mut Cpu) -> After
        requires sound { IsHeld R.stands self.old }
        ensures { (k : State) → Holds R.stands self.old k
            → TakesCore R.stands (suspend_thread (core k cpu.old) id) result self.new cpu.new }
    {
        if self.is_nobody_else(id) {
            return answer(cpu, Code::ILLEGAL_THREAD);
        }
        // From a handler alone: a thread that calls is the one that runs.
        if self.is_running(id) && !self.dispatching {
            return answer(cpu, Code::CANNOT_WAIT);
        }
        let registers = self.running_registers(cpu);
        let code = self.threads.suspend(id, &registers);
        answer(cpu, code)
    }

    /// Resumes another thread, and answers a code: `ILLEGAL_THREAD` for 0 and the thread that
    /// calls, and those of `Threads::resume`.
    pub(crate) fn resume_thread(&mut self, id: u32, cpu: &mut Cpu) -> After
        requires sound { IsHeld R.stands self.old }
        ensures { (k : State) → Holds R.stands self.old k
            → TakesCore R.stands (resume_thread (core k cpu.old) id) result self.new cpu.new }
    {
        if self.is_nobody_else(id) {
            return answer(cpu, Code::ILLEGAL_THREAD);
        }
        let code = self.threads.resume(id);
        answer(cpu, code)
    }
}
