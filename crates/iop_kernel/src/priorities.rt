//! Whether another thread may run, the priorities of threads, and the order of those that have the
//! same one.

ghost use Rattle.std.specs.Prelude.{◌≡◌, option_map};
ghost use Rattle.iop_thread.specs.ThreadTable.{running_thread};
ghost use Rattle.iop_thread.specs.Operations.{changes};
ghost use Rattle.iop_kernel.specs.Priorities.{set_dispatch, answers_change, changes_named, change_priority, rotates_to, rotates_own, rotate_ready_queue};
ghost use Rattle.iop_kernel.specs.Standing.{Holds, IsHeld, TakesCore, core};
ghost use Rattle.iop_kernel.specs.System.{Kernel as State, caller_in, may_switch};

use crate::after::After;
use crate::answering::{answer, answer_word};
use crate::kernel::Kernel;
use iop_base::Code;
use iop_exec::Cpu;
use iop_ready::{Priority, Ready};

impl<R: Ready> Kernel<R> {
    /// Says whether another thread may run, so that the one that runs may wait.
    pub(crate) fn may_switch(&self) -> bool
        ensures { (k : State) → Holds R.stands self.now k → result ≡ may_switch k }
    {
        self.interrupts && self.dispatching
    }

    /// Enables or disables dispatch. `INTERRUPTS_DISABLED` where interrupts are off.
    pub(crate) fn set_dispatch(&mut self, enabled: bool, cpu: &mut Cpu) -> After
        ensures { (k : State) → Holds R.stands self.old k
            → TakesCore R.stands (set_dispatch (core k cpu.old) enabled) result
            self.new cpu.new }
    {
        if !self.interrupts {
            return answer(cpu, Code::INTERRUPTS_DISABLED);
        }
        self.dispatching = enabled;
        answer(cpu, Code::OK)
    }

    /// Gives a thread a priority, also among those that wait for its object, and answers a code.
    fn change(&mut self, id: u32, priority: Priority, cpu: &mut Cpu) -> After
        requires sound { IsHeld R.stands self.old }
        ensures { (k : State) → Holds R.stands self.old k → let c = core k cpu.old in
            TakesCore R.stands (answers_change c id priority (changes k.threads id priority)) result
            self.new cpu.new }
    {
        match self.threads.change(id, priority) {
            Ok(wait) => {
                self.requeue(id, priority, wait);
                answer(cpu, Code::OK)
            }
            Err(code) => answer(cpu, code),
        }
    }

    /// Gives the thread that an id names a priority, and answers a code.
    fn change_named(&mut self, named: Option<u32>, priority: Priority, cpu: &mut Cpu) -> After
        requires sound { IsHeld R.stands self.old }
        ensures { (k : State) → Holds R.stands self.old k
            → TakesCore R.stands (changes_named (core k cpu.old) priority named) result
            self.new cpu.new }
    {
        match named {
            Some(id) => self.change(id, priority, cpu),
            None => answer(cpu, Code::ILLEGAL_THREAD),
        }
    }

    /// Changes the priority of a thread, 0 for the one that calls, and answers a code:
    /// `ILLEGAL_PRIORITY` for a word that is none, then those of `Threads::change`.
    pub(crate) fn change_priority(&mut self, id: u32, priority: u32, cpu: &mut Cpu) -> After
        requires sound { IsHeld R.stands self.old }
        ensures { (k : State) → Holds R.stands self.old k
            → TakesCore R.stands (change_priority (core k cpu.old) id priority) result
            self.new cpu.new }
    {
        match Priority::of(priority) {
            Some(priority) => self.change_named(self.named(id), priority, cpu),
            None => answer(cpu, Code::ILLEGAL_PRIORITY),
        }
    }

    /// Tells the priority of the thread that runs.
    fn running_priority(&self) -> Option<Priority>
        ensures { (k : State) → Holds R.stands self.now k
            → result ≡ option_map (λ t. t.priority) (running_thread k.threads) }
    {
        let thread = self.threads.get(self.threads.running()?)?;
        Some(thread.priority)
    }

    /// Moves the first ready thread of a priority behind all others, and answers 0. Where the
    /// thread that runs has the priority, it goes there instead, if another may run now.
    fn rotate_to(&mut self, priority: Priority, cpu: &mut Cpu) -> After
        requires sound { IsHeld R.stands self.old }
        ensures { (k : State) → Holds R.stands self.old k
            → TakesCore R.stands (rotates_to (core k cpu.old) priority) result self.new cpu.new }
    {
        let own = self.running_priority() == Some(priority);
        let after = answer_word(cpu, 0);
        if own && !self.may_switch() {
            return after;
        }
        let registers = self.running_registers(cpu);
        self.threads.rotate(priority, &registers);
        if own && !self.in_handler() {
            After::Switch
        } else {
            after
        }
    }

    /// Moves the threads of the priority of the one that calls. `ILLEGAL_PRIORITY` where a handler
    /// calls.
    fn rotate_own(&mut self, cpu: &mut Cpu) -> After
        requires sound { IsHeld R.stands self.old }
        ensures { (k : State) → Holds R.stands self.old k
            → TakesCore R.stands (rotates_own (core k cpu.old) (caller_in k)) result
            self.new cpu.new }
    {
        if self.in_handler() {
            return answer(cpu, Code::ILLEGAL_PRIORITY);
        }
        match self.running_priority() {
            Some(priority) => self.rotate_to(priority, cpu),
            None => answer(cpu, Code::ILLEGAL_PRIORITY),
        }
    }

    /// Moves the first ready thread of a priority behind all others, 0 for the priority of the
    /// thread that calls. It answers 0, or `ILLEGAL_PRIORITY` for a word that is none.
    pub(crate) fn rotate_ready_queue(&mut self, word: u32, cpu: &mut Cpu) -> After
        requires sound { IsHeld R.stands self.old }
        ensures { (k : State) → Holds R.stands self.old k
            → TakesCore R.stands (rotate_ready_queue (core k cpu.old) word) result
            self.new cpu.new }
    {
        match Priority::of(word) {
            Some(priority) => self.rotate_to(priority, cpu),
            None if word == 0 => self.rotate_own(cpu),
            None => answer(cpu, Code::ILLEGAL_PRIORITY),
        }
    }
}
