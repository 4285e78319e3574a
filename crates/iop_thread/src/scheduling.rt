//! Which thread runs, which ones wait, and how they are woken.

ghost use Rattle.std.specs.Prelude.{◌≡◌, Some};
ghost use Rattle.iop_thread.specs.ThreadTable.{ThreadTable, running_thread, best_ready};
ghost use Rattle.iop_thread.specs.Operations.{ends_running, rotates, blocks, wakes, wakes_in, wakes_up, wakes_up_by, cancels, takes_wakeup, dispatches};
ghost use Rattle.iop_thread.specs.Moves.{IsThere};
ghost use Rattle.iop_thread.specs.Standing.{Stands, IsSound, Leaves, Dispatches};

use crate::found::Found;
use crate::state::{State, with_answer};
use crate::thread::MOST_WAKEUPS;
use crate::threads::Threads;
use crate::wait::Wait;
use iop_base::Code;
use iop_exec::Cpu;
use iop_ready::{Priority, Ready};

impl<R: Ready> Threads<R> {
    /// Ends the thread that runs: it is dormant, and none runs.
    pub fn end_running(&mut self)
        requires sound { IsSound R.stands self.old }
        ensures { (s : ThreadTable) → Stands R.stands self.old s
            → Stands R.stands self.new (ends_running s) }
    {
        if let Some(found) = self.find_running() {
            self.settle(&found, State::Dormant);
        }
    }

    /// Moves the first ready thread of a priority behind all others, if there is one. The thread that
    /// runs with these registers, if it has the priority, becomes the last instead, and none runs.
    pub fn rotate(&mut self, priority: Priority, registers: &Cpu)
        requires sound { IsSound R.stands self.old }
        ensures { (s : ThreadTable) → Stands R.stands self.old s
            → Stands R.stands self.new (rotates s priority registers.now) }
    {
        match self.find_running() {
            Some(found) if found.thread.priority == priority => {
                self.leave(&found);
                self.put_last(found.slot, found.thread, *registers);
            }
            _ => self.ready.rotate(priority),
        }
    }

    /// Lets the thread that runs with these registers wait; none runs.
    pub fn block(&mut self, wait: Wait, registers: &Cpu)
        requires sound { IsSound R.stands self.old }
        ensures { (s : ThreadTable) → Stands R.stands self.old s
            → Stands R.stands self.new (blocks s wait registers.now) }
    {
        if let Some(found) = self.find_running() {
            self.settle(&found, State::Waiting(wait, *registers));
        }
    }

    /// Ends the wait of a thread, if it waits, with an answer in `$v0`: it becomes the last of all ready
    /// ones, or stays suspended.
    pub fn wake(&mut self, id: u32, answer: u32)
        requires sound { IsSound R.stands self.old }
        ensures { (s : ThreadTable) → Stands R.stands self.old s
            → Stands R.stands self.new (wakes s id answer) }
    {
        if let Some(found) = self.find(id) {
            self.wake_found(&found, answer);
        }
    }

    /// Ends the wait of a thread that was found.
    fn wake_found(&mut self, found: &Found, answer: u32)
        requires sound { IsSound R.stands self.old }
        requires there { IsThere self.old.places found.now }
        ensures { (s : ThreadTable) → Stands R.stands self.old s
            → Stands R.stands self.new
            (wakes_in s answer found.now.thread found.now.thread.state) }
    {
        match found.thread.state {
            State::Waiting(_, own) => {
                self.put_last(found.slot, found.thread, with_answer(&own, answer));
            }
            State::WaitingSuspended(_, own) => {
                self.set_state(found, State::Suspended(with_answer(&own, answer)));
            }
            _ => {}
        }
    }

    /// Wakes a thread that sleeps, with the answer 0; any other has one wakeup more, `MOST_WAKEUPS` at
    /// most. `UNKNOWN_THREAD` exactly where no live thread has the id, else `DORMANT` exactly where it
    /// is dormant.
    pub fn wakeup(&mut self, id: u32) -> Code
        requires sound { IsSound R.stands self.old }
        ensures { (s : ThreadTable) → Stands R.stands self.old s
            → Leaves R.stands (wakes_up s id) result self.new }
    {
        let Some(found) = self.find(id) else {
            return Code::UNKNOWN_THREAD;
        };
        if found.thread.state.is_dormant() {
            return Code::DORMANT;
        }
        self.wake_up_found(&found);
        Code::OK
    }

    /// Wakes a thread that was found if it sleeps; any other has one wakeup more.
    fn wake_up_found(&mut self, found: &Found)
        requires sound { IsSound R.stands self.old }
        requires there { IsThere self.old.places found.now }
        ensures { (s : ThreadTable) → Stands R.stands self.old s
            → Stands R.stands self.new
            (wakes_up_by s found.now.thread) }
    {
        if found.thread.state.sleeps() {
            return self.wake_found(found, 0);
        }
        let wakeups = found.thread.wakeups.saturating_add(1).min(MOST_WAKEUPS);
        self.set_wakeups(found, wakeups);
    }

    /// Takes all wakeups of a thread, and answers how many it had. `UNKNOWN_THREAD` exactly where no
    /// live thread has the id, else `DORMANT` exactly where it is dormant.
    pub fn cancel_wakeups(&mut self, id: u32) -> Result<u32, Code>
        requires sound { IsSound R.stands self.old }
        ensures { (s : ThreadTable) → Stands R.stands self.old s
            → Leaves R.stands (cancels s id) result self.new }
    {
        let Some(found) = self.find(id) else {
            return Err(Code::UNKNOWN_THREAD);
        };
        if found.thread.state.is_dormant() {
            return Err(Code::DORMANT);
        }
        self.set_wakeups(&found, 0);
        Ok(found.thread.wakeups)
    }

    /// Takes one wakeup of the thread that runs. False exactly where none runs or it has none.
    pub fn take_wakeup(&mut self) -> bool
        requires sound { IsSound R.stands self.old }
        ensures { (s : ThreadTable) → Stands R.stands self.old s
            → Leaves R.stands (takes_wakeup s) result self.new }
    {
        let Some(found) = self.find_running() else {
            return false;
        };
        if found.thread.wakeups == 0 {
            return false;
        }
        self.set_wakeups(&found, found.thread.wakeups - 1);
        true
    }

    /// Lets the best ready thread run, with its registers in `cpu`, where none runs or it is better than
    /// the one that runs, and answers its id. That one, with the registers in `cpu`, becomes the first
    /// of the ready ones.
    pub fn dispatch(&mut self, cpu: &mut Cpu) -> Option<u32>
        requires sound { IsSound R.stands self.old }
        ensures { (s : ThreadTable) → Stands R.stands self.old s
            → Dispatches R.stands s cpu.old (dispatches s cpu.old) result self.new cpu.new }
    {
        let best = self.find_best()?;
        match self.find_running() {
            None => Some(self.run(&best, cpu)),
            Some(running) => self.preempt(&running, &best, cpu),
        }
    }

    /// Lets the best ready thread run if it is better than the one that runs.
    fn preempt(&mut self, running: &Found, best: &Found, cpu: &mut Cpu) -> Option<u32>
        requires { (s : ThreadTable) × Stands R.stands self.old s
            × (running_thread s ≡ Some running.now.thread) × IsThere self.old.places running.now }
        ensures { (s : ThreadTable) → Stands R.stands self.old s
            → running_thread s ≡ Some running.now.thread → IsThere self.old.places running.now
            → best_ready s ≡ Some best.now.thread → IsThere self.old.places best.now
            → Dispatches R.stands s cpu.old (dispatches s cpu.old) result self.new cpu.new }
    {
        if best.thread.priority.number() >= running.thread.priority.number() {
            return None;
        }
        self.put_first(running.slot, running.thread, *cpu);
        Some(self.run(best, cpu))
    }
}
