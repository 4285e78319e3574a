//! How the waits of threads end and change.

ghost use Rattle.std.specs.Prelude.{◌≡◌};
ghost use Rattle.iop_exec.specs.declared.cpu.Cpu.{Cpu as Processor};
ghost use Rattle.iop_thread.specs.ThreadTable.{priority_of};
ghost use Rattle.iop_kernel.specs.System.{Kernel as State};
ghost use Rattle.iop_kernel.specs.Standing.{Holds, IsHeld, core};
ghost use Rattle.iop_kernel.specs.Waits.{wakes_word, leaves_object, requeues_at, wakes_with};

use crate::kernel::Kernel;
use iop_base::Code;
use iop_ready::{Priority, Ready};
use iop_thread::Wait;

impl<R: Ready> Kernel<R> {
    /// Ends the wait of a thread, with a word as its answer.
    pub(crate) fn wake_with(&mut self, thread: u32, word: u32)
        requires sound { IsHeld R.stands self.old }
        ensures { (k : State) (cpu : Processor) → Holds R.stands self.old k
            → Holds R.stands self.new (wakes_word (core k cpu) thread word).kernel }
    {
        self.threads.wake(thread, word);
    }

    /// Ends the wait of a thread, with a code as its answer.
    pub(crate) fn wake(&mut self, thread: u32, code: Code)
        requires sound { IsHeld R.stands self.old }
        ensures { (k : State) (cpu : Processor) → Holds R.stands self.old k
            → Holds R.stands self.new (wakes_with (core k cpu) thread code).kernel }
    {
        self.threads.wake(thread, code.0.cast_unsigned());
    }

    /// Takes a thread out of those that wait for the object of its wait, or for a time.
    pub(crate) fn leave_object(&mut self, thread: u32, wait: Option<Wait>)
        ensures { (k : State) → Holds R.stands self.old k
            → Holds R.stands self.new (leaves_object k thread wait) }
    {
        match wait {
            Some(Wait::Delay) => self.timers.drop_delay(thread),
            Some(Wait::Object(kind, id)) => self.drop_waiter(kind, id, thread),
            _ => {}
        }
    }

    /// Gives a thread another priority among those that wait for the object of its wait.
    pub(crate) fn requeue(&mut self, thread: u32, priority: Priority, wait: Option<Wait>)
        ensures { (k : State) → Holds R.stands self.old k
            → Holds R.stands self.new (requeues_at k thread priority wait) }
    {
        let priority = priority.number();
        if let Some(Wait::Object(kind, id)) = wait {
            self.requeue_waiter(kind, id, thread, priority);
        }
    }

    /// Reads the priority of a thread: 0 where none of this id is live.
    pub(crate) fn priority_of(&self, thread: u32) -> u8
        ensures { (k : State) → Holds R.stands self.now k
            → result ≡ priority_of k.threads.live thread }
    {
        match self.threads.get(thread) {
            Some(thread) => thread.priority.number(),
            None => 0,
        }
    }
}
