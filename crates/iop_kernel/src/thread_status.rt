//! The status of a thread.

ghost use Rattle.std.specs.Prelude.{◌≡◌, ◌+◌, ◌*◌, ◌≤◌, Some, List, length};
ghost use Rattle.iop_base.specs.Places.{IsRamSize};
ghost use Rattle.iop_registry.specs.declared.registry.Entry.{Entry};
ghost use Rattle.iop_sysmem.specs.BlockMap.{BlockMap};
ghost use Rattle.iop_kernel.specs.Standing.{Holds, IsHeld, Serves, system};
ghost use Rattle.iop_kernel.specs.System.{Kernel as State};
ghost use Rattle.iop_kernel.specs.ThreadStatus.{status_words, refers_it, refer_thread_status};
ghost use Rattle.iop_kernel.specs.declared.thread_status.TheConstants.{STATUS_WORDS};

use crate::after::After;
use crate::answering::answer;
use crate::kernel::Kernel;
use crate::places::words_place;
use crate::words::store_words;
use iop_base::{Code, GuestFault, Lines};
use iop_exec::Cpu;
use iop_ready::Ready;
use iop_stubs::Guest;
use iop_thread::{Thread, Wait};

/// How many words the status of a thread has.
pub const STATUS_WORDS: usize = 12;

/// Tells the words of a thread's status.
fn status_words(thread: &Thread) -> [u32; STATUS_WORDS]
    ensures { result ≡ status_words thread.now }
{
    let wait = thread.state.wait();
    [
        thread.param.attr,
        thread.param.option,
        thread.state.number(),
        thread.param.entry,
        thread.stack,
        thread.param.stack_size,
        thread.gp,
        u32::from(thread.param.priority.number()),
        u32::from(thread.priority.number()),
        wait.map_or(0, Wait::kind),
        wait.map_or(0, Wait::object),
        thread.wakeups,
    ]
}

impl<R: Ready> Kernel<R> {
    /// Writes the status of a thread at a physical place, where it has room.
    fn write_status<L: Lines>(
        &self,
        thread: &Thread,
        place: u32,
        cpu: &mut Cpu,
        guest: &mut Guest,
        lines: &mut L,
    ) -> After
        requires inside { place + 4 * STATUS_WORDS ≤ length guest.old.ram }
        requires sized { IsRamSize (length guest.old.ram) }
        ensures { (k : State) (blocks : BlockMap) (libraries : List Entry)
            → Holds R.stands self.now k
            → let s = system k cpu.old guest.old blocks libraries in
            Serves R.stands (refers_it s place (Some thread.now)) result self.now cpu.new guest.new
            blocks libraries (L.output lines.old) (L.output lines.new) }
    {
        store_words(guest, place, &status_words(thread), self.clock, lines);
        answer(cpu, Code::OK)
    }

    /// Writes the twelve words of a thread's status at `at`: attributes, option, state, entry,
    /// stack, stack size, `$gp`, first priority, priority, kind of its wait, id of the object that
    /// it waits for, wakeups. The place is looked at first.
    #[tactic(auto, using(iop_base::proofs::Giving::gives_none))]
    pub(crate) fn refer_thread_status<L: Lines>(
        &mut self,
        id: u32,
        at: u32,
        cpu: &mut Cpu,
        guest: &mut Guest,
        lines: &mut L,
    ) -> After
        requires sound { IsHeld R.stands self.old }
        ensures { (k : State) (blocks : BlockMap) (libraries : List Entry)
            → Holds R.stands self.old k
            → let s = system k cpu.old guest.old blocks libraries in
            Serves R.stands (refer_thread_status s id at) result self.new cpu.new guest.new blocks
            libraries (L.output lines.old) (L.output lines.new) }
    {
        let Some(place) = words_place(guest, at, STATUS_WORDS as u32) else {
            return After::Fault(GuestFault::Address);
        };
        let Some(id) = self.named(id) else {
            return answer(cpu, Code::ILLEGAL_THREAD);
        };
        let Some(thread) = self.threads.get(id) else {
            return answer(cpu, Code::UNKNOWN_THREAD);
        };
        self.write_status(thread, place, cpu, guest, lines)
    }
}
