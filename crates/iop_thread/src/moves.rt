//! The moves of single threads: found, changed, put into the ready list, taken out of it, run.

ghost use Rattle.std.specs.Prelude.{◌≡◌, ℕ, MatchOption, Some, None, option_map};
ghost use Rattle.iop_thread.specs.ThreadTable.{ThreadTable, thread_of, running_thread, best_ready, with_thread, in_state, ready_last, ready_first, leaves, runs, with_wakeups};
ghost use Rattle.iop_thread.specs.Operations.{ready_registers};
ghost use Rattle.iop_thread.specs.ThreadPlaces.{thread_at};
ghost use Rattle.iop_thread.specs.Moves.{IsThere, IsIn, CanBecome, CanEnter};
ghost use Rattle.iop_thread.specs.Standing.{Stands, Holds, IsOpenTo};

use crate::found::Found;
use crate::state::State;
use crate::thread::Thread;
use crate::threads::Threads;
use iop_exec::Cpu;
use iop_ready::{Ready, Slot};

impl<R: Ready> Threads<R> {
    /// Finds the live thread of an id, with its place.
    pub(crate) fn find(&self, id: u32) -> Option<Found>
        ensures { (s : ThreadTable) → Stands R.stands self.now s → MatchOption result
            (thread_of s.live id ≡ None)
            (λ found. (thread_of s.live id ≡ Some found.thread) × IsThere self.now.places found) }
    {
        let slot = self.places.find(id)?;
        self.found_in(slot)
    }

    /// Finds the thread that runs, with its place.
    pub(crate) fn find_running(&self) -> Option<Found>
        ensures { (s : ThreadTable) → Stands R.stands self.now s → MatchOption result
            (running_thread s ≡ None)
            (λ found. (running_thread s ≡ Some found.thread) × IsThere self.now.places found) }
    {
        let slot = self.running?;
        self.found_in(slot)
    }

    /// Finds the best ready thread, with its place.
    pub(crate) fn find_best(&self) -> Option<Found>
        ensures { (s : ThreadTable) → Stands R.stands self.now s → MatchOption result
            (best_ready s ≡ None)
            (λ found. (best_ready s ≡ Some found.thread) × IsThere self.now.places found) }
    {
        let slot = self.ready.best()?;
        self.found_in(slot)
    }

    /// Finds the thread in a place.
    pub(crate) fn found_in(&self, slot: Slot) -> Option<Found>
        ensures { result ≡ option_map (λ t. record { slot = slot; thread = t })
            (thread_at self.now.places slot) }
    {
        let thread = *self.places.get(slot)?;
        Some(Found { slot, thread })
    }

    /// Changes the record of a thread. If it is in the ready list it keeps its priority.
    pub(crate) fn set(&mut self, slot: Slot, thread: Thread)
        ensures { (place : ℕ → ℕ) (s : ThreadTable) → Holds R.stands place self.old s
            → CanBecome place s slot thread
            → Holds R.stands place self.new (with_thread s thread) }
    {
        self.places.put(slot, thread);
    }

    /// Changes the state of a thread, and not whether it runs or is in the ready list.
    pub(crate) fn set_state(&mut self, found: &Found, state: State)
        ensures { (place : ℕ → ℕ) (s : ThreadTable) → Holds R.stands place self.old s
            → IsIn place s.live found.now.slot found.now.thread
            → Holds R.stands place self.new (in_state s found.now.thread state) }
    {
        let changed = Thread {
            state,
            ..found.thread
        };
        self.set(found.slot, changed);
    }

    /// Changes how many wakeups a thread has.
    pub(crate) fn set_wakeups(&mut self, found: &Found, wakeups: u32)
        ensures { (place : ℕ → ℕ) (s : ThreadTable) → Holds R.stands place self.old s
            → IsIn place s.live found.now.slot found.now.thread
            → Holds R.stands place self.new (with_wakeups s found.now.thread wakeups) }
    {
        let changed = Thread {
            wakeups,
            ..found.thread
        };
        self.set(found.slot, changed);
    }

    /// Takes a thread off the processor or out of the ready list.
    pub(crate) fn leave(&mut self, found: &Found)
        ensures { (place : ℕ → ℕ) (s : ThreadTable) → Holds R.stands place self.old s
            → IsIn place s.live found.now.slot found.now.thread
            → Holds R.stands place self.new (leaves s found.now.thread found.now.thread.state) }
    {
        match found.thread.state {
            State::Running => self.running = None,
            State::Ready(_) => self.ready.remove(found.slot),
            _ => {}
        }
    }

    /// Takes a thread off the processor or out of the ready list, into another state.
    pub(crate) fn settle(&mut self, found: &Found, state: State)
        ensures { (place : ℕ → ℕ) (s : ThreadTable) → Holds R.stands place self.old s
            → IsIn place s.live found.now.slot found.now.thread
            → Holds R.stands place self.new
            (in_state (leaves s found.now.thread found.now.thread.state) found.now.thread state) }
    {
        self.leave(found);
        self.set_state(found, state);
    }

    /// Makes a thread ready with these registers, behind all others.
    pub(crate) fn put_last(&mut self, slot: Slot, thread: Thread, registers: Cpu)
        requires { IsOpenTo R.stands self.old slot thread }
        ensures { (place : ℕ → ℕ) (s : ThreadTable) → Holds R.stands place self.old s
            → CanEnter place s slot thread
            → Holds R.stands place self.new (ready_last s thread registers) }
    {
        let state = State::Ready(registers);
        self.set(slot, Thread { state, ..thread });
        self.ready.add_last(slot, thread.priority);
    }

    /// Makes a thread ready with these registers, in front of all others.
    pub(crate) fn put_first(&mut self, slot: Slot, thread: Thread, registers: Cpu)
        requires { IsOpenTo R.stands self.old slot thread }
        ensures { (place : ℕ → ℕ) (s : ThreadTable) → Holds R.stands place self.old s
            → CanEnter place s slot thread
            → Holds R.stands place self.new (ready_first s thread registers) }
    {
        let state = State::Ready(registers);
        self.set(slot, Thread { state, ..thread });
        self.ready.add_first(slot, thread.priority);
    }

    /// Lets a ready thread run, with its registers in `cpu`, and answers its id.
    pub(crate) fn run(&mut self, found: &Found, cpu: &mut Cpu) -> u32
        ensures state { (place : ℕ → ℕ) (s : ThreadTable) → Holds R.stands place self.old s
            → IsIn place s.live found.now.slot found.now.thread
            → Holds R.stands place self.new (runs s found.now.thread) }
        ensures registers { cpu.new ≡ ready_registers found.now.thread.state cpu.old }
        ensures id { result ≡ found.now.thread.id }
    {
        self.set_state(found, State::Running);
        self.ready.remove(found.slot);
        self.running = Some(found.slot);
        *cpu = found.thread.state.ready_registers(cpu);
        found.thread.id
    }
}
