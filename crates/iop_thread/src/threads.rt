//! The table of the threads: who is made, started, ended, and what is changed of a thread by its id.

ghost use Rattle.std.specs.Prelude.{◌≡◌, [], IfOk, option_map, None, nat_le, ◌&&◌, if◌then◌else◌};
ghost use Rattle.iop_thread.specs.ThreadTable.{ThreadTable, thread_of, with_priority, has_room};
ghost use Rattle.iop_thread.specs.Operations.{opening, creates, deletes, starts, begins, terminates, changes, suspends, resumes, resumes_in};
ghost use Rattle.iop_thread.specs.Restoring.{may_be_next, with_next};
ghost use Rattle.iop_thread.specs.Moves.{IsThere};
ghost use Rattle.iop_thread.specs.Standing.{Stands, IsSound, Leaves, Lends};

use crate::found::Found;
use crate::param::Param;
use crate::places::Places;
use crate::state::State;
use crate::thread::{LOADER, Thread};
use crate::wait::Wait;
use iop_base::{Code, LAST_ID};
use iop_exec::Cpu;
use iop_ready::{Priority, Ready, Slot};
use std::alloc::{AllocError, Global};

/// The live threads, which of them are ready, and which one runs.
#[derive(Drop)]
pub struct Threads<R> {
    pub(crate) places: Places,
    pub(crate) ready: R,
    pub(crate) running: Option<Slot>,
    pub(crate) next: u32,
}

impl<R: Ready> Threads<R> {
    /// Makes the loader's thread alone, dormant, beside a list of ready threads in which none is. It
    /// takes all the memory that the threads will need; `AllocError` where the host has less.
    pub fn new(alloc: Global, ready: R) -> Result<Self, AllocError>
    where
        R: Drop,
        requires none { R.stands ready [] }
        ensures { IfOk result (λ threads. Stands R.stands threads opening) }
    {
        let places = Places::new(alloc, Thread::loader())?;
        Ok(Threads::idle(places, ready, LOADER + 1))
    }

    /// Makes the table of the threads in some places, of which none runs.
    pub(crate) fn idle(places: Places, ready: R, next: u32) -> Self
        ensures { result ≡ record { places = places; ready = ready; running = None; next = next } }
    {
        Threads {
            places,
            ready,
            running: None,
            next,
        }
    }

    /// Lends the list of the ready threads, each by its slot and with its priority.
    pub fn ready(&self) -> &R
        ensures { (s : ThreadTable) → Stands R.stands self.now s → Lends R.stands result.now s }
    {
        &self.ready
    }

    /// Finds the live thread of an id.
    pub fn get(&self, id: u32) -> Option<&Thread>
        ensures { (s : ThreadTable) → Stands R.stands self.now s
            → option_map (λ t. t.now) result ≡ thread_of s.live id }
    {
        let slot = self.places.find(id)?;
        self.places.get(slot)
    }

    /// Tells the id of the thread that runs.
    pub fn running(&self) -> Option<u32>
        ensures { (s : ThreadTable) → Stands R.stands self.now s → result ≡ s.running }
    {
        let running = self.find_running()?;
        Some(running.thread.id)
    }

    /// Says whether one more thread can be made: an id is left, and fewer than `MOST_THREADS` are live.
    pub fn has_room(&self) -> bool
        ensures { (s : ThreadTable) → Stands R.stands self.now s → result ≡ has_room s }
    {
        self.places.free().is_some() && self.next <= LAST_ID
    }

    /// Makes a dormant thread, with its stack at a physical place and the `$gp` of its maker, and
    /// answers its id. `NO_MEMORY` exactly where there is no room.
    pub fn create(&mut self, param: Param, stack: u32, gp: u32) -> Result<u32, Code>
        requires sound { IsSound R.stands self.old }
        ensures { (s : ThreadTable) → Stands R.stands self.old s
            → Leaves R.stands (creates s param stack gp) result self.new }
    {
        let Some(slot) = self.places.free() else {
            return Err(Code::NO_MEMORY);
        };
        if self.next > LAST_ID {
            return Err(Code::NO_MEMORY);
        }
        let id = self.next;
        self.places.put(slot, Thread::dormant(id, param, stack, gp));
        self.next += 1;
        Ok(id)
    }

    /// Deletes a dormant thread, and answers where its stack begins. `UNKNOWN_THREAD` exactly where no
    /// live thread has the id, else `NOT_DORMANT` exactly where it is not dormant.
    pub fn delete(&mut self, id: u32) -> Result<u32, Code>
        requires sound { IsSound R.stands self.old }
        ensures { (s : ThreadTable) → Stands R.stands self.old s
            → Leaves R.stands (deletes s id) result self.new }
    {
        let Some(found) = self.find(id) else {
            return Err(Code::UNKNOWN_THREAD);
        };
        if !found.thread.state.is_dormant() {
            return Err(Code::NOT_DORMANT);
        }
        self.places.clear(found.slot);
        Ok(found.thread.stack)
    }

    /// Makes a dormant thread ready, last of all, with an argument in `$a0`, its first priority and no
    /// wakeups. `UNKNOWN_THREAD` exactly where no live thread has the id, else `NOT_DORMANT` exactly
    /// where it is not dormant.
    pub fn start(&mut self, id: u32, argument: u32) -> Code
        requires sound { IsSound R.stands self.old }
        ensures { (s : ThreadTable) → Stands R.stands self.old s
            → Leaves R.stands (starts s id argument) result self.new }
    {
        let Some(found) = self.find(id) else {
            return Code::UNKNOWN_THREAD;
        };
        if !found.thread.state.is_dormant() {
            return Code::NOT_DORMANT;
        }
        let registers = found.thread.first_registers(argument);
        self.put_last(found.slot, found.thread.as_at_first(), registers);
        Code::OK
    }

    /// Makes the loader's thread, if it is dormant, ready with these registers.
    pub fn begin(&mut self, registers: &Cpu)
        requires sound { IsSound R.stands self.old }
        ensures { (s : ThreadTable) → Stands R.stands self.old s
            → Stands R.stands self.new (begins s registers.now) }
    {
        if let Some(found) = self.find(LOADER) {
            if found.thread.state.is_dormant() {
                self.put_last(found.slot, found.thread, *registers);
            }
        }
    }

    /// Ends a thread, whatever it does, and answers what it waited for. `UNKNOWN_THREAD` exactly where
    /// no live thread has the id, else `DORMANT` exactly where it is dormant.
    pub fn terminate(&mut self, id: u32) -> Result<Option<Wait>, Code>
        requires sound { IsSound R.stands self.old }
        ensures { (s : ThreadTable) → Stands R.stands self.old s
            → Leaves R.stands (terminates s id) result self.new }
    {
        let Some(found) = self.find(id) else {
            return Err(Code::UNKNOWN_THREAD);
        };
        if found.thread.state.is_dormant() {
            return Err(Code::DORMANT);
        }
        self.settle(&found, State::Dormant);
        Ok(found.thread.state.wait())
    }

    /// Changes the priority of a thread, and answers what it waits for. A ready thread becomes the last
    /// of all, also where the priority is its old one. `UNKNOWN_THREAD` exactly where no live thread
    /// has the id, else `DORMANT` exactly where it is dormant.
    pub fn change(&mut self, id: u32, priority: Priority) -> Result<Option<Wait>, Code>
        requires sound { IsSound R.stands self.old }
        ensures { (s : ThreadTable) → Stands R.stands self.old s
            → Leaves R.stands (changes s id priority) result self.new }
    {
        let Some(found) = self.find(id) else {
            return Err(Code::UNKNOWN_THREAD);
        };
        if found.thread.state.is_dormant() {
            return Err(Code::DORMANT);
        }
        self.set_priority(&found, priority);
        Ok(found.thread.state.wait())
    }

    /// Suspends a thread. If it runs, it has these registers, and none runs then. `UNKNOWN_THREAD`
    /// exactly where no live thread has the id, else `DORMANT` exactly where it is dormant.
    pub fn suspend(&mut self, id: u32, registers: &Cpu) -> Code
        requires sound { IsSound R.stands self.old }
        ensures { (s : ThreadTable) → Stands R.stands self.old s
            → Leaves R.stands (suspends s id registers.now) result self.new }
    {
        let Some(found) = self.find(id) else {
            return Code::UNKNOWN_THREAD;
        };
        if found.thread.state.is_dormant() {
            return Code::DORMANT;
        }
        self.settle(&found, found.thread.state.suspended(registers));
        Code::OK
    }

    /// Lets a suspended thread go on: it becomes the last of all ready ones, or waits on.
    /// `UNKNOWN_THREAD` exactly where no live thread has the id, else `NOT_SUSPENDED` exactly where it
    /// is not suspended.
    pub fn resume(&mut self, id: u32) -> Code
        requires sound { IsSound R.stands self.old }
        ensures { (s : ThreadTable) → Stands R.stands self.old s
            → Leaves R.stands (resumes s id) result self.new }
    {
        match self.find(id) {
            Some(found) => self.resume_found(&found),
            None => Code::UNKNOWN_THREAD,
        }
    }

    /// Puts the id of the next thread back. False exactly where it is below the one that is next or
    /// above the one behind `LAST_ID`; nothing changes then.
    pub fn put_next(&mut self, id: u32) -> bool
        ensures may { (s : ThreadTable) → Stands R.stands self.old s → result ≡ may_be_next s id }
        ensures put { (s : ThreadTable) → Stands R.stands self.old s
            → Stands R.stands self.new (if result then with_next s id else s) }
    {
        if !self.is_ahead(id, LAST_ID + 1) {
            return false;
        }
        self.next = id;
        true
    }

    /// Says whether an id is still to be given, and at most a last one.
    pub(crate) fn is_ahead(&self, id: u32, last: u32) -> bool
        ensures { result ≡ (nat_le self.now.next id && nat_le id last) }
    {
        self.next <= id && id <= last
    }

    /// Changes the priority of a thread that was found.
    fn set_priority(&mut self, found: &Found, priority: Priority)
        requires sound { IsSound R.stands self.old }
        requires there { IsThere self.old.places found.now }
        ensures { (s : ThreadTable) → Stands R.stands self.old s
            → Stands R.stands self.new (with_priority s found.now.thread priority) }
    {
        let thread = Thread {
            priority,
            ..found.thread
        };
        match found.thread.state {
            State::Ready(registers) => {
                self.leave(found);
                self.put_last(found.slot, thread, registers);
            }
            _ => self.set(found.slot, thread),
        }
    }

    /// Lets a thread that was found go on, if it is suspended.
    fn resume_found(&mut self, found: &Found) -> Code
        requires sound { IsSound R.stands self.old }
        requires there { IsThere self.old.places found.now }
        ensures { (s : ThreadTable) → Stands R.stands self.old s
            → let thread = found.now.thread in
            Leaves R.stands (resumes_in s thread thread.state) result self.new }
    {
        match found.thread.state {
            State::Suspended(own) => {
                self.put_last(found.slot, found.thread, own);
                Code::OK
            }
            State::WaitingSuspended(wait, own) => {
                self.set_state(found, State::Waiting(wait, own));
                Code::OK
            }
            _ => Code::NOT_SUSPENDED,
        }
    }
}
