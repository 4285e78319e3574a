//! The services of `thsemap`.

ghost use Rattle.std.specs.Prelude.{◌≡◌, ◌<◌, None, is_some, true};
ghost use Rattle.iop_objects.specs.Objects.{object_of, waiting};
ghost use Rattle.iop_objects.specs.declared.objects.TheConstants.{MOST_WAITERS};
ghost use Rattle.iop_kernel.specs.Semaphores.{create_sema, delete_sema, signal_sema, waits_for_sema, wait_sema, poll_sema, refer_sema_status, serves_thsemap};
ghost use Rattle.iop_kernel.specs.System.{Kernel as State, caller_in};
ghost use Rattle.iop_kernel.specs.Standing.{Holds, IsHeld, TakesCore, TakesBoard, core, board};

use crate::after::After;
use crate::answering::{answer, answer_result};
use crate::kernel::Kernel;
use crate::places::{word_in, words_place};
use iop_base::{Code, GuestFault, Lines};
use iop_exec::Cpu;
use iop_ready::Ready;
use iop_services::ThsemapService;
use iop_stubs::Guest;
use iop_thread::{Kind, Wait};

/// How many words ask for a semaphore: attribute, option, first count, most.
pub const SEMAPHORE_WORDS: u32 = 4;

/// How many words the status of a semaphore has.
pub const SEMAPHORE_STATUS_WORDS: u32 = 6;

impl<R: Ready> Kernel<R> {
    /// Makes a semaphore of the four words at `at`: attribute, option, first count, most. It
    /// answers its id, or a code of `Semaphores::create`; the words are looked at first.
    pub(crate) fn create_sema(&mut self, at: u32, cpu: &mut Cpu, guest: &Guest) -> After
        ensures { (k : State) → Holds R.stands self.old k
            → TakesCore R.stands (create_sema (core k cpu.old) guest.now at) result
            self.new cpu.new }
    {
        let Some(place) = words_place(guest, at, SEMAPHORE_WORDS) else {
            return After::Fault(GuestFault::Address);
        };
        let made = self.semaphores.create(
            word_in(guest, place, 0),
            word_in(guest, place, 1),
            word_in(guest, place, 2),
            word_in(guest, place, 3),
        );
        answer_result(cpu, made)
    }

    /// Deletes a semaphore. The threads that wait are woken with `OBJECT_DELETED`, in the order in
    /// which signals would choose them. `UNKNOWN_SEMAPHORE` where none of this id is live.
    pub(crate) fn delete_sema(&mut self, id: u32, cpu: &mut Cpu) -> After
        requires sound { IsHeld R.stands self.old }
        ensures { (k : State) → Holds R.stands self.old k
            → TakesCore R.stands (delete_sema (core k cpu.old) id) result self.new cpu.new }
    {
        self.delete_object(Kind::Semaphore, id, cpu)
    }

    /// Signals a semaphore: the next thread that waits is woken with 0, or the count grows by one.
    /// It answers a code of `Semaphores::signal`.
    pub(crate) fn signal_sema(&mut self, id: u32, cpu: &mut Cpu) -> After
        requires sound { IsHeld R.stands self.old }
        ensures { (k : State) → Holds R.stands self.old k
            → TakesCore R.stands (signal_sema (core k cpu.old) id) result self.new cpu.new }
    {
        match self.semaphores.signal(id) {
            Ok(Some(thread)) => {
                self.wake(thread, Code::OK);
                answer(cpu, Code::OK)
            }
            Ok(None) => answer(cpu, Code::OK),
            Err(code) => answer(cpu, code),
        }
    }

    /// Lets the thread that calls wait for a live semaphore.
    fn wait_for_sema(&mut self, id: u32, cpu: &Cpu) -> After
        requires sound { IsHeld R.stands self.old }
        requires live { is_some (object_of self.old.semaphores.live id) ≡ true }
        requires room { self.old.handler ≡ None → waiting self.old.semaphores < MOST_WAITERS }
        ensures { (k : State) → Holds R.stands self.old k
            → TakesCore R.stands (waits_for_sema (core k cpu.now) id (caller_in k)) result
            self.new cpu.now }
    {
        let Some(thread) = self.caller() else {
            return After::Fault(GuestFault::Service);
        };
        let priority = self.priority_of(thread);
        self.semaphores.wait(id, thread, priority);
        self.wait(Wait::Object(Kind::Semaphore, id), cpu)
    }

    /// Takes one of a semaphore's count, or lets the thread that calls wait where it is 0. It
    /// answers a code of `Semaphores::take`, or first `CANNOT_WAIT` where no other thread may run.
    #[tactic(auto, using(crate::proofs::Bodies::Refusals::take_is_zero))]
    pub(crate) fn wait_sema(&mut self, id: u32, cpu: &mut Cpu) -> After
        requires sound { IsHeld R.stands self.old }
        requires room { self.old.handler ≡ None → waiting self.old.semaphores < MOST_WAITERS }
        ensures { (k : State) → Holds R.stands self.old k
            → TakesCore R.stands (wait_sema (core k cpu.old) id) result self.new cpu.new }
    {
        if !self.may_switch() {
            return answer(cpu, Code::CANNOT_WAIT);
        }
        match self.semaphores.take(id) {
            Code::SEMAPHORE_ZERO => self.wait_for_sema(id, cpu),
            code => answer(cpu, code),
        }
    }

    /// Takes one of a semaphore's count, and answers a code of `Semaphores::take`.
    pub(crate) fn poll_sema(&mut self, id: u32, cpu: &mut Cpu) -> After
        ensures { (k : State) → Holds R.stands self.old k
            → TakesCore R.stands (poll_sema (core k cpu.old) id) result self.new cpu.new }
    {
        let code = self.semaphores.take(id);
        answer(cpu, code)
    }

    /// Writes the six words of a semaphore's status at `at`: attribute, option, first count, most,
    /// count, how many threads wait. The place is looked at first. `UNKNOWN_SEMAPHORE` where none
    /// of this id is live.
    #[tactic(auto, using(iop_base::proofs::Giving::gives_none, crate::proofs::Bodies::Reads::no_object))]
    pub(crate) fn refer_sema_status<L: Lines>(
        &self,
        id: u32,
        at: u32,
        cpu: &mut Cpu,
        guest: &mut Guest,
        lines: &mut L,
    ) -> After
        ensures { (k : State) → Holds R.stands self.now k
            → TakesBoard R.stands (refer_sema_status (board k cpu.old guest.old) id at) result
            self.now cpu.new guest.new (L.output lines.old) (L.output lines.new) }
    {
        let Some(place) = words_place(guest, at, SEMAPHORE_STATUS_WORDS) else {
            return After::Fault(GuestFault::Address);
        };
        let Some(semaphore) = self.semaphores.get(id) else {
            return answer(cpu, Code::UNKNOWN_SEMAPHORE);
        };
        let words = [
            semaphore.attr,
            semaphore.option,
            semaphore.initial,
            semaphore.max,
            semaphore.count,
            self.semaphores.waiters(id) as u32,
        ];
        self.answer_words_at(place, &words, cpu, guest, lines)
    }

    /// Does what a service of `thsemap` does.
    #[tactic(auto, using(iop_base::proofs::Giving::gives_none), unfolding(crate::specs::Semaphores::serves_thsemap))]
    pub(crate) fn serve_thsemap<L: Lines>(
        &mut self,
        service: ThsemapService,
        cpu: &mut Cpu,
        guest: &mut Guest,
        lines: &mut L,
    ) -> After
        requires sound { IsHeld R.stands self.old }
        requires room { self.old.handler ≡ None → waiting self.old.semaphores < MOST_WAITERS }
        ensures { (k : State) → Holds R.stands self.old k
            → TakesBoard R.stands (serves_thsemap (board k cpu.old guest.old) service) result
            self.new cpu.new guest.new (L.output lines.old) (L.output lines.new) }
    {
        let [a0, a1] = [cpu.regs[4], cpu.regs[5]];
        match service {
            ThsemapService::CreateSema => self.create_sema(a0, cpu, guest),
            ThsemapService::DeleteSema => self.delete_sema(a0, cpu),
            ThsemapService::SignalSema => self.signal_sema(a0, cpu),
            ThsemapService::WaitSema => self.wait_sema(a0, cpu),
            ThsemapService::PollSema => self.poll_sema(a0, cpu),
            ThsemapService::ReferSemaStatus => self.refer_sema_status(a0, a1, cpu, guest, lines),
        }
    }
}
