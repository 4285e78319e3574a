//! The services of `thevent`.

ghost use Rattle.std.specs.Prelude.{◌≡◌, ◌<◌, None, is_some, true};
ghost use Rattle.iop_base.specs.Output.{Gives};
ghost use Rattle.iop_exec.specs.declared.cpu.Cpu.{Cpu as Processor};
ghost use Rattle.iop_objects.specs.Objects.{object_of, waiting};
ghost use Rattle.iop_objects.specs.declared.objects.TheConstants.{MOST_WAITERS};
ghost use Rattle.iop_kernel.specs.EventFlags.{create_event_flag, delete_event_flag, clear_event_flag, waits_for_bits, meets_one, meeting_lines, set_event_flag, wait_event_flag, poll_event_flag, refer_event_flag_status, serves_thevent};
ghost use Rattle.iop_kernel.specs.System.{Kernel as State, caller_in};
ghost use Rattle.iop_kernel.specs.Standing.{Holds, IsHeld, TakesCore, TakesBoard, core, board};

use crate::after::After;
use crate::answering::{answer, answer_result};
use crate::kernel::Kernel;
use crate::places::{optional_place, place_of_word, word_in, words_place};
use crate::words::store_word;
use iop_base::{Code, GuestFault, Lines};
use iop_event::{Met, Wanted};
use iop_exec::Cpu;
use iop_ready::Ready;
use iop_services::TheventService;
use iop_stubs::Guest;
use iop_thread::{Kind, Wait};

/// How many words ask for an event flag: attribute, option, first pattern.
pub const FLAG_WORDS: u32 = 3;

/// How many words the status of an event flag has.
pub const FLAG_STATUS_WORDS: u32 = 5;

impl<R: Ready> Kernel<R> {
    /// Makes an event flag of the three words at `at`: attribute, option, first pattern. It
    /// answers its id, or a code of `EventFlags::create`; the words are looked at first.
    pub(crate) fn create_event_flag(&mut self, at: u32, cpu: &mut Cpu, guest: &Guest) -> After
        ensures { (k : State) → Holds R.stands self.old k
            → TakesCore R.stands (create_event_flag (core k cpu.old) guest.now at) result
            self.new cpu.new }
    {
        let Some(place) = words_place(guest, at, FLAG_WORDS) else {
            return After::Fault(GuestFault::Address);
        };
        let made = self.event_flags.create(
            word_in(guest, place, 0),
            word_in(guest, place, 1),
            word_in(guest, place, 2),
        );
        answer_result(cpu, made)
    }

    /// Deletes an event flag. The threads that wait are woken with `OBJECT_DELETED`, in order.
    /// `UNKNOWN_EVENT_FLAG` where none of this id is live.
    pub(crate) fn delete_event_flag(&mut self, id: u32, cpu: &mut Cpu) -> After
        requires sound { IsHeld R.stands self.old }
        ensures { (k : State) → Holds R.stands self.old k
            → TakesCore R.stands (delete_event_flag (core k cpu.old) id) result self.new cpu.new }
    {
        self.delete_object(Kind::EventFlag, id, cpu)
    }

    /// Clears the bits of an event flag that are not in a mask, and answers a code of
    /// `EventFlags::clear`.
    pub(crate) fn clear_event_flag(&mut self, id: u32, mask: u32, cpu: &mut Cpu) -> After
        ensures { (k : State) → Holds R.stands self.old k
            → TakesCore R.stands (clear_event_flag (core k cpu.old) id mask) result
            self.new cpu.new }
    {
        let code = self.event_flags.clear(id, mask);
        answer(cpu, code)
    }

    /// Wakes a thread whose condition held with 0, and writes the pattern to its place, if it has
    /// one.
    fn meet<L: Lines>(&mut self, met: Met, guest: &mut Guest, lines: &mut L)
        requires sound { IsHeld R.stands self.old }
        ensures kernel { (k : State) (cpu : Processor) → Holds R.stands self.old k
            → Holds R.stands self.new (meets_one (board k cpu guest.old) met).core.kernel }
        ensures memory { (k : State) (cpu : Processor) → Holds R.stands self.old k
            → guest.new ≡ (meets_one (board k cpu guest.old) met).memory }
        ensures lines { (k : State) (cpu : Processor) → Holds R.stands self.old k
            → Gives (L.output lines.old) (L.output lines.new)
            (meeting_lines (board k cpu guest.old) met) }
    {
        let place = place_of_word(guest, met.place);
        store_word(guest, place, met.pattern, self.clock, lines);
        self.wake(met.thread, Code::OK);
    }

    /// Sets bits of an event flag, and answers a code of `EventFlags::set`. Then each thread that
    /// waits is looked at in order, on the pattern as it then stands: where its condition holds
    /// the pattern is written to its place, it is woken with 0, and the pattern is cleared if its
    /// mode says so.
    #[tactic(auto, using(iop_base::proofs::Giving::gives_none, crate::proofs::Bodies::Reads::no_object))]
    pub(crate) fn set_event_flag<L: Lines>(
        &mut self,
        id: u32,
        bits: u32,
        cpu: &mut Cpu,
        guest: &mut Guest,
        lines: &mut L,
    ) -> After
        requires sound { IsHeld R.stands self.old }
        ensures { (k : State) → Holds R.stands self.old k
            → TakesBoard R.stands (set_event_flag (board k cpu.old guest.old) id bits) result
            self.new cpu.new guest.new (L.output lines.old) (L.output lines.new) }
    {
        if self.event_flags.get(id).is_none() {
            return answer(cpu, Code::UNKNOWN_EVENT_FLAG);
        }
        let code = self.event_flags.set(id, bits);
        while let Some(met) = self.event_flags.next_met(id) {
            self.meet(met, guest, lines);
        }
        answer(cpu, code)
    }

    /// Lets the thread that calls wait for bits of a live event flag.
    fn wait_for_bits(&mut self, id: u32, wanted: Wanted, cpu: &Cpu) -> After
        requires sound { IsHeld R.stands self.old }
        requires live { is_some (object_of self.old.event_flags.live id) ≡ true }
        requires room { self.old.handler ≡ None → waiting self.old.event_flags < MOST_WAITERS }
        ensures { (k : State) → Holds R.stands self.old k
            → TakesCore R.stands (waits_for_bits (core k cpu.now) id wanted (caller_in k))
            result self.new cpu.now }
    {
        let Some(thread) = self.caller() else {
            return After::Fault(GuestFault::Service);
        };
        let priority = self.priority_of(thread);
        self.event_flags.wait(id, thread, priority, wanted);
        self.wait(Wait::Object(Kind::EventFlag, id), cpu)
    }

    /// Tests a condition on bits of an event flag. Where it holds the pattern is written to the
    /// place, if there is one, and cleared if the mode says so; where it does not the thread that
    /// calls waits. It answers a code of `EventFlags::test`, or before them `CANNOT_WAIT` where no
    /// other thread may run. The place is looked at first.
    #[tactic(auto, using(iop_base::proofs::Giving::gives_none))]
    pub(crate) fn wait_event_flag<L: Lines>(
        &mut self,
        id: u32,
        wanted: Wanted,
        cpu: &mut Cpu,
        guest: &mut Guest,
        lines: &mut L,
    ) -> After
        requires sound { IsHeld R.stands self.old }
        requires room { self.old.handler ≡ None → waiting self.old.event_flags < MOST_WAITERS }
        ensures { (k : State) → Holds R.stands self.old k
            → TakesBoard R.stands (wait_event_flag (board k cpu.old guest.old) id wanted) result
            self.new cpu.new guest.new (L.output lines.old) (L.output lines.new) }
    {
        let Some(place) = optional_place(guest, wanted.place) else {
            return After::Fault(GuestFault::Address);
        };
        if !self.may_switch() {
            return answer(cpu, Code::CANNOT_WAIT);
        }
        match self.event_flags.test(id, wanted.bits, wanted.mode) {
            Ok(pattern) => self.answer_word_at(place, pattern, cpu, guest, lines),
            Err(Code::FLAG_CONDITION) => self.wait_for_bits(id, wanted, cpu),
            Err(code) => answer(cpu, code),
        }
    }

    /// Tests a condition on bits of an event flag, and answers a code of `EventFlags::test`. Where
    /// it holds the pattern is written to the place, if there is one, and cleared if the mode says
    /// so. The place is looked at first.
    #[tactic(auto, using(iop_base::proofs::Giving::gives_none))]
    pub(crate) fn poll_event_flag<L: Lines>(
        &mut self,
        id: u32,
        wanted: Wanted,
        cpu: &mut Cpu,
        guest: &mut Guest,
        lines: &mut L,
    ) -> After
        ensures { (k : State) → Holds R.stands self.old k
            → TakesBoard R.stands (poll_event_flag (board k cpu.old guest.old) id wanted) result
            self.new cpu.new guest.new (L.output lines.old) (L.output lines.new) }
    {
        let Some(place) = optional_place(guest, wanted.place) else {
            return After::Fault(GuestFault::Address);
        };
        match self.event_flags.test(id, wanted.bits, wanted.mode) {
            Ok(pattern) => self.answer_word_at(place, pattern, cpu, guest, lines),
            Err(code) => answer(cpu, code),
        }
    }

    /// Writes the five words of an event flag's status at `at`: attribute, option, first pattern,
    /// pattern, how many threads wait. The place is looked at first. `UNKNOWN_EVENT_FLAG` where
    /// none of this id is live.
    #[tactic(auto, using(iop_base::proofs::Giving::gives_none, crate::proofs::Bodies::Reads::no_object))]
    pub(crate) fn refer_event_flag_status<L: Lines>(
        &self,
        id: u32,
        at: u32,
        cpu: &mut Cpu,
        guest: &mut Guest,
        lines: &mut L,
    ) -> After
        ensures { (k : State) → Holds R.stands self.now k
            → TakesBoard R.stands (refer_event_flag_status (board k cpu.old guest.old) id at) result
            self.now cpu.new guest.new (L.output lines.old) (L.output lines.new) }
    {
        let Some(place) = words_place(guest, at, FLAG_STATUS_WORDS) else {
            return After::Fault(GuestFault::Address);
        };
        let Some(flag) = self.event_flags.get(id) else {
            return answer(cpu, Code::UNKNOWN_EVENT_FLAG);
        };
        let waiters = self.event_flags.waiters(id) as u32;
        let words = [flag.attr, flag.option, flag.first, flag.pattern, waiters];
        self.answer_words_at(place, &words, cpu, guest, lines)
    }

    /// Does what a service of `thevent` does.
    #[tactic(auto, using(iop_base::proofs::Giving::gives_none), unfolding(crate::specs::EventFlags::serves_thevent))]
    pub(crate) fn serve_thevent<L: Lines>(
        &mut self,
        service: TheventService,
        cpu: &mut Cpu,
        guest: &mut Guest,
        lines: &mut L,
    ) -> After
        requires sound { IsHeld R.stands self.old }
        requires room { self.old.handler ≡ None → waiting self.old.event_flags < MOST_WAITERS }
        ensures { (k : State) → Holds R.stands self.old k
            → TakesBoard R.stands (serves_thevent (board k cpu.old guest.old) service) result
            self.new cpu.new guest.new (L.output lines.old) (L.output lines.new) }
    {
        let [a0, a1, a2, a3] = [cpu.regs[4], cpu.regs[5], cpu.regs[6], cpu.regs[7]];
        let asked = Wanted {
            bits: a1,
            mode: a2,
            place: a3,
        };
        match service {
            TheventService::CreateEventFlag => self.create_event_flag(a0, cpu, guest),
            TheventService::DeleteEventFlag => self.delete_event_flag(a0, cpu),
            TheventService::SetEventFlag => self.set_event_flag(a0, a1, cpu, guest, lines),
            TheventService::ClearEventFlag => self.clear_event_flag(a0, a1, cpu),
            TheventService::WaitEventFlag => self.wait_event_flag(a0, asked, cpu, guest, lines),
            TheventService::PollEventFlag => self.poll_event_flag(a0, asked, cpu, guest, lines),
            TheventService::ReferEventFlagStatus => self.refer_event_flag_status(
                a0, a1, cpu, guest, lines,
            ),
        }
    }
}
