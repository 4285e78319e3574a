//! The services of `thmsgbx`.

ghost use Rattle.std.specs.Prelude.{◌≡◌, ◌<◌, None, is_some, true};
ghost use Rattle.iop_objects.specs.Objects.{object_of, state_of, waiting};
ghost use Rattle.iop_objects.specs.declared.objects.TheConstants.{MOST_WAITERS};
ghost use Rattle.iop_kernel.specs.Mailboxes.{create_mbx, delete_mbx, waits_for_message, message_priority, queues_message, send_mbx, receive_mbx, poll_mbx, refer_mbx_status, serves_thmsgbx};
ghost use Rattle.iop_kernel.specs.System.{Kernel as State, caller_in};
ghost use Rattle.iop_kernel.specs.Standing.{Holds, IsHeld, TakesCore, TakesBoard, core, board};

use crate::after::After;
use crate::answering::{answer, answer_result};
use crate::kernel::Kernel;
use crate::places::{word_in, words_place};
use iop_base::{Code, GuestFault, Lines};
use iop_exec::Cpu;
use iop_mbx::Mailbox;
use iop_ready::Ready;
use iop_services::ThmsgbxService;
use iop_stubs::Guest;
use iop_thread::{Kind, Wait};

/// How many words ask for a mailbox: attribute, option.
pub const MAILBOX_WORDS: u32 = 2;

/// How many words the status of a mailbox has.
pub const MAILBOX_STATUS_WORDS: u32 = 5;

/// The place of its priority in a message (ps2sdk: thmsgbx.h, `iop_message_t`).
pub(crate) const PRIORITY_OFFSET: u32 = 4;

/// Reads the priority of a message for a mailbox: 0 where the mailbox does not look at it. None
/// exactly where its byte is not in RAM.
fn message_priority(guest: &Guest, mailbox: &Mailbox, message: u32) -> Option<u8>
    ensures { result ≡ message_priority guest.now mailbox.now.attr message }
{
    if !mailbox.messages_by_priority() {
        return Some(0);
    }
    guest
        .ram()
        .load8(message.wrapping_add(PRIORITY_OFFSET))
        .ok()
}

impl<R: Ready> Kernel<R> {
    /// Makes a mailbox of the two words at `at`: attribute, option. It answers its id, or a code of
    /// `Mailboxes::create`; the words are looked at first.
    pub(crate) fn create_mbx(&mut self, at: u32, cpu: &mut Cpu, guest: &Guest) -> After
        ensures { (k : State) → Holds R.stands self.old k
            → TakesCore R.stands (create_mbx (core k cpu.old) guest.now at) result
            self.new cpu.new }
    {
        let Some(place) = words_place(guest, at, MAILBOX_WORDS) else {
            return After::Fault(GuestFault::Address);
        };
        let made = self
            .mailboxes
            .create(word_in(guest, place, 0), word_in(guest, place, 1));
        answer_result(cpu, made)
    }

    /// Deletes a mailbox, with its messages. The threads that wait are woken with `OBJECT_DELETED`,
    /// in the order in which messages would choose them. `UNKNOWN_MAILBOX` where none of this id is
    /// live.
    pub(crate) fn delete_mbx(&mut self, id: u32, cpu: &mut Cpu) -> After
        requires sound { IsHeld R.stands self.old }
        ensures { (k : State) → Holds R.stands self.old k
            → TakesCore R.stands (delete_mbx (core k cpu.old) id) result self.new cpu.new }
    {
        self.delete_object(Kind::Mailbox, id, cpu)
    }

    /// Queues a message for which no thread waits. `UNKNOWN_MAILBOX` where no mailbox of this id is
    /// live, else `NO_MEMORY` where there is no room, else a fault where its priority is looked at
    /// and not in RAM.
    fn queue_message(&mut self, id: u32, message: u32, cpu: &mut Cpu, guest: &Guest) -> After
        ensures { (k : State) → Holds R.stands self.old k
            → TakesCore R.stands (queues_message (core k cpu.old) guest.now id message
            (state_of k.mailboxes id)) result self.new cpu.new }
    {
        let Some(mailbox) = self.mailboxes.get(id) else {
            return answer(cpu, Code::UNKNOWN_MAILBOX);
        };
        if !self.mailboxes.has_room() {
            return answer(cpu, Code::NO_MEMORY);
        }
        let Some(priority) = message_priority(guest, &mailbox, message) else {
            return After::Fault(GuestFault::Address);
        };
        let code = self.mailboxes.put(id, message, priority);
        answer(cpu, code)
    }

    /// Sends a message, which is an address: it is written to the place of the next thread that
    /// waits, which is woken with 0, or it is queued. It answers a code: `UNKNOWN_MAILBOX` where
    /// none of this id is live, `NO_MEMORY` where no thread waits and there is no room.
    #[tactic(auto, using(iop_base::proofs::Giving::gives_none, crate::proofs::Bodies::Refusals::no_waiter))]
    pub(crate) fn send_mbx<L: Lines>(
        &mut self,
        id: u32,
        message: u32,
        cpu: &mut Cpu,
        guest: &mut Guest,
        lines: &mut L,
    ) -> After
        requires sound { IsHeld R.stands self.old }
        ensures { (k : State) → Holds R.stands self.old k
            → TakesBoard R.stands (send_mbx (board k cpu.old guest.old) id message) result
            self.new cpu.new guest.new (L.output lines.old) (L.output lines.new) }
    {
        match self.mailboxes.waiter(id) {
            Ok(Some(waiter)) => {
                self.wake(waiter.thread, Code::OK);
                let place = words_place(guest, waiter.wants, 1);
                self.answer_word_at(place, message, cpu, guest, lines)
            }
            Ok(None) => self.queue_message(id, message, cpu, guest),
            Err(code) => answer(cpu, code),
        }
    }

    /// Lets the thread that calls wait for a message of a live mailbox, which is to be written at
    /// `at`.
    fn wait_for_message(&mut self, id: u32, at: u32, cpu: &Cpu) -> After
        requires sound { IsHeld R.stands self.old }
        requires live { is_some (object_of self.old.mailboxes.live id) ≡ true }
        requires room { self.old.handler ≡ None → waiting self.old.mailboxes < MOST_WAITERS }
        ensures { (k : State) → Holds R.stands self.old k
            → TakesCore R.stands (waits_for_message (core k cpu.now) id at (caller_in k)) result
            self.new cpu.now }
    {
        let Some(thread) = self.caller() else {
            return After::Fault(GuestFault::Service);
        };
        let priority = self.priority_of(thread);
        self.mailboxes.wait(id, thread, priority, at);
        self.wait(Wait::Object(Kind::Mailbox, id), cpu)
    }

    /// Receives the next message of a mailbox and writes it at `at`, or lets the thread that calls
    /// wait where there is none. It answers a code of `Mailboxes::take_message`, or before them
    /// `CANNOT_WAIT` where no other thread may run. The place is looked at first.
    #[tactic(auto, using(iop_base::proofs::Giving::gives_none))]
    pub(crate) fn receive_mbx<L: Lines>(
        &mut self,
        at: u32,
        id: u32,
        cpu: &mut Cpu,
        guest: &mut Guest,
        lines: &mut L,
    ) -> After
        requires sound { IsHeld R.stands self.old }
        requires room { self.old.handler ≡ None → waiting self.old.mailboxes < MOST_WAITERS }
        ensures { (k : State) → Holds R.stands self.old k
            → TakesBoard R.stands (receive_mbx (board k cpu.old guest.old) at id) result
            self.new cpu.new guest.new (L.output lines.old) (L.output lines.new) }
    {
        let Some(place) = words_place(guest, at, 1) else {
            return After::Fault(GuestFault::Address);
        };
        if !self.may_switch() {
            return answer(cpu, Code::CANNOT_WAIT);
        }
        match self.mailboxes.take_message(id) {
            Ok(message) => self.answer_word_at(Some(place), message, cpu, guest, lines),
            Err(Code::NO_MESSAGE) => self.wait_for_message(id, at, cpu),
            Err(code) => answer(cpu, code),
        }
    }

    /// Receives the next message of a mailbox and writes it at `at`, and answers a code of
    /// `Mailboxes::take_message`. The place is looked at first.
    #[tactic(auto, using(iop_base::proofs::Giving::gives_none))]
    pub(crate) fn poll_mbx<L: Lines>(
        &mut self,
        at: u32,
        id: u32,
        cpu: &mut Cpu,
        guest: &mut Guest,
        lines: &mut L,
    ) -> After
        ensures { (k : State) → Holds R.stands self.old k
            → TakesBoard R.stands (poll_mbx (board k cpu.old guest.old) at id) result
            self.new cpu.new guest.new (L.output lines.old) (L.output lines.new) }
    {
        let Some(place) = words_place(guest, at, 1) else {
            return After::Fault(GuestFault::Address);
        };
        match self.mailboxes.take_message(id) {
            Ok(message) => self.answer_word_at(Some(place), message, cpu, guest, lines),
            Err(code) => answer(cpu, code),
        }
    }

    /// Writes the five words of a mailbox's status at `at`: attribute, option, how many threads
    /// wait, how many messages it has, and the one that is next, or 0. The place is looked at
    /// first. `UNKNOWN_MAILBOX` where none of this id is live.
    #[tactic(auto, using(iop_base::proofs::Giving::gives_none, crate::proofs::Bodies::Reads::no_mailbox))]
    pub(crate) fn refer_mbx_status<L: Lines>(
        &self,
        id: u32,
        at: u32,
        cpu: &mut Cpu,
        guest: &mut Guest,
        lines: &mut L,
    ) -> After
        ensures { (k : State) → Holds R.stands self.now k
            → TakesBoard R.stands (refer_mbx_status (board k cpu.old guest.old) id at) result
            self.now cpu.new guest.new (L.output lines.old) (L.output lines.new) }
    {
        let Some(place) = words_place(guest, at, MAILBOX_STATUS_WORDS) else {
            return After::Fault(GuestFault::Address);
        };
        let Some(mailbox) = self.mailboxes.get(id) else {
            return answer(cpu, Code::UNKNOWN_MAILBOX);
        };
        let words = [
            mailbox.attr,
            mailbox.option,
            self.mailboxes.waiters(id) as u32,
            self.mailboxes.messages(id) as u32,
            self.mailboxes.next_message(id).unwrap_or(0),
        ];
        self.answer_words_at(place, &words, cpu, guest, lines)
    }

    /// Does what a service of `thmsgbx` does.
    #[tactic(auto, using(iop_base::proofs::Giving::gives_none), unfolding(crate::specs::Mailboxes::serves_thmsgbx))]
    pub(crate) fn serve_thmsgbx<L: Lines>(
        &mut self,
        service: ThmsgbxService,
        cpu: &mut Cpu,
        guest: &mut Guest,
        lines: &mut L,
    ) -> After
        requires sound { IsHeld R.stands self.old }
        requires room { self.old.handler ≡ None → waiting self.old.mailboxes < MOST_WAITERS }
        ensures { (k : State) → Holds R.stands self.old k
            → TakesBoard R.stands (serves_thmsgbx (board k cpu.old guest.old) service) result
            self.new cpu.new guest.new (L.output lines.old) (L.output lines.new) }
    {
        let [a0, a1] = [cpu.regs[4], cpu.regs[5]];
        match service {
            ThmsgbxService::CreateMbx => self.create_mbx(a0, cpu, guest),
            ThmsgbxService::DeleteMbx => self.delete_mbx(a0, cpu),
            ThmsgbxService::SendMbx => self.send_mbx(a0, a1, cpu, guest, lines),
            ThmsgbxService::ReceiveMbx => self.receive_mbx(a0, a1, cpu, guest, lines),
            ThmsgbxService::PollMbx => self.poll_mbx(a0, a1, cpu, guest, lines),
            ThmsgbxService::ReferMbxStatus => self.refer_mbx_status(a0, a1, cpu, guest, lines),
        }
    }
}
