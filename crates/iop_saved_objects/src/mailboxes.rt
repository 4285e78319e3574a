//! Mailboxes.

ghost use Rattle.std.specs.Prelude.{◌≡◌, true, OnOk};
ghost use Rattle.iop_snapshot.specs.Forms.{spell_list, fits_list};
ghost use Rattle.iop_snapshot.specs.Items.{fits_item};
ghost use Rattle.iop_snapshot.specs.Putting.{PutsAll};
ghost use Rattle.iop_snapshot.specs.Writing.{place_of, Writes};
ghost use Rattle.iop_snapshot.specs.declared.widths.TheConstants.{MAILBOX as WIDTHS, MESSAGE as MESSAGE_WIDTHS};
ghost use Rattle.iop_objects.specs.Objects.{state_of, waiters_of};
ghost use Rattle.iop_saved_objects.specs.Lists.{ahead_in};
ghost use Rattle.iop_saved_objects.specs.Mailboxes.{saved_mailboxes, mailbox_numbers, mailbox_head, message_numbers, message_form, mailbox_form, put_head, put_queued, put_message, put_mailbox};
ghost use Rattle.iop_saved_objects.specs.Waiters.{put_waiter, saved_waiters};

use crate::head::Head;
use crate::listing::save_records;
use crate::objects::{Table, restore_objects, save_objects};
use crate::parts::WithList;
use crate::priorities::Priorities;
use crate::putting::{Listed, PutHead};
use crate::record::Record;
use iop_base::WriteFault;
use iop_mbx::{Mailbox, Mailboxes};
use iop_objects::Waiter;
use iop_ports::Sink;
use iop_queues::{Queued, Walk};
use iop_snapshot::widths::{MAILBOX, MESSAGE};
use iop_snapshot::{Decoder, Encoder, SnapFault};

/// Tells the numbers of a mailbox.
fn numbers_of_mailbox(head: Head<Mailbox>) -> [u64; 3]
    ensures numbers { result ≡ mailbox_numbers head }
    ensures fits { fits_item WIDTHS (mailbox_numbers head) ≡ true }
{
    [
        u64::from(head.id),
        u64::from(head.state.attr),
        u64::from(head.state.option),
    ]
}

impl Record for Head<Mailbox> {
    ghost form = { mailbox_head };

    #[tactic(auto, unfolding(crate::specs::Mailboxes::mailbox_head, iop_snapshot::specs::Forms::item))]
    fn save<S: Sink>(self, encoder: &mut Encoder<'_, S>) -> Result<(), WriteFault> {
        encoder.item(&MAILBOX, &numbers_of_mailbox(self))
    }

    #[tactic(auto, unfolding(crate::specs::Mailboxes::mailbox_head, iop_snapshot::specs::Forms::item))]
    fn restore(decoder: &mut Decoder<'_>) -> Option<Self> {
        let mut numbers = [0; 3];
        decoder.item(&MAILBOX, &mut numbers)?;
        Some(Head {
            id: numbers[0] as u32,
            state: Mailbox {
                attr: numbers[1] as u32,
                option: numbers[2] as u32,
            },
        })
    }
}

/// Tells the numbers of a message.
fn numbers_of_message(message: Queued<u32>) -> [u64; 2]
    ensures numbers { result ≡ message_numbers message }
    ensures fits { fits_item MESSAGE_WIDTHS (message_numbers message) ≡ true }
{
    [u64::from(message.item), u64::from(message.priority)]
}

impl Record for Queued<u32> {
    ghost form = { message_form };

    #[tactic(auto, unfolding(crate::specs::Mailboxes::message_form, iop_snapshot::specs::Forms::item))]
    fn save<S: Sink>(self, encoder: &mut Encoder<'_, S>) -> Result<(), WriteFault> {
        encoder.item(&MESSAGE, &numbers_of_message(self))
    }

    #[tactic(auto, unfolding(crate::specs::Mailboxes::message_form, iop_snapshot::specs::Forms::item))]
    fn restore(decoder: &mut Decoder<'_>) -> Option<Self> {
        let mut numbers = [0; 2];
        decoder.item(&MESSAGE, &mut numbers)?;
        Some(Queued {
            priority: numbers[1] as u8,
            item: numbers[0] as u32,
        })
    }
}

impl PutHead<Head<Mailbox>> for Mailboxes {
    ghost put_head = { λ s head. put_head s head };

    fn put_head(&mut self, head: Head<Mailbox>) -> bool {
        self.put_back(head.id, head.state)
    }
}

impl Listed<Waiter<u32>> for Mailboxes {
    ghost items = { λ s id. saved_waiters (waiters_of s id) };

    ghost put_item = { λ priorities id. put_waiter (put_queued id) priorities };

    fn save_items<S: Sink>(&self, id: u32, encoder: &mut Encoder<'_, S>) -> Result<(), WriteFault> {
        save_records::<Waiter<u32>, Walk<'_, Waiter<u32>>, S>(
            self.walk(id),
            self.waiters(id),
            encoder,
        )
    }

    fn put_item<P: Priorities>(&mut self, priorities: &P, id: u32, item: Waiter<u32>) -> bool {
        match priorities.priority(item.thread) {
            Some(priority) => self.put_waiter(id, item.thread, priority, item.wants),
            None => false,
        }
    }
}

impl Listed<Queued<u32>> for Mailboxes {
    ghost items = { λ s id. ahead_in (λ x. x.messages) (state_of s id) };

    ghost put_item = { λ priorities id. put_message id };

    fn save_items<S: Sink>(&self, id: u32, encoder: &mut Encoder<'_, S>) -> Result<(), WriteFault> {
        save_records::<Queued<u32>, Walk<'_, u32>, S>(
            self.walk_messages(id),
            self.messages(id),
            encoder,
        )
    }

    fn put_item<P: Priorities>(&mut self, _priorities: &P, id: u32, item: Queued<u32>) -> bool {
        self.put_message(id, item.item, item.priority)
    }
}

/// A mailbox with those that wait for it and its messages, as contracts see it.
type Saved = WithList<WithList<Head<Mailbox>, Waiter<u32>>, Queued<u32>>;

impl Table<Saved> for Mailboxes {
    ghost saved = { λ s. saved_mailboxes s };

    fn len(&self) -> usize {
        self.len()
    }

    fn nth(&self, place: usize) -> Option<(u32, Mailbox)> {
        // That ids rise is told with those that wait.
        self.waiters(0);
        self.nth(place)
    }
}

/// Writes the mailboxes, in the order of their ids, each with the threads that wait for it and its
/// messages.
#[tactic(auto, unfolding(crate::specs::Mailboxes::mailbox_form))]
pub fn save_mailboxes<S: Sink>(
    mailboxes: &Mailboxes,
    encoder: &mut Encoder<'_, S>,
) -> Result<(), WriteFault>
    ensures written { Writes result (spell_list mailbox_form (saved_mailboxes mailboxes.now))
        (place_of S.told encoder.old) (place_of S.told encoder.new) }
    ensures fits { OnOk result
        (fits_list (λ _. mailbox_form) (saved_mailboxes mailboxes.now) ≡ true) }
{
    save_objects::<Saved, Mailboxes, S>(mailboxes, encoder)
}

/// Reads mailboxes, with the threads that wait for each and its messages, and puts them back into a
/// table. `Bad` exactly where no list of mailboxes can be read that it takes, unless memory runs
/// out.
#[tactic(auto, unfolding(crate::specs::Mailboxes::mailbox_form))]
pub fn restore_mailboxes<P: Priorities>(
    mailboxes: Mailboxes,
    priorities: &P,
    decoder: &mut Decoder<'_>,
) -> Result<Mailboxes, SnapFault>
    ensures { PutsAll (put_mailbox (P.of priorities.now)) mailbox_form mailboxes result
        decoder.old decoder.new }
{
    restore_objects::<Saved, Mailboxes, P>(mailboxes, priorities, decoder)
}
