//! Threads that wait.

ghost use Rattle.std.specs.Prelude.{◌≡◌, true};
ghost use Rattle.iop_snapshot.specs.Items.{fits_item};
ghost use Rattle.iop_snapshot.specs.declared.widths.TheConstants.{THREAD_ID as PLAIN_WIDTHS, EVENT_FLAG_WAITER as FLAG_WIDTHS, MAILBOX_WAITER as ASKING_WIDTHS};
ghost use Rattle.iop_saved_objects.specs.Waiters.{plain_numbers, plain_form, flag_numbers, flag_form, asking_numbers, asking_form};

use crate::record::Record;
use iop_base::WriteFault;
use iop_event::Wanted;
use iop_objects::Waiter;
use iop_ports::Sink;
use iop_snapshot::widths::{EVENT_FLAG_WAITER, MAILBOX_WAITER, THREAD_ID};
use iop_snapshot::{Decoder, Encoder};

/// Tells the numbers of a thread of which nothing more is to tell.
fn numbers_of_plain(waiter: Waiter<()>) -> [u64; 1]
    ensures numbers { result ≡ plain_numbers waiter }
    ensures fits { fits_item PLAIN_WIDTHS (plain_numbers waiter) ≡ true }
{
    [u64::from(waiter.thread)]
}

impl Record for Waiter<()> {
    ghost form = { plain_form };

    #[tactic(auto, unfolding(crate::specs::Waiters::plain_form, iop_snapshot::specs::Forms::item))]
    fn save<S: Sink>(self, encoder: &mut Encoder<'_, S>) -> Result<(), WriteFault> {
        encoder.item(&THREAD_ID, &numbers_of_plain(self))
    }

    #[tactic(auto, unfolding(crate::specs::Waiters::plain_form, iop_snapshot::specs::Forms::item))]
    fn restore(decoder: &mut Decoder<'_>) -> Option<Self> {
        let mut numbers = [0; 1];
        decoder.item(&THREAD_ID, &mut numbers)?;
        Some(Waiter {
            thread: numbers[0] as u32,
            wants: (),
        })
    }
}

/// Tells the numbers of a thread that waits for bits of an event flag.
fn numbers_of_flag_waiter(waiter: Waiter<Wanted>) -> [u64; 4]
    ensures numbers { result ≡ flag_numbers waiter }
    ensures fits { fits_item FLAG_WIDTHS (flag_numbers waiter) ≡ true }
{
    [
        u64::from(waiter.thread),
        u64::from(waiter.wants.bits),
        u64::from(waiter.wants.mode),
        u64::from(waiter.wants.place),
    ]
}

impl Record for Waiter<Wanted> {
    ghost form = { flag_form };

    #[tactic(auto, unfolding(crate::specs::Waiters::flag_form, iop_snapshot::specs::Forms::item))]
    fn save<S: Sink>(self, encoder: &mut Encoder<'_, S>) -> Result<(), WriteFault> {
        encoder.item(&EVENT_FLAG_WAITER, &numbers_of_flag_waiter(self))
    }

    #[tactic(auto, unfolding(crate::specs::Waiters::flag_form, iop_snapshot::specs::Forms::item))]
    fn restore(decoder: &mut Decoder<'_>) -> Option<Self> {
        let mut numbers = [0; 4];
        decoder.item(&EVENT_FLAG_WAITER, &mut numbers)?;
        Some(Waiter {
            thread: numbers[0] as u32,
            wants: Wanted {
                bits: numbers[1] as u32,
                mode: numbers[2] as u32,
                place: numbers[3] as u32,
            },
        })
    }
}

/// Tells the numbers of a thread that asks for one number.
fn numbers_of_asking(waiter: Waiter<u32>) -> [u64; 2]
    ensures numbers { result ≡ asking_numbers waiter }
    ensures fits { fits_item ASKING_WIDTHS (asking_numbers waiter) ≡ true }
{
    [u64::from(waiter.thread), u64::from(waiter.wants)]
}

/// One that waits for a mailbox, or for a variable pool, which are spelled with the same widths.
impl Record for Waiter<u32> {
    ghost form = { asking_form };

    #[tactic(auto, unfolding(crate::specs::Waiters::asking_form, iop_snapshot::specs::Forms::item))]
    fn save<S: Sink>(self, encoder: &mut Encoder<'_, S>) -> Result<(), WriteFault> {
        encoder.item(&MAILBOX_WAITER, &numbers_of_asking(self))
    }

    #[tactic(auto, unfolding(crate::specs::Waiters::asking_form, iop_snapshot::specs::Forms::item))]
    fn restore(decoder: &mut Decoder<'_>) -> Option<Self> {
        let mut numbers = [0; 2];
        decoder.item(&MAILBOX_WAITER, &mut numbers)?;
        Some(Waiter {
            thread: numbers[0] as u32,
            wants: numbers[1] as u32,
        })
    }
}
