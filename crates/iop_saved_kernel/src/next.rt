//! What is given out next.

ghost use Rattle.std.specs.Prelude.{◌≡◌, true};
ghost use Rattle.iop_snapshot.specs.Items.{fits_item};
ghost use Rattle.iop_snapshot.specs.Reading.{Reads};
ghost use Rattle.iop_snapshot.specs.Writing.{place_of, Writes};
ghost use Rattle.iop_snapshot.specs.declared.widths.TheConstants.{NEXT as WIDTHS};
ghost use Rattle.iop_saved_kernel.specs.Next.{next_numbers, next_form};

use iop_base::WriteFault;
use iop_ports::Sink;
use iop_snapshot::widths::NEXT;
use iop_snapshot::{Decoder, Encoder};

/// What is given out next: the ids of threads and objects, and the number of an alarm or a delay.
#[derive(Clone, Copy, Debug, PartialEq, Eq)]
pub struct Next {
    /// The id of a thread.
    pub thread: u32,
    /// The id of a semaphore.
    pub semaphore: u32,
    /// The id of an event flag.
    pub event_flag: u32,
    /// The id of a mailbox.
    pub mailbox: u32,
    /// The id of a variable pool.
    pub variable_pool: u32,
    /// The id of a fixed pool.
    pub fixed_pool: u32,
    /// The number of an alarm or a delay.
    pub timer: u64,
}

/// Writes what is given out next.
#[tactic(auto, unfolding(crate::specs::Next::next_form, iop_snapshot::specs::Forms::item))]
pub(crate) fn save_next<S: Sink>(next: Next, encoder: &mut Encoder<'_, S>) -> Result<(), WriteFault>
    ensures written { Writes result (next_form.spell next) (place_of S.told encoder.old)
        (place_of S.told encoder.new) }
    ensures fits { next_form.fits next ≡ true }
{
    encoder.item(&NEXT, &numbers_of_next(next))
}

/// Reads what is given out next. None exactly where too few bytes are left.
#[tactic(auto, unfolding(crate::specs::Next::next_form, iop_snapshot::specs::Forms::item))]
pub(crate) fn restore_next(decoder: &mut Decoder<'_>) -> Option<Next>
    ensures { Reads next_form result decoder.old decoder.new }
{
    let mut numbers = [0; 7];
    decoder.item(&NEXT, &mut numbers)?;
    Some(Next {
        thread: numbers[0] as u32,
        semaphore: numbers[1] as u32,
        event_flag: numbers[2] as u32,
        mailbox: numbers[3] as u32,
        variable_pool: numbers[4] as u32,
        fixed_pool: numbers[5] as u32,
        timer: numbers[6],
    })
}

/// Tells the numbers of what is given out next.
fn numbers_of_next(next: Next) -> [u64; 7]
    ensures numbers { result ≡ next_numbers next }
    ensures fits { fits_item WIDTHS (next_numbers next) ≡ true }
{
    [
        u64::from(next.thread),
        u64::from(next.semaphore),
        u64::from(next.event_flag),
        u64::from(next.mailbox),
        u64::from(next.variable_pool),
        u64::from(next.fixed_pool),
        next.timer,
    ]
}
