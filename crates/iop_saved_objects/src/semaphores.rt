//! Semaphores.

ghost use Rattle.std.specs.Prelude.{◌≡◌, true, OnOk};
ghost use Rattle.iop_snapshot.specs.Forms.{spell_list, fits_list};
ghost use Rattle.iop_snapshot.specs.Items.{fits_item};
ghost use Rattle.iop_snapshot.specs.Putting.{PutsAll};
ghost use Rattle.iop_snapshot.specs.Writing.{place_of, Writes};
ghost use Rattle.iop_snapshot.specs.declared.widths.TheConstants.{SEMAPHORE as WIDTHS};
ghost use Rattle.iop_objects.specs.Objects.{waiters_of};
ghost use Rattle.iop_saved_objects.specs.Semaphores.{saved_semaphores, semaphore_numbers, semaphore_head, semaphore_form, put_head, put_queued, put_semaphore};
ghost use Rattle.iop_saved_objects.specs.Waiters.{put_waiter, saved_waiters};

use crate::head::Head;
use crate::listing::save_records;
use crate::objects::{Table, restore_objects, save_objects};
use crate::parts::WithList;
use crate::priorities::Priorities;
use crate::putting::{Listed, PutHead};
use crate::record::Record;
use iop_base::WriteFault;
use iop_objects::Waiter;
use iop_ports::Sink;
use iop_queues::Walk;
use iop_sema::{Semaphore, Semaphores};
use iop_snapshot::widths::SEMAPHORE;
use iop_snapshot::{Decoder, Encoder, SnapFault};

/// Tells the numbers of a semaphore.
fn numbers_of_semaphore(head: Head<Semaphore>) -> [u64; 6]
    ensures numbers { result ≡ semaphore_numbers head }
    ensures fits { fits_item WIDTHS (semaphore_numbers head) ≡ true }
{
    [
        u64::from(head.id),
        u64::from(head.state.attr),
        u64::from(head.state.option),
        u64::from(head.state.initial),
        u64::from(head.state.max),
        u64::from(head.state.count),
    ]
}

impl Record for Head<Semaphore> {
    ghost form = { semaphore_head };

    #[tactic(auto, unfolding(crate::specs::Semaphores::semaphore_head, iop_snapshot::specs::Forms::item))]
    fn save<S: Sink>(self, encoder: &mut Encoder<'_, S>) -> Result<(), WriteFault> {
        encoder.item(&SEMAPHORE, &numbers_of_semaphore(self))
    }

    #[tactic(auto, unfolding(crate::specs::Semaphores::semaphore_head, iop_snapshot::specs::Forms::item))]
    fn restore(decoder: &mut Decoder<'_>) -> Option<Self> {
        let mut numbers = [0; 6];
        decoder.item(&SEMAPHORE, &mut numbers)?;
        Some(Head {
            id: numbers[0] as u32,
            state: Semaphore {
                attr: numbers[1] as u32,
                option: numbers[2] as u32,
                initial: numbers[3] as u32,
                max: numbers[4] as u32,
                count: numbers[5] as u32,
            },
        })
    }
}

impl PutHead<Head<Semaphore>> for Semaphores {
    ghost put_head = { λ s head. put_head s head };

    fn put_head(&mut self, head: Head<Semaphore>) -> bool {
        self.put_back(head.id, head.state)
    }
}

impl Listed<Waiter<()>> for Semaphores {
    ghost items = { λ s id. saved_waiters (waiters_of s id) };

    ghost put_item = { λ priorities id. put_waiter (put_queued id) priorities };

    fn save_items<S: Sink>(&self, id: u32, encoder: &mut Encoder<'_, S>) -> Result<(), WriteFault> {
        save_records::<Waiter<()>, Walk<'_, Waiter<()>>, S>(
            self.walk(id),
            self.waiters(id),
            encoder,
        )
    }

    fn put_item<P: Priorities>(&mut self, priorities: &P, id: u32, item: Waiter<()>) -> bool {
        match priorities.priority(item.thread) {
            Some(priority) => self.put_waiter(id, item.thread, priority),
            None => false,
        }
    }
}

/// A semaphore with those that wait for it, as contracts see it.
type Saved = WithList<Head<Semaphore>, Waiter<()>>;

impl Table<Saved> for Semaphores {
    ghost saved = { λ s. saved_semaphores s };

    fn len(&self) -> usize {
        self.len()
    }

    fn nth(&self, place: usize) -> Option<(u32, Semaphore)> {
        // That ids rise is told with those that wait.
        self.waiters(0);
        self.nth(place)
    }
}

/// Writes the semaphores, in the order of their ids, each with the threads that wait for it.
#[tactic(auto, unfolding(crate::specs::Semaphores::semaphore_form))]
pub fn save_semaphores<S: Sink>(
    semaphores: &Semaphores,
    encoder: &mut Encoder<'_, S>,
) -> Result<(), WriteFault>
    ensures written { Writes result (spell_list semaphore_form (saved_semaphores semaphores.now))
        (place_of S.told encoder.old) (place_of S.told encoder.new) }
    ensures fits { OnOk result
        (fits_list (λ _. semaphore_form) (saved_semaphores semaphores.now) ≡ true) }
{
    save_objects::<Saved, Semaphores, S>(semaphores, encoder)
}

/// Reads semaphores, with the threads that wait for each, and puts them back into a table. `Bad`
/// exactly where no list of semaphores can be read that it takes, unless memory runs out.
#[tactic(auto, unfolding(crate::specs::Semaphores::semaphore_form))]
pub fn restore_semaphores<P: Priorities>(
    semaphores: Semaphores,
    priorities: &P,
    decoder: &mut Decoder<'_>,
) -> Result<Semaphores, SnapFault>
    ensures { PutsAll (put_semaphore (P.of priorities.now)) semaphore_form semaphores result
        decoder.old decoder.new }
{
    restore_objects::<Saved, Semaphores, P>(semaphores, priorities, decoder)
}
