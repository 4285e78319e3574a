//! Event flags.

ghost use Rattle.std.specs.Prelude.{◌≡◌, true, OnOk};
ghost use Rattle.iop_snapshot.specs.Forms.{spell_list, fits_list};
ghost use Rattle.iop_snapshot.specs.Items.{fits_item};
ghost use Rattle.iop_snapshot.specs.Putting.{PutsAll};
ghost use Rattle.iop_snapshot.specs.Writing.{place_of, Writes};
ghost use Rattle.iop_snapshot.specs.declared.widths.TheConstants.{EVENT_FLAG as WIDTHS};
ghost use Rattle.iop_objects.specs.Objects.{waiters_of};
ghost use Rattle.iop_saved_objects.specs.EventFlags.{saved_flags, flag_head_numbers, flag_head, event_flag_form, put_head, put_queued, put_event_flag};
ghost use Rattle.iop_saved_objects.specs.Waiters.{put_waiter, saved_waiters};

use crate::head::Head;
use crate::listing::save_records;
use crate::objects::{Table, restore_objects, save_objects};
use crate::parts::WithList;
use crate::priorities::Priorities;
use crate::putting::{Listed, PutHead};
use crate::record::Record;
use iop_base::WriteFault;
use iop_event::{EventFlag, EventFlags, Wanted};
use iop_objects::Waiter;
use iop_ports::Sink;
use iop_queues::Walk;
use iop_snapshot::widths::EVENT_FLAG;
use iop_snapshot::{Decoder, Encoder, SnapFault};

/// Tells the numbers of an event flag.
fn numbers_of_event_flag(head: Head<EventFlag>) -> [u64; 5]
    ensures numbers { result ≡ flag_head_numbers head }
    ensures fits { fits_item WIDTHS (flag_head_numbers head) ≡ true }
{
    [
        u64::from(head.id),
        u64::from(head.state.attr),
        u64::from(head.state.option),
        u64::from(head.state.first),
        u64::from(head.state.pattern),
    ]
}

impl Record for Head<EventFlag> {
    ghost form = { flag_head };

    #[tactic(auto, unfolding(crate::specs::EventFlags::flag_head, iop_snapshot::specs::Forms::item))]
    fn save<S: Sink>(self, encoder: &mut Encoder<'_, S>) -> Result<(), WriteFault> {
        encoder.item(&EVENT_FLAG, &numbers_of_event_flag(self))
    }

    #[tactic(auto, unfolding(crate::specs::EventFlags::flag_head, iop_snapshot::specs::Forms::item))]
    fn restore(decoder: &mut Decoder<'_>) -> Option<Self> {
        let mut numbers = [0; 5];
        decoder.item(&EVENT_FLAG, &mut numbers)?;
        Some(Head {
            id: numbers[0] as u32,
            state: EventFlag {
                attr: numbers[1] as u32,
                option: numbers[2] as u32,
                first: numbers[3] as u32,
                pattern: numbers[4] as u32,
            },
        })
    }
}

impl PutHead<Head<EventFlag>> for EventFlags {
    ghost put_head = { λ s head. put_head s head };

    fn put_head(&mut self, head: Head<EventFlag>) -> bool {
        self.put_back(head.id, head.state)
    }
}

impl Listed<Waiter<Wanted>> for EventFlags {
    ghost items = { λ s id. saved_waiters (waiters_of s id) };

    ghost put_item = { λ priorities id. put_waiter (put_queued id) priorities };

    fn save_items<S: Sink>(&self, id: u32, encoder: &mut Encoder<'_, S>) -> Result<(), WriteFault> {
        save_records::<Waiter<Wanted>, Walk<'_, Waiter<Wanted>>, S>(
            self.walk(id),
            self.waiters(id),
            encoder,
        )
    }

    fn put_item<P: Priorities>(&mut self, priorities: &P, id: u32, item: Waiter<Wanted>) -> bool {
        match priorities.priority(item.thread) {
            Some(priority) => self.put_waiter(id, item.thread, priority, item.wants),
            None => false,
        }
    }
}

/// An event flag with those that wait for it, as contracts see it.
type Saved = WithList<Head<EventFlag>, Waiter<Wanted>>;

impl Table<Saved> for EventFlags {
    ghost saved = { λ s. saved_flags s };

    fn len(&self) -> usize {
        self.len()
    }

    fn nth(&self, place: usize) -> Option<(u32, EventFlag)> {
        // That ids rise is told with those that wait.
        self.waiters(0);
        self.nth(place)
    }
}

/// Writes the event flags, in the order of their ids, each with the threads that wait for it.
#[tactic(auto, unfolding(crate::specs::EventFlags::event_flag_form))]
pub fn save_event_flags<S: Sink>(
    event_flags: &EventFlags,
    encoder: &mut Encoder<'_, S>,
) -> Result<(), WriteFault>
    ensures written { Writes result (spell_list event_flag_form (saved_flags event_flags.now))
        (place_of S.told encoder.old) (place_of S.told encoder.new) }
    ensures fits { OnOk result
        (fits_list (λ _. event_flag_form) (saved_flags event_flags.now) ≡ true) }
{
    save_objects::<Saved, EventFlags, S>(event_flags, encoder)
}

/// Reads event flags, with the threads that wait for each, and puts them back into a table. `Bad`
/// exactly where no list of event flags can be read that it takes, unless memory runs out.
#[tactic(auto, unfolding(crate::specs::EventFlags::event_flag_form))]
pub fn restore_event_flags<P: Priorities>(
    event_flags: EventFlags,
    priorities: &P,
    decoder: &mut Decoder<'_>,
) -> Result<EventFlags, SnapFault>
    ensures { PutsAll (put_event_flag (P.of priorities.now)) event_flag_form event_flags result
        decoder.old decoder.new }
{
    restore_objects::<Saved, EventFlags, P>(event_flags, priorities, decoder)
}
