//! Variable pools.

ghost use Rattle.std.specs.Prelude.{◌≡◌, true, OnOk, ◌<◌, ◌^◌, length};
ghost use Rattle.iop_snapshot.specs.Forms.{spell_list, fits_list};
ghost use Rattle.iop_snapshot.specs.Items.{fits_item};
ghost use Rattle.iop_snapshot.specs.Putting.{PutsAll};
ghost use Rattle.iop_snapshot.specs.Writing.{place_of, Writes};
ghost use Rattle.iop_objects.specs.Objects.{state_of, waiters_of};
ghost use Rattle.iop_snapshot.specs.declared.widths.TheConstants.{VARIABLE_POOL as WIDTHS, POOL_RANGE as ITEM_WIDTHS};
ghost use Rattle.iop_saved_objects.specs.VariablePools.{saved_pools, pool_numbers, pool_head, range_numbers, range_form, variable_pool_form, put_head, put_range, put_queued, put_variable_pool};
ghost use Rattle.iop_saved_objects.specs.Lists.{ahead_in};
ghost use Rattle.iop_saved_objects.specs.Waiters.{put_waiter, saved_waiters};

use crate::head::Head;
use crate::listing::save_records;
use crate::objects::{Table, restore_objects, save_objects};
use crate::parts::WithList;
use crate::priorities::Priorities;
use crate::putting::{Listed, PutHead};
use crate::record::Record;
use iop_base::WriteFault;
use iop_objects::Waiter;
use iop_pools::{Range, RangeWalk, VariableLayout, VariablePools};
use iop_ports::Sink;
use iop_queues::Walk;
use iop_snapshot::widths::{POOL_RANGE, VARIABLE_POOL};
use iop_snapshot::{Decoder, Encoder, SnapFault};

/// Tells the numbers of a pool.
fn numbers_of_pool(head: Head<VariableLayout>) -> [u64; 5]
    ensures numbers { result ≡ pool_numbers head }
    ensures fits { fits_item WIDTHS (pool_numbers head) ≡ true }
{
    [
        u64::from(head.id),
        u64::from(head.state.attr),
        u64::from(head.state.option),
        u64::from(head.state.base),
        u64::from(head.state.size),
    ]
}

impl Record for Head<VariableLayout> {
    ghost form = { pool_head };

    #[tactic(auto, unfolding(crate::specs::VariablePools::pool_head, iop_snapshot::specs::Forms::item))]
    fn save<S: Sink>(self, encoder: &mut Encoder<'_, S>) -> Result<(), WriteFault> {
        encoder.item(&VARIABLE_POOL, &numbers_of_pool(self))
    }

    #[tactic(auto, unfolding(crate::specs::VariablePools::pool_head, iop_snapshot::specs::Forms::item))]
    fn restore(decoder: &mut Decoder<'_>) -> Option<Self> {
        let mut numbers = [0; 5];
        decoder.item(&VARIABLE_POOL, &mut numbers)?;
        Some(Head {
            id: numbers[0] as u32,
            state: VariableLayout {
                attr: numbers[1] as u32,
                option: numbers[2] as u32,
                base: numbers[3] as u32,
                size: numbers[4] as u32,
            },
        })
    }
}

/// Tells the numbers of a range.
fn numbers_of_range(range: Range) -> [u64; 2]
    ensures numbers { result ≡ range_numbers range }
    ensures fits { fits_item ITEM_WIDTHS (range_numbers range) ≡ true }
{
    [u64::from(range.start), u64::from(range.size)]
}

impl Record for Range {
    ghost form = { range_form };

    #[tactic(auto, unfolding(crate::specs::VariablePools::range_form, iop_snapshot::specs::Forms::item))]
    fn save<S: Sink>(self, encoder: &mut Encoder<'_, S>) -> Result<(), WriteFault> {
        encoder.item(&POOL_RANGE, &numbers_of_range(self))
    }

    #[tactic(auto, unfolding(crate::specs::VariablePools::range_form, iop_snapshot::specs::Forms::item))]
    fn restore(decoder: &mut Decoder<'_>) -> Option<Self> {
        let mut numbers = [0; 2];
        decoder.item(&POOL_RANGE, &mut numbers)?;
        Some(Range {
            start: numbers[0] as u32,
            size: numbers[1] as u32,
        })
    }
}

/// Tells how many ranges are out of the pool of an id.
fn count_ranges(pools: &VariablePools, id: u32) -> usize
    ensures count { result
        ≡ length (ahead_in (λ x. x.ranges) (state_of pools.now id)) }
    ensures few { result < 2 ^ 32 }
{
    // That a pool is live also tells how many ranges can be out of it.
    if pools.len() == 0 {
        return 0;
    }
    match pools.ranges(id) {
        Some(walk) => walk.len(),
        None => 0,
    }
}

impl PutHead<Head<VariableLayout>> for VariablePools {
    ghost put_head = { λ s head. put_head s head };

    fn put_head(&mut self, head: Head<VariableLayout>) -> bool {
        self.put_back(head.id, head.state)
    }
}

impl Listed<Range> for VariablePools {
    ghost items = { λ s id. ahead_in (λ x. x.ranges) (state_of s id) };

    ghost put_item = { λ priorities id. put_range id };

    fn save_items<S: Sink>(&self, id: u32, encoder: &mut Encoder<'_, S>) -> Result<(), WriteFault> {
        save_records::<Range, RangeWalk<'_>, S>(self.ranges(id), count_ranges(self, id), encoder)
    }

    fn put_item<P: Priorities>(&mut self, _priorities: &P, id: u32, item: Range) -> bool {
        self.put_range(id, item.start, item.size)
    }
}

impl Listed<Waiter<u32>> for VariablePools {
    ghost items = { λ s id. saved_waiters (waiters_of s id) };

    ghost put_item = { λ priorities id. put_waiter (put_queued id) priorities };

    fn save_items<S: Sink>(&self, id: u32, encoder: &mut Encoder<'_, S>) -> Result<(), WriteFault> {
        save_records::<Waiter<u32>, Walk<'_, Waiter<u32>>, S>(
            self.walk(id),
            self.waiters(id),
            encoder,
        )
    }

    fn put_item<P: Priorities>(&mut self, priorities: &P, id: u32, item: Waiter<u32>) -> bool {
        match priorities.priority(item.thread) {
            Some(priority) => self.put_waiter(id, item.thread, item.wants, priority),
            None => false,
        }
    }
}

/// A pool with what is out of it and those that wait for it, as contracts see it.
type Saved = WithList<WithList<Head<VariableLayout>, Range>, Waiter<u32>>;

impl Table<Saved> for VariablePools {
    ghost saved = { λ s. saved_pools s };

    fn len(&self) -> usize {
        self.len()
    }

    fn nth(&self, place: usize) -> Option<(u32, VariableLayout)> {
        // That ids rise is told with those that wait.
        self.waiters(0);
        self.nth(place)
    }
}

/// Writes the variable pools, in the order of their ids, each with what is out of it and the
/// threads that wait for it.
#[tactic(auto, unfolding(crate::specs::VariablePools::variable_pool_form))]
pub fn save_variable_pools<S: Sink>(
    pools: &VariablePools,
    encoder: &mut Encoder<'_, S>,
) -> Result<(), WriteFault>
    ensures written { Writes result (spell_list variable_pool_form (saved_pools pools.now))
        (place_of S.told encoder.old) (place_of S.told encoder.new) }
    ensures fits { OnOk result
        (fits_list (λ _. variable_pool_form) (saved_pools pools.now) ≡ true) }
{
    save_objects::<Saved, VariablePools, S>(pools, encoder)
}

/// Reads variable pools, with what is out of each and the threads that wait for it, and puts them
/// back into a table. `Bad` exactly where no list of pools can be read that it takes, unless memory
/// runs out.
#[tactic(auto, unfolding(crate::specs::VariablePools::variable_pool_form))]
pub fn restore_variable_pools<P: Priorities>(
    pools: VariablePools,
    priorities: &P,
    decoder: &mut Decoder<'_>,
) -> Result<VariablePools, SnapFault>
    ensures { PutsAll (put_variable_pool (P.of priorities.now)) variable_pool_form pools result
        decoder.old decoder.new }
{
    restore_objects::<Saved, VariablePools, P>(pools, priorities, decoder)
}
