//! Fixed pools.

ghost use Rattle.std.specs.Prelude.{◌≡◌, true, OnOk, ◌<◌, ◌^◌, length};
ghost use Rattle.iop_snapshot.specs.Forms.{spell_list, fits_list};
ghost use Rattle.iop_snapshot.specs.Items.{fits_item};
ghost use Rattle.iop_snapshot.specs.Putting.{PutsAll};
ghost use Rattle.iop_snapshot.specs.Writing.{place_of, Writes};
ghost use Rattle.iop_objects.specs.Objects.{state_of, waiters_of};
ghost use Rattle.iop_pools.specs.FixedRestoring.{blocks_in};
ghost use Rattle.iop_snapshot.specs.declared.widths.TheConstants.{FIXED_POOL as WIDTHS, POOL_BLOCK as ITEM_WIDTHS};
ghost use Rattle.iop_saved_objects.specs.FixedPools.{saved_pools, pool_numbers, pool_head, block_numbers, block_form, fixed_pool_form, put_head, put_block, put_queued, put_fixed_pool};
ghost use Rattle.iop_saved_objects.specs.Lists.{ahead_in};
ghost use Rattle.iop_saved_objects.specs.Waiters.{put_waiter, saved_waiters};

use crate::head::Head;
use crate::listing::save_records;
use crate::objects::{Table, restore_objects, save_objects};
use crate::parts::WithList;
use crate::priorities::Priorities;
use crate::putting::{Listed, PutHead};
use crate::record::Record;
use iop_base::WriteFault;
use iop_objects::Waiter;
use iop_pools::{BlockWalk, FixedLayout, FixedPools};
use iop_ports::Sink;
use iop_queues::Walk;
use iop_snapshot::widths::{FIXED_POOL, POOL_BLOCK};
use iop_snapshot::{Decoder, Encoder, SnapFault};

/// Tells the numbers of a pool.
fn numbers_of_pool(head: Head<FixedLayout>) -> [u64; 6]
    ensures numbers { result ≡ pool_numbers head }
    ensures fits { fits_item WIDTHS (pool_numbers head) ≡ true }
{
    [
        u64::from(head.id),
        u64::from(head.state.attr),
        u64::from(head.state.option),
        u64::from(head.state.base),
        u64::from(head.state.size),
        u64::from(head.state.count),
    ]
}

impl Record for Head<FixedLayout> {
    ghost form = { pool_head };

    #[tactic(auto, unfolding(crate::specs::FixedPools::pool_head, iop_snapshot::specs::Forms::item))]
    fn save<S: Sink>(self, encoder: &mut Encoder<'_, S>) -> Result<(), WriteFault> {
        encoder.item(&FIXED_POOL, &numbers_of_pool(self))
    }

    #[tactic(auto, unfolding(crate::specs::FixedPools::pool_head, iop_snapshot::specs::Forms::item))]
    fn restore(decoder: &mut Decoder<'_>) -> Option<Self> {
        let mut numbers = [0; 6];
        decoder.item(&FIXED_POOL, &mut numbers)?;
        Some(Head {
            id: numbers[0] as u32,
            state: FixedLayout {
                attr: numbers[1] as u32,
                option: numbers[2] as u32,
                base: numbers[3] as u32,
                size: numbers[4] as u32,
                count: numbers[5] as u32,
            },
        })
    }
}

/// Tells the numbers of a block.
fn numbers_of_block(block: u32) -> [u64; 1]
    ensures numbers { result ≡ block_numbers block }
    ensures fits { fits_item ITEM_WIDTHS (block_numbers block) ≡ true }
{
    [u64::from(block)]
}

impl Record for u32 {
    ghost form = { block_form };

    #[tactic(auto, unfolding(crate::specs::FixedPools::block_form, iop_snapshot::specs::Forms::item))]
    fn save<S: Sink>(self, encoder: &mut Encoder<'_, S>) -> Result<(), WriteFault> {
        encoder.item(&POOL_BLOCK, &numbers_of_block(self))
    }

    #[tactic(auto, unfolding(crate::specs::FixedPools::block_form, iop_snapshot::specs::Forms::item))]
    fn restore(decoder: &mut Decoder<'_>) -> Option<Self> {
        let mut numbers = [0; 1];
        decoder.item(&POOL_BLOCK, &mut numbers)?;
        Some(numbers[0] as u32)
    }
}

/// Tells how many blocks are out of the pool of an id.
fn count_blocks(pools: &FixedPools, id: u32) -> usize
    ensures count { result
        ≡ length (ahead_in (λ x. blocks_in x.ranges) (state_of pools.now id)) }
    ensures few { result < 2 ^ 32 }
{
    // That a pool is live also tells how many blocks it has at most.
    if pools.len() == 0 {
        return 0;
    }
    match pools.blocks(id) {
        Some(walk) => walk.len(),
        None => 0,
    }
}

impl PutHead<Head<FixedLayout>> for FixedPools {
    ghost put_head = { λ s head. put_head s head };

    fn put_head(&mut self, head: Head<FixedLayout>) -> bool {
        self.put_back(head.id, head.state)
    }
}

impl Listed<u32> for FixedPools {
    ghost items = { λ s id. ahead_in (λ x. blocks_in x.ranges) (state_of s id) };

    ghost put_item = { λ priorities id. put_block id };

    fn save_items<S: Sink>(&self, id: u32, encoder: &mut Encoder<'_, S>) -> Result<(), WriteFault> {
        save_records::<u32, BlockWalk<'_>, S>(self.blocks(id), count_blocks(self, id), encoder)
    }

    fn put_item<P: Priorities>(&mut self, _priorities: &P, id: u32, item: u32) -> bool {
        self.put_block(id, item)
    }
}

impl Listed<Waiter<()>> for FixedPools {
    ghost items = { λ s id. saved_waiters (waiters_of s id) };

    ghost put_item = { λ priorities id. put_waiter (put_queued id) priorities };

    fn save_items<S: Sink>(&self, id: u32, encoder: &mut Encoder<'_, S>) -> Result<(), WriteFault> {
        save_records::<Waiter<()>, Walk<'_, Waiter<()>>, S>(
            self.walk(id),
            self.waiters(id),
            encoder,
        )
    }

    fn put_item<P: Priorities>(&mut self, priorities: &P, id: u32, item: Waiter<()>) -> bool {
        match priorities.priority(item.thread) {
            Some(priority) => self.put_waiter(id, item.thread, priority),
            None => false,
        }
    }
}

/// A pool with the blocks that are out of it and those that wait for it, as contracts see it.
type Saved = WithList<WithList<Head<FixedLayout>, u32>, Waiter<()>>;

impl Table<Saved> for FixedPools {
    ghost saved = { λ s. saved_pools s };

    fn len(&self) -> usize {
        self.len()
    }

    fn nth(&self, place: usize) -> Option<(u32, FixedLayout)> {
        // That ids rise is told with those that wait.
        self.waiters(0);
        self.nth(place)
    }
}

/// Writes the fixed pools, in the order of their ids, each with the blocks that are out of it and
/// the threads that wait for it.
#[tactic(auto, unfolding(crate::specs::FixedPools::fixed_pool_form))]
pub fn save_fixed_pools<S: Sink>(
    pools: &FixedPools,
    encoder: &mut Encoder<'_, S>,
) -> Result<(), WriteFault>
    ensures written { Writes result (spell_list fixed_pool_form (saved_pools pools.now))
        (place_of S.told encoder.old) (place_of S.told encoder.new) }
    ensures fits { OnOk result
        (fits_list (λ _. fixed_pool_form) (saved_pools pools.now) ≡ true) }
{
    save_objects::<Saved, FixedPools, S>(pools, encoder)
}

/// Reads fixed pools, with the blocks that are out of each and the threads that wait for it, and
/// puts them back into a table. `Bad` exactly where no list of pools can be read that it takes,
/// unless memory runs out.
#[tactic(auto, unfolding(crate::specs::FixedPools::fixed_pool_form))]
pub fn restore_fixed_pools<P: Priorities>(
    pools: FixedPools,
    priorities: &P,
    decoder: &mut Decoder<'_>,
) -> Result<FixedPools, SnapFault>
    ensures { PutsAll (put_fixed_pool (P.of priorities.now)) fixed_pool_form pools result
        decoder.old decoder.new }
{
    restore_objects::<Saved, FixedPools, P>(pools, priorities, decoder)
}
