//! The blocks of memory.

ghost use Rattle.std.specs.Prelude.{◌≡◌, ◌<◌, ◌^◌, is_some, Some, true, MatchResult, List, OnOk, length};
ghost use Rattle.iop_snapshot.specs.Forms.{spell_list, fits_list};
ghost use Rattle.iop_snapshot.specs.Items.{fits_item};
ghost use Rattle.iop_snapshot.specs.Putting.{put_all, next_form, PutsOne};
ghost use Rattle.iop_snapshot.specs.Reading.{GivesNone};
ghost use Rattle.iop_snapshot.specs.Writing.{place_of, Writes};
ghost use Rattle.iop_snapshot.specs.declared.widths.TheConstants.{USED_RANGE as WIDTHS};
ghost use Rattle.iop_snapshot.specs.Begins.{none_put};
ghost use Rattle.iop_saved_tables.specs.Records.{block_numbers, block_form};
ghost use Rattle.iop_sysmem.specs.declared.block.Block.{Block};
ghost use Rattle.iop_saved_tables.specs.Opened.{opened};
ghost use Rattle.iop_saved_tables.specs.Tables.{put_used, unopened, used_form};

use crate::record::{Record, save_records};
use iop_base::WriteFault;
use iop_ports::Sink;
use iop_snapshot::widths::USED_RANGE;
use iop_snapshot::{Decoder, Encoder, RestoreItems, SnapFault, restore_list};
use iop_sysmem::{Block, Blocks, KERNEL};

/// Tells the numbers of a block.
fn numbers_of_block(block: Block) -> [u64; 2]
    ensures numbers { result ≡ block_numbers block }
    ensures fits { fits_item WIDTHS (block_numbers block) ≡ true }
{
    [u64::from(block.start), u64::from(block.size)]
}

impl Record for Block {
    ghost form = { block_form };

    #[tactic(auto, unfolding(crate::specs::Records::block_form, iop_snapshot::specs::Forms::item))]
    fn save<S: Sink>(self, encoder: &mut Encoder<'_, S>) -> Result<(), WriteFault> {
        encoder.item(&USED_RANGE, &numbers_of_block(self))
    }

    #[tactic(auto, unfolding(crate::specs::Records::block_form, iop_snapshot::specs::Forms::item))]
    fn restore(decoder: &mut Decoder<'_>) -> Option<Self> {
        let mut numbers = [0; 2];
        decoder.item(&USED_RANGE, &mut numbers)?;
        Some(Block {
            start: numbers[0] as u32,
            size: numbers[1] as u32,
        })
    }
}

/// Writes the blocks of memory, in the order of their starts.
pub fn save_blocks<S: Sink>(blocks: &Blocks, encoder: &mut Encoder<'_, S>) -> Result<(), WriteFault>
    requires few { length blocks.now.used < 2 ^ 32 }
    ensures written { Writes result (spell_list block_form blocks.now.used)
        (place_of S.told encoder.old) (place_of S.told encoder.new) }
    ensures fits { OnOk result (fits_list (λ _. block_form) blocks.now.used ≡ true) }
{
    save_records(blocks.used(), encoder)
}

/// Blocks that are put back. The kernel's is there from the beginning, and comes first.
#[derive(Drop)]
struct Used {
    blocks: Blocks,
    /// Whether the kernel's block has come.
    has_kernel: bool,
}

impl Used {
    /// Puts a block back. False, and no change, exactly where it may not come next.
    fn put(&mut self, block: Block) -> bool
        ensures may { result ≡ is_some (put_used (opened self.old) block) }
        ensures put { result ≡ true → put_used (opened self.old) block ≡ Some (opened self.new) }
    {
        if self.has_kernel {
            self.blocks.put_back(block)
        } else {
            self.has_kernel = block == KERNEL;
            self.has_kernel
        }
    }

    /// Puts the next block back.
    fn put_next(&mut self, decoder: &mut Decoder<'_>) -> Result<(), SnapFault>
        ensures { PutsOne put_used block_form (opened self.old) (opened self.new) result decoder.old
            decoder.new }
    {
        let Some(block) = Block::restore(decoder) else {
            return Err(SnapFault::Bad);
        };
        if self.put(block) {
            Ok(())
        } else {
            Err(SnapFault::Bad)
        }
    }
}

impl RestoreItems<Block> for Used {
    ghost starts = { λ _. Unit {0} };

    ghost grows = { λ base now xs. put_all put_used (opened base) xs ≡ Some (opened now) };

    ghost next_form = { λ base xs. next_form put_used block_form (opened base) xs };

    fn restore_next(&mut self, decoder: &mut Decoder<'_>) -> Result<(), SnapFault> {
        self.put_next(decoder)
    }

    ghost begins = { λ base u. none_put put_used (opened base) };
}

/// Reads the blocks that are used and puts them back, into blocks of which the kernel's alone is
/// used. `Bad` exactly where no list of blocks can be read of which the kernel's is the first and
/// the others may be put back, unless memory runs out.
pub fn restore_blocks(blocks: Blocks, decoder: &mut Decoder<'_>) -> Result<Blocks, SnapFault>
    ensures { let read = (used_form blocks).read decoder.old in
        MatchResult result
        (λ now. (used : List Block)
        × (put_all put_used (unopened blocks) used ≡ Some (record { has_kernel = true; map = now }))
        × (read ≡ Some (used, decoder.new)))
        (GivesNone read) }
{
    let mut used = Used {
        blocks,
        has_kernel: false,
    };
    restore_list::<Block, Used>(&mut used, decoder)?;
    if used.has_kernel {
        Ok(used.blocks)
    } else {
        Err(SnapFault::Bad)
    }
}
