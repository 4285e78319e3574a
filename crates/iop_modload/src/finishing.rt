//! What becomes of a module after its return.

ghost use Rattle.std.specs.Prelude.{◌≡◌, ◌+◌, ◌^◌, ◌<◌, ◌≤◌, ◌==◌, length};
ghost use Rattle.iop_base.specs.BlockSizes.{block_len};
ghost use Rattle.iop_base.specs.Keeping.{kept_of};
ghost use Rattle.iop_base.specs.Output.{Gives};
ghost use Rattle.iop_sysmem.specs.BlockMap.{AreBlocks};
ghost use Rattle.iop_stubs.specs.Binding.{IsSound};
ghost use Rattle.iop_modload.specs.Finishing.{has_block, removes, keeps, finishes};

use crate::image_place::ImagePlace;
use iop_base::{BLOCK_UNIT, Kept, Line, Lines, block_len};
use iop_registry::Registry;
use iop_stubs::Guest;
use iop_sysmem::Blocks;

/// Ends module `k`, whose image stands at this place and which returned `value` at moment `t`, in
/// ticks: gives its line, and removes it where its result says that it is not kept
/// (`Kept::of_value`) and a used block of its size still starts at its base. The blocks are those
/// of this memory.
///
/// A removal fills the block with zeros, which is one store, frees it, and takes the libraries out
/// whose tables lie in it. Else nothing changes but that the line is given.
#[tactic(auto, unfolding(crate::specs::Finishing::finishes))]
pub fn finish<L: Lines>(
    k: u32,
    place: &ImagePlace,
    value: u32,
    guest: &mut Guest,
    blocks: &mut Blocks,
    registry: &mut Registry,
    t: u64,
    lines: &mut L,
) -> Kept
    requires same_size { blocks.old.size ≡ length guest.old.ram }
    ensures kept { result ≡ kept_of value }
    ensures memory { guest.new
        ≡ (finishes t guest.old blocks.old registry.old k place.now value).memory }
    ensures blocks { blocks.new
        ≡ (finishes t guest.old blocks.old registry.old k place.now value).blocks }
    ensures libraries { registry.new
        ≡ (finishes t guest.old blocks.old registry.old k place.now value).libraries }
    ensures lines { Gives (L.output lines.old) (L.output lines.new)
        (finishes t guest.old blocks.old registry.old k place.now value).pieces }
    ensures same_size { blocks.new.size ≡ length guest.new.ram }
    ensures are_blocks { AreBlocks blocks.new }
    ensures sound { IsSound guest.new }
{
    prove_eq!(guest.ram().size(), blocks.size());
    let kept = Kept::of_value(value);
    lines.line(t, Line::Returned { k, value, kept });
    leave(kept, place, guest, blocks, registry, t, lines);
    kept
}

/// Removes a module that is not kept, if its block still stands.
#[tactic(auto, using(iop_base::proofs::Giving::gives_none))]
fn leave<L: Lines>(
    kept: Kept,
    place: &ImagePlace,
    guest: &mut Guest,
    blocks: &mut Blocks,
    registry: &mut Registry,
    t: u64,
    lines: &mut L,
)
    requires same_size { blocks.old.size ≡ length guest.old.ram }
    requires small { blocks.old.size ≤ 2 ^ 29 }
    ensures memory { guest.new
        ≡ (keeps t guest.old blocks.old registry.old place.now kept).memory }
    ensures blocks { blocks.new
        ≡ (keeps t guest.old blocks.old registry.old place.now kept).blocks }
    ensures libraries { registry.new
        ≡ (keeps t guest.old blocks.old registry.old place.now kept).libraries }
    ensures lines { Gives (L.output lines.old) (L.output lines.new)
        (keeps t guest.old blocks.old registry.old place.now kept).pieces }
{
    if kept == Kept::Removed && still_stands(blocks, place) {
        remove(
            place.base,
            block_len(place.len),
            guest,
            blocks,
            registry,
            t,
            lines,
        );
    }
}

/// Tells whether a used block of the module's size, not the kernel's, starts at its base.
fn still_stands(blocks: &Blocks, place: &ImagePlace) -> bool
    requires { blocks.now.size ≤ 2 ^ 29 }
    ensures stands { result ≡ has_block blocks.now place.now.base (block_len place.now.len) }
    ensures blocks { AreBlocks blocks.now }
{
    let start = blocks.top(place.base);
    let size = blocks.block_size(place.base);
    start != 0 && start == place.base && is_block_len(size, place.len)
}

/// Tells whether a block for `len` bytes has this size, also where `len` rounded up would pass 2^32.
fn is_block_len(size: u32, len: u32) -> bool
    ensures { result ≡ (size == block_len len) }
{
    size % BLOCK_UNIT == 0 && len <= size && size - len < BLOCK_UNIT
}

/// Fills a block with zeros, frees it, and takes the libraries out whose tables lie in it.
fn remove<L: Lines>(
    base: u32,
    size: u32,
    guest: &mut Guest,
    blocks: &mut Blocks,
    registry: &mut Registry,
    t: u64,
    lines: &mut L,
)
    requires some { 0 < size }
    requires inside { base + size ≤ length guest.old.ram }
    requires small { length guest.old.ram ≤ 2 ^ 29 }
    ensures memory { guest.new
        ≡ (removes t guest.old blocks.old registry.old base size).memory }
    ensures blocks { blocks.new
        ≡ (removes t guest.old blocks.old registry.old base size).blocks }
    ensures libraries { registry.new
        ≡ (removes t guest.old blocks.old registry.old base size).libraries }
    ensures lines { Gives (L.output lines.old) (L.output lines.new)
        (removes t guest.old blocks.old registry.old base size).pieces }
{
    guest.fill(base, size, 0, t, lines).unwrap();
    blocks.free(base);
    registry.drop_range(base, size);
}
