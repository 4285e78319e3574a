//! What the services of variable and of fixed pools have alike.

ghost use Rattle.std.specs.Prelude.{◌≡◌, ◌+◌, ◌^◌, ◌<◌, IfSome};
ghost use Rattle.iop_base.specs.Places.{IsRamSize};
ghost use Rattle.iop_kernel.specs.PoolServices.{takes_memory};

use iop_sysmem::Blocks;

/// The mode that takes the least free place for a block.
pub const FROM_BELOW: u32 = 0;

/// Takes the memory of a pool, the first block of so many bytes that is free, where there is room
/// for one more pool. None where there is no room, or no such block; nothing changes then.
pub(crate) fn take_memory(blocks: &mut Blocks, room: bool, bytes: u32) -> Option<u32>
    requires sized { IsRamSize blocks.old.size }
    ensures taken { result ≡ (takes_memory blocks.old room bytes).0 }
    ensures left { blocks.new ≡ (takes_memory blocks.old room bytes).1 }
    ensures inside { IfSome result (λ base. base + bytes < 2 ^ 32) }
{
    if !room {
        return None;
    }
    let base = blocks.alloc(FROM_BELOW, bytes, 0);
    if base == 0 {
        return None;
    }
    Some(base)
}
