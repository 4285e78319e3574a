//! The blocks, read in the order of their starts and put back.

ghost use Rattle.std.specs.Prelude.{◌≡◌, if◌then◌else◌};
ghost use Rattle.iop_sysmem.specs.BlockMap.{AreBlocks};
ghost use Rattle.iop_sysmem.specs.Restoring.{may_follow, with_last};

use crate::block::Block;
use crate::blocks::Blocks;
use iop_base::BLOCK_UNIT;

impl Blocks {
    /// Lends the blocks in the order of their starts, of which the kernel's is the first.
    pub fn used(&self) -> &[Block]
        ensures used { result.now ≡ self.now.used }
        ensures blocks { AreBlocks self.now }
    {
        &self.used
    }

    /// Puts a block behind all others. False, and no change, exactly where its start or its size is
    /// no multiple of `BLOCK_UNIT`, its size is 0, it is not behind the last one or not all in RAM.
    pub fn put_back(&mut self, block: Block) -> bool
        ensures may { result ≡ may_follow self.old block }
        ensures map { self.new ≡ if result then with_last self.old block else self.old }
        ensures blocks { AreBlocks self.new }
    {
        let may = self.may_follow(block);
        if may {
            self.used.push_reserved(block);
        }
        may
    }

    /// Tells whether a block may stand behind all others.
    fn may_follow(&self, block: Block) -> bool
        ensures { result ≡ may_follow self.now block }
    {
        let Block { start, size } = block;
        let last = self.used[self.used.len() - 1];
        last.start + last.size <= start
            && start % BLOCK_UNIT == 0
            && 0 < size
            && size % BLOCK_UNIT == 0
            && start <= self.size
            && size <= self.size - start
    }
}
