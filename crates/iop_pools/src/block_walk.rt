ghost use Rattle.std.specs.Prelude.{◌≡◌, [], ◌∷◌, List, MatchOption, length};
ghost use Rattle.iop_pools.specs.FixedRestoring.{blocks_in};

use crate::range_walk::RangeWalk;
use std::marker::Model;

/// The addresses of the blocks that are out of a pool and still to come, in rising order.
#[derive(Drop)]
pub struct BlockWalk<'a> {
    ranges: RangeWalk<'a>,
}

impl<'a> Model for BlockWalk<'a> {
    ghost use Rattle.std.specs.Prelude.{ℕ, List};
    ghost use Rattle.iop_pools.specs.FixedRestoring.{blocks_in};

    ghost Value = { List ℕ };

    ghost view = { λ w. blocks_in w.ranges };
}

impl<'a> BlockWalk<'a> {
    /// Begins at the first of some ranges, each of which is a block.
    pub(crate) fn new(ranges: RangeWalk<'a>) -> Self
        ensures { result ≡ blocks_in ranges.entry }
    {
        BlockWalk { ranges }
    }

    /// Counts the blocks that are left.
    pub fn len(&self) -> usize
        ensures { result ≡ length self.now }
    {
        self.ranges.len()
    }

    /// Reads the address of the next block. None exactly where none is left.
    pub fn next(&mut self) -> Option<u32>
        ensures { MatchOption result
            ((self.old ≡ []) × (self.new ≡ []))
            (λ block. self.old ≡ block ∷ self.new) }
    {
        let range = self.ranges.next()?;
        Some(range.start)
    }
}
