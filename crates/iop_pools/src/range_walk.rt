ghost use Rattle.std.specs.Prelude.{◌≡◌, [], ◌∷◌, MatchOption, length};
ghost use Rattle.iop_pools.specs.Standing.{ranges_of};

use crate::out::Out;
use crate::range::Range;
use crate::walks;
use std::marker::Model;

/// The ranges that are out of a pool and still to come, in order of their starts.
#[derive(Drop)]
pub struct RangeWalk<'a> {
    /// The ranges of all pools that are still to be looked at.
    outs: &'a [Out],
    /// The id of the pool.
    id: u32,
}

impl<'a> Model for RangeWalk<'a> {
    ghost use Rattle.std.specs.Prelude.{List};
    ghost use Rattle.iop_pools.specs.Standing.{ranges_of};
    ghost use Rattle.iop_pools.specs.declared.range.Range.{Range};

    ghost Value = { List Range };

    ghost view = { λ w. ranges_of w.id w.outs.now };
}

impl<'a> RangeWalk<'a> {
    /// Begins at the first range of a pool.
    pub(crate) fn new(outs: &'a [Out], id: u32) -> Self
        ensures { result ≡ ranges_of id outs.now }
    {
        RangeWalk { outs, id }
    }

    /// Counts the ranges that are left.
    pub fn len(&self) -> usize
        ensures { result ≡ length self.now }
    {
        walks::count(self.outs, self.id)
    }

    /// Reads the next range. None exactly where none is left.
    pub fn next(&mut self) -> Option<Range>
        ensures { MatchOption result
            ((self.old ≡ []) × (self.new ≡ []))
            (λ range. self.old ≡ range ∷ self.new) }
    {
        let place = walks::first(self.outs, self.id)?;
        let range = self.outs[place].range;
        self.outs = &self.outs[place + 1..];
        Some(range)
    }
}
