ghost use Rattle.std.specs.Prelude.{◌≡◌, ◌+◌, ◌^◌, ◌<◌, ◌≤◌, ◌==◌, IfSome};
ghost use Rattle.iop_pools.specs.Restoring.{lies_from, may_be_base};
ghost use Rattle.iop_pools.specs.Standing.{EndsInside};
ghost use Rattle.iop_pools.specs.Walks.{end_behind};
ghost use Rattle.iop_pools.specs.declared.attribute.TheConstants.{BY_PRIORITY};

use crate::attribute::BY_PRIORITY;
use crate::range::Range;
use iop_base::BLOCK_UNIT;

/// The least address at which the memory of a pool can begin: that behind the kernel's own.
pub const FIRST_BASE: u32 = 0x1_0000;

/// What is known of a pool, but for the ranges that are out and the threads that wait.
#[derive(Clone, Copy, Debug, Drop, PartialEq, Eq)]
pub struct Layout {
    /// Its attribute: 0, or `BY_PRIORITY`.
    pub attr: u32,
    /// A word of the guest's own.
    pub option: u32,
    /// The address of its first byte.
    pub base: u32,
    /// How many bytes it has.
    pub size: u32,
    /// How many bytes a unit has: each range begins and ends so many units behind the base.
    pub unit: u32,
}

impl Layout {
    /// Says whether the threads that wait for it are chosen by their priority.
    pub(crate) fn by_priority(&self) -> bool
        ensures { result ≡ (self.now.attr == BY_PRIORITY) }
    {
        self.attr == BY_PRIORITY
    }

    /// Says whether so many bytes at a place are units of it that are not before another place.
    fn lies_from(self, from: u32, start: u32, size: u32) -> bool
        requires unit { 0 < self.unit }
        requires inside { self.base + self.size < 2 ^ 32 }
        requires from { self.base ≤ from }
        ensures { result ≡ lies_from self from start size }
    {
        let end = self.base + self.size;
        from <= start
            && (start - self.base) % self.unit == 0
            && 0 < size
            && size % self.unit == 0
            && start <= end
            && size <= end - start
    }

    /// Says whether so many bytes at a place are units of it that are not before the end of its
    /// last range.
    pub(crate) fn lies_behind(self, last: Option<Range>, start: u32, size: u32) -> bool
        requires unit { 0 < self.unit }
        requires inside { self.base + self.size < 2 ^ 32 }
        requires last { IfSome last (λ r. EndsInside self r) }
        ensures { result ≡ lies_from self (end_behind self.base last) start size }
    {
        match last {
            Some(last) => self.lies_from(last.start + last.size, start, size),
            None => self.lies_from(self.base, start, size),
        }
    }
}

/// Says whether the memory of a pool may begin at an address.
pub(crate) fn may_be_base(base: u32) -> bool
    ensures { result ≡ may_be_base base }
{
    FIRST_BASE <= base && base % BLOCK_UNIT == 0
}
