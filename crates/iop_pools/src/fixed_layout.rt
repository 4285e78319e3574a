ghost use Rattle.std.specs.Prelude.{◌≡◌, ◌<◌, if◌then◌else◌, Some, None};
ghost use Rattle.iop_pools.specs.FixedRestoring.{layout_for, layout_in, may_stand};

use crate::attribute::is_attribute;
use crate::fixed_pool::{FIXED_UNIT, MOST_BLOCK_BYTES, MOST_BLOCKS};
use crate::layout::{Layout, may_be_base};

/// What is known of a fixed pool, but for the blocks that are out and the threads that wait.
#[derive(Clone, Copy, Debug, Drop, PartialEq, Eq)]
pub struct FixedLayout {
    /// Its attribute: 0, or `BY_PRIORITY`.
    pub attr: u32,
    /// A word of the guest's own.
    pub option: u32,
    /// The address of its first byte.
    pub base: u32,
    /// How many bytes a block has.
    pub size: u32,
    /// How many blocks it has.
    pub count: u32,
}

impl FixedLayout {
    /// Tells how a pool is laid out of which the units are known.
    pub(crate) fn of(layout: Layout) -> Self
        requires { 0 < layout.unit }
        ensures { result ≡ layout_in layout }
    {
        FixedLayout {
            attr: layout.attr,
            option: layout.option,
            base: layout.base,
            size: layout.unit,
            count: layout.size / layout.unit,
        }
    }

    /// Says whether a pool may stand that is laid out so.
    fn may_stand(self) -> bool
        ensures { result ≡ may_stand self }
    {
        is_attribute(self.attr)
            && may_be_base(self.base)
            && 0 < self.size
            && self.size <= MOST_BLOCK_BYTES
            && self.size % FIXED_UNIT == 0
            && 0 < self.count
            && self.count <= MOST_BLOCKS as u32
            && self.size * self.count <= u32::MAX - self.base
    }

    /// Tells the layout in units, each of which is a block. None exactly where no pool may stand
    /// that is laid out so.
    pub(crate) fn checked(self) -> Option<Layout>
        ensures { result ≡ if may_stand self then Some (layout_for self) else None }
    {
        if !self.may_stand() {
            return None;
        }
        Some(Layout {
            attr: self.attr,
            option: self.option,
            base: self.base,
            size: self.size * self.count,
            unit: self.size,
        })
    }
}
