ghost use Rattle.std.specs.Prelude.{◌≡◌, if◌then◌else◌, Some, None};
ghost use Rattle.iop_pools.specs.VariableRestoring.{layout_for, layout_in, may_stand};

use crate::attribute::is_attribute;
use crate::layout::{Layout, may_be_base};
use crate::variable_pool::{LEAST_BYTES, MOST_BYTES, VARIABLE_UNIT};

/// What is known of a variable pool, but for the ranges that are out and the threads that wait.
#[derive(Clone, Copy, Debug, Drop, PartialEq, Eq)]
pub struct VariableLayout {
    /// Its attribute: 0, or `BY_PRIORITY`.
    pub attr: u32,
    /// A word of the guest's own.
    pub option: u32,
    /// The address of its first byte.
    pub base: u32,
    /// How many bytes it has.
    pub size: u32,
}

impl VariableLayout {
    /// Tells how a pool is laid out of which the units are known.
    pub(crate) fn of(layout: Layout) -> Self
        ensures { result ≡ layout_in layout }
    {
        VariableLayout {
            attr: layout.attr,
            option: layout.option,
            base: layout.base,
            size: layout.size,
        }
    }

    /// Says whether a pool may stand that is laid out so.
    fn may_stand(self) -> bool
        ensures { result ≡ may_stand self }
    {
        is_attribute(self.attr)
            && may_be_base(self.base)
            && LEAST_BYTES <= self.size
            && self.size <= MOST_BYTES
            && self.size % VARIABLE_UNIT == 0
            && self.size <= u32::MAX - self.base
    }

    /// Tells the layout in units. None exactly where no pool may stand that is laid out so.
    pub(crate) fn checked(self) -> Option<Layout>
        ensures { result ≡ if may_stand self then Some (layout_for self) else None }
    {
        if !self.may_stand() {
            return None;
        }
        Some(Layout {
            attr: self.attr,
            option: self.option,
            base: self.base,
            size: self.size,
            unit: VARIABLE_UNIT,
        })
    }
}
