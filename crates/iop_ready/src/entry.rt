use crate::priority::Priority;
use crate::slot::Slot;

/// A ready thread.
#[derive(Clone, Copy, Drop)]
pub(crate) struct Entry {
    /// The place of its record.
    pub slot: Slot,
    /// Its priority.
    pub priority: Priority,
}
