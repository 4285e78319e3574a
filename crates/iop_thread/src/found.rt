use crate::thread::Thread;
use iop_ready::Slot;

/// A live thread that was found, and the place in which it stands.
#[derive(Clone, Copy)]
pub(crate) struct Found {
    /// The place of its record.
    pub slot: Slot,
    /// Its record.
    pub thread: Thread,
}
