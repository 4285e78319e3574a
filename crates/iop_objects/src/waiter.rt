/// A thread that waits for an object.
#[derive(Clone, Copy, Debug, Drop, PartialEq, Eq)]
pub struct Waiter<W> {
    /// The id of the thread.
    pub thread: u32,
    /// What it asks of the object.
    pub wants: W,
}
