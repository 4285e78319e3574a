/// A thread that waits no more, since its size fits.
#[derive(Clone, Copy, Debug, Drop, PartialEq, Eq)]
pub struct Met {
    /// The id of the thread.
    pub thread: u32,
    /// The address of the memory that it is given.
    pub block: u32,
}
