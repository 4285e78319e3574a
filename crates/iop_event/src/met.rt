/// A thread that waits no more, since its condition held.
#[derive(Clone, Copy, Debug, Drop, PartialEq, Eq)]
pub struct Met {
    /// The id of the thread.
    pub thread: u32,
    /// The guest's address where the pattern is to be written: 0 for none.
    pub place: u32,
    /// The pattern of which its condition held.
    pub pattern: u32,
}
