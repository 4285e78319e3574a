/// An item of a queue, with its priority: the smaller the number, the better.
#[derive(Clone, Copy, Debug, Drop, PartialEq, Eq)]
pub struct Queued<T> {
    /// The number of its priority.
    pub priority: u8,
    /// What is queued.
    pub item: T,
}
