/// A kind of objects that threads wait for.
#[derive(Clone, Copy, Debug, PartialEq, Eq)]
pub enum Kind {
    /// Semaphores.
    Semaphore,
    /// Event flags.
    EventFlag,
    /// Mailboxes.
    Mailbox,
    /// Variable pools.
    VariablePool,
    /// Fixed pools.
    FixedPool,
}
