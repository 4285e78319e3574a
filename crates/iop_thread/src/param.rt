use iop_ready::Priority;

/// What a thread is made with (ps2sdk: thbase.h, `iop_thread_t`).
#[derive(Clone, Copy, Debug, PartialEq, Eq)]
pub struct Param {
    /// Its attributes.
    pub attr: u32,
    /// A word of its maker's own.
    pub option: u32,
    /// The address of its first instruction.
    pub entry: u32,
    /// How many bytes its stack has.
    pub stack_size: u32,
    /// The priority with which it starts.
    pub priority: Priority,
}
