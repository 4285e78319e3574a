use iop_exec::Cpu;

/// Where a handler returns to: there a `syscall` of `HANDLER_RETURN_CALL` stands.
pub const HANDLER_RETURN: u32 = 0x3010;

/// The `$sp` with which a handler begins: 16 bytes below the end of the handlers' stack.
pub const HANDLER_STACK: u32 = 0xBFF0;

/// What a handler was begun for.
#[derive(Clone, Copy, Debug, PartialEq, Eq)]
pub enum Cause {
    /// The interrupt line of this number, which is below `IRQ_LINES`.
    Line(u8),
    /// The alarm of this number.
    Alarm(u64),
}

/// The handler that runs.
#[derive(Clone, Copy, Debug, PartialEq, Eq)]
pub struct ActiveHandler {
    /// What it was begun for.
    pub cause: Cause,
    /// The registers of the thread that it interrupted. They mean nothing where no thread runs.
    pub kept: Cpu,
}
