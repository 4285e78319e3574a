use crate::code::Code;
use crate::kept::Kept;
use crate::stop::Stop;

/// What a line of the trace says, beside its moment.
#[derive(Clone, Copy, Debug, PartialEq, Eq)]
pub enum Line {
    /// Module `k` was loaded at the physical place `base` with `len` bytes.
    Load { k: u32, base: u32, len: u32 },
    /// Module `k` was refused with `code`.
    Refused { k: u32, code: Code },
    /// Module `k` returned `value`.
    Returned { k: u32, value: u32, kept: Kept },
    /// A thread was taken from the ready list to run.
    Run(u32),
    /// An interrupt line was delivered.
    Irq(u32),
    /// An alarm was delivered.
    Alarm(u64),
    /// The delay of a thread was delivered.
    Due(u32),
    /// A live stub at this place was stored into.
    Stub(u32),
    /// A service that its library does not list was called.
    Unlisted { lib: u32, index: u32 },
    /// The run ended.
    End(Stop),
}
