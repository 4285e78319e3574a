ghost use Rattle.std.specs.Prelude.{◌≡◌};

use std::alloc::AllocError;
use thiserror::Error;

/// Why no file is built.
#[derive(Clone, Copy, Debug, PartialEq, Eq, Error)]
pub enum BuildFault {
    /// The text has no instruction.
    #[error("the text has no instruction")]
    Empty,
    /// The name holds a zero byte, or is too long.
    #[error("the name holds a zero byte or is too long")]
    Name,
    /// The image in memory or the relocation entries are too long: how many bytes the longer has.
    #[error("{0} bytes are too many")]
    TooLong(u64),
    /// Stands for want of host memory.
    #[error("out of memory")]
    Memory,
}

impl From<AllocError> for BuildFault {
    ghost use Rattle.irx_build.specs.declared.build_fault.BuildFault.TheVariants.{Memory};

    ghost from_gives = { λ _ fault. fault ≡ Memory };

    fn from(_: AllocError) -> Self {
        BuildFault::Memory
    }
}
