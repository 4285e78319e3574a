ghost use Rattle.std.specs.Prelude.{◌≡◌};

use crate::fault::AsmKind;
use std::alloc::AllocError;

/// Why a line was not read.
#[derive(Clone, Copy, Debug, PartialEq, Eq)]
pub(crate) enum LineFault {
    /// It is bad.
    Bad(AsmKind),
    /// Stands for want of host memory.
    Memory,
}

impl From<AsmKind> for LineFault {
    ghost use Rattle.iop_asm.specs.declared.line_fault.LineFault.TheVariants.{Bad};

    ghost from_gives = { λ kind fault. fault ≡ Bad kind };

    fn from(kind: AsmKind) -> Self {
        LineFault::Bad(kind)
    }
}

impl From<AllocError> for LineFault {
    ghost use Rattle.iop_asm.specs.declared.line_fault.LineFault.TheVariants.{Memory};

    ghost from_gives = { λ _ fault. fault ≡ Memory };

    fn from(_: AllocError) -> Self {
        LineFault::Memory
    }
}
