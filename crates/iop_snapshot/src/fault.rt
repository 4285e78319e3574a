ghost use Rattle.std.specs.Prelude.{◌≡◌};
ghost use Rattle.iop_snapshot.specs.declared.fault.SnapFault.TheVariants.{Memory};

use std::alloc::AllocError;

/// Why nothing was restored.
#[derive(Clone, Copy, Debug, PartialEq, Eq)]
pub enum SnapFault {
    /// The bytes are no snapshot.
    Bad,
    /// The host has too little memory.
    Memory,
}

impl From<AllocError> for SnapFault {
    ghost from_gives = { λ _ fault. fault ≡ Memory };

    fn from(_error: AllocError) -> SnapFault {
        SnapFault::Memory
    }
}
