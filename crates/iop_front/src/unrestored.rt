ghost use Rattle.std.specs.Prelude.{◌≡◌};

use iop_ports::Failed;
use iop_snapshot::SnapFault;
use std::alloc::AllocError;

/// Why no machine was put back from the file of a snapshot.
#[derive(Clone, Copy, Debug)]
pub(crate) enum Unrestored {
    /// The file cannot be read.
    Unreadable,
    /// The file is too long.
    TooLong,
    /// The file is no snapshot of a machine that can go on.
    Bad,
    /// Stands for want of memory.
    NoMemory,
}

impl From<Failed> for Unrestored {
    ghost use Rattle.iop_front.specs.declared.unrestored.Unrestored.TheVariants.{Unreadable};

    ghost from_gives = { λ _ fault. fault ≡ Unreadable };

    fn from(_: Failed) -> Self {
        Unrestored::Unreadable
    }
}

impl From<AllocError> for Unrestored {
    ghost use Rattle.iop_front.specs.declared.unrestored.Unrestored.TheVariants.{NoMemory};

    ghost from_gives = { λ _ fault. fault ≡ NoMemory };

    fn from(_: AllocError) -> Self {
        Unrestored::NoMemory
    }
}

impl From<SnapFault> for Unrestored {
    ghost use Rattle.iop_front.specs.Snapshots.{unrestored_of};

    ghost from_gives = { λ fault unrestored. unrestored ≡ unrestored_of fault };

    fn from(fault: SnapFault) -> Self {
        match fault {
            SnapFault::Bad => Unrestored::Bad,
            SnapFault::Memory => Unrestored::NoMemory,
        }
    }
}
