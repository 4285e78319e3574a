ghost use Rattle.std.specs.Prelude.{◌≡◌};

use iop_script::ScriptFault;
use std::alloc::AllocError;

/// Why the files of a command were not all read: the first that decides.
#[derive(Clone, Copy, Debug)]
pub(crate) enum Unread<'a> {
    /// The file of this name cannot be read.
    Unreadable(&'a str),
    /// The file of this name is too long.
    TooLong(&'a str),
    /// The script has a bad line, the first of which has this number.
    BadScript(u32),
    /// Stands for want of memory.
    NoMemory,
}

impl<'a> From<AllocError> for Unread<'a> {
    ghost use Rattle.iop_front.specs.declared.unread.Unread.TheVariants.{NoMemory};

    ghost from_gives = { λ _ unread. unread ≡ NoMemory };

    fn from(_: AllocError) -> Self {
        Unread::NoMemory
    }
}

impl<'a> From<ScriptFault> for Unread<'a> {
    ghost use Rattle.iop_front.specs.Inputs.{unread_of};

    ghost from_gives = { λ fault unread. unread ≡ unread_of fault };

    fn from(fault: ScriptFault) -> Self {
        match fault {
            ScriptFault::Line { number, .. } => Unread::BadScript(number),
            ScriptFault::Memory => Unread::NoMemory,
        }
    }
}
