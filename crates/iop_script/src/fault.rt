ghost use Rattle.std.specs.Prelude.{◌≡◌};

use crate::rule::Rule;
use std::alloc::AllocError;
use thiserror::Error;

/// Why a script was not read.
#[derive(Clone, Copy, Debug, PartialEq, Eq, Error)]
pub enum ScriptFault {
    /// A line is bad: the first such line, and the first rule that it breaks.
    #[error("line {number}: {rule:?}")]
    Line {
        /// The line's number, from 1 on. The line 2^32 and those behind it count as 2^32 - 1.
        number: u32,
        /// The rule.
        rule: Rule,
    },
    /// Stands for want of host memory.
    #[error("out of memory")]
    Memory,
}

impl From<AllocError> for ScriptFault {
    ghost use Rattle.iop_script.specs.declared.fault.ScriptFault.TheVariants.{Memory};

    ghost from_gives = { λ _ fault. fault ≡ Memory };

    fn from(_: AllocError) -> Self {
        ScriptFault::Memory
    }
}
