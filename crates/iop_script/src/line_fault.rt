ghost use Rattle.std.specs.Prelude.{◌≡◌};

use crate::fault::ScriptFault;
use crate::rule::Rule;
use std::alloc::AllocError;

/// Why a line was not taken.
#[derive(Clone, Copy, Debug, PartialEq, Eq)]
pub(crate) enum LineFault {
    /// It breaks this rule, and none before it.
    Broken(Rule),
    /// Stands for want of host memory.
    Memory,
}

impl LineFault {
    ghost use Rattle.iop_script.specs.Answers.{fault_in};

    /// Tells it of the line of a number.
    pub(crate) fn in_line(self, number: u32) -> ScriptFault
        ensures { result ≡ fault_in number self }
    {
        match self {
            LineFault::Broken(rule) => ScriptFault::Line { number, rule },
            LineFault::Memory => ScriptFault::Memory,
        }
    }
}

impl From<Rule> for LineFault {
    ghost use Rattle.iop_script.specs.declared.line_fault.LineFault.TheVariants.{Broken};

    ghost from_gives = { λ rule fault. fault ≡ Broken rule };

    fn from(rule: Rule) -> Self {
        LineFault::Broken(rule)
    }
}

impl From<AllocError> for LineFault {
    ghost use Rattle.iop_script.specs.declared.line_fault.LineFault.TheVariants.{Memory};

    ghost from_gives = { λ _ fault. fault ≡ Memory };

    fn from(_: AllocError) -> Self {
        LineFault::Memory
    }
}
