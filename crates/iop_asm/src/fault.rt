ghost use Rattle.std.specs.Prelude.{◌≡◌, fold, option_to_list};
ghost use Rattle.iop_asm.specs.Assembly.{rank, comes_before, first_of};

use std::alloc::AllocError;
use thiserror::Error;

/// What is wrong with a line of source, the kinds in the order in which they are looked for.
#[derive(Clone, Copy, Debug, PartialEq, Eq)]
pub enum AsmKind {
    /// It begins with no word of the language.
    Statement,
    /// Its statement is not allowed in this place: a table is open or is not, or the section is the
    /// other. On the last line also that a table is open behind it.
    Section,
    /// Its operands have another form or number.
    Operand,
    /// A number does not fit its field, or a branch goes too far.
    Range,
    /// A label or a field was given before.
    Twice,
    /// A label is not defined: no line names it as its own, not even a line that is bad.
    Label,
}

/// A line that is bad, and why.
#[derive(Clone, Copy, Debug, PartialEq, Eq)]
pub(crate) struct Fault {
    /// The number of the line, as in `AsmFault`.
    pub line: u32,
    /// What is wrong with it.
    pub kind: AsmKind,
}

/// Gives the place of a kind in the order in which they are looked for.
fn rank(kind: AsmKind) -> u8
    ensures { result ≡ rank kind }
{
    match kind {
        AsmKind::Statement => 0,
        AsmKind::Section => 1,
        AsmKind::Operand => 2,
        AsmKind::Range => 3,
        AsmKind::Twice => 4,
        AsmKind::Label => 5,
    }
}

/// Says whether a fault comes before another: by its line, and on one line by its kind.
fn comes_before(fault: Fault, other: Fault) -> bool
    ensures { result ≡ comes_before fault other }
{
    fault.line < other.line || (fault.line == other.line && rank(fault.kind) < rank(other.kind))
}

/// Gives the first of the fault that was found and of another: the one that was found where neither
/// comes before the other.
pub(crate) fn first_of(found: Option<Fault>, fault: Fault) -> Option<Fault>
    ensures { result ≡ first_of found fault }
{
    match found {
        Some(first) if !comes_before(fault, first) => Some(first),
        _ => Some(fault),
    }
}

/// Gives the first of the fault that was found and of another, if there is one.
pub(crate) fn first_of_both(found: Option<Fault>, other: Option<Fault>) -> Option<Fault>
    ensures { result ≡ fold first_of found (option_to_list other) }
{
    match other {
        None => found,
        Some(fault) => first_of(found, fault),
    }
}

/// Why source was not assembled.
#[derive(Clone, Copy, Debug, PartialEq, Eq, Error)]
pub enum AsmFault {
    /// A line is bad: the first such line, counted from 1, and the first kind that applies to it.
    #[error("line {line}: {kind:?}")]
    Line {
        /// The number of the line. The line 2^32 and those behind it count as 2^32 - 1.
        line: u32,
        /// What is wrong with it.
        kind: AsmKind,
    },
    /// Stands for want of host memory.
    #[error("out of memory")]
    Memory,
}

impl From<AllocError> for AsmFault {
    ghost use Rattle.iop_asm.specs.declared.fault.AsmFault.TheVariants.{Memory};

    ghost from_gives = { λ _ fault. fault ≡ Memory };

    fn from(_: AllocError) -> Self {
        AsmFault::Memory
    }
}
