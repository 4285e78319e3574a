//! The way from source text to a unit.

ghost use Rattle.iop_asm.specs.Assembly.{assembled};
ghost use Rattle.iop_asm.specs.Answers.{Gives};

use crate::fault::AsmFault;
use crate::reading::read_source;
use crate::resolving::{first_fault, unit_of};
use crate::unit::AsmUnit;
use std::alloc::Global;

/// Assembles source text: statements, one a line, to the unit that a module is built from. The
/// language is this project's own; docs/FORMATS.md describes it. Instructions are those of MIPS I.
///
/// Answers `Line` exactly where a line is bad, with the number of the first such line and the first
/// kind that applies to it. Or it answers `Memory`, which stands for want of host memory.
#[tactic(auto, unfolding(crate::specs::Assembly::assembled))]
pub fn assemble(alloc: Global, source: &str) -> Result<AsmUnit, AsmFault>
    ensures { Gives result (assembled source.now) }
{
    let draft = read_source(alloc, source)?;
    if let Some(fault) = first_fault(&draft) {
        return Err(AsmFault::Line {
            line: fault.line,
            kind: fault.kind,
        });
    }
    Ok(unit_of(alloc, &draft)?)
}
