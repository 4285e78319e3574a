//! Facts about the definitions that no call computes. Each is the contract of a function that does
//! nothing.

ghost use Rattle.iop_modload.specs.Laws.{LoadingKeepsMemory, FinishingKeepsMemory};

/// A loading, successful or refused, leaves sound memory of the same size and its blocks, and the
/// bytes of the kernel's block as they were. Each stub that was live or was bound lives, or has its
/// line, and no other lives.
pub fn loading_keeps_memory()
    ensures { LoadingKeepsMemory }
{}

/// The same of a finishing, whether the module is removed or stays.
pub fn finishing_keeps_memory()
    ensures { FinishingKeepsMemory }
{}
