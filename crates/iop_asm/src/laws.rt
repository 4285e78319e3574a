//! Facts about the definitions that no call computes. Each is the contract of a function that does
//! nothing.

ghost use Rattle.iop_asm.specs.Laws.{BranchesArrive, BranchesReachTheNear, JumpsArrive, HalvesMakeAddresses, InstructionsAreMade};

/// A branch to a near label goes there.
pub fn branches_arrive()
    ensures { BranchesArrive }
{}

/// An address to which some branch goes is near.
pub fn branches_reach_the_near()
    ensures { BranchesReachTheNear }
{}

/// A jump to a label of the same 2^28 bytes goes there.
pub fn jumps_arrive()
    ensures { JumpsArrive }
{}

/// The halves of an address make it, the low one as a signed number.
pub fn halves_make_addresses()
    ensures { HalvesMakeAddresses }
{}

/// The word that an instruction's line makes is that instruction: the row of the name that the line
/// begins with, with the operands of the line in their order, and what its label's address comes
/// to, at every site. The name of every row of the table is known as that of its instruction. `nop`
/// makes the word 0.
pub fn instructions_are_made()
    ensures { InstructionsAreMade }
{}
