//! The instructions.

ghost use Rattle.std.specs.Prelude.{◌≡◌};
ghost use Rattle.iop_isa.specs.Instructions.{is_jump};

use crate::operands::{Code20, Reg, Shift5, Target26};

/// An instruction, by its mnemonic, with its operands in the order of the assembler.
///
/// `rs` and `rt` are mostly read and `rd` is written; `rt` is written where there is an immediate
/// and no branch. `imm` is the immediate's bits, and a branch counts it in instructions from its
/// delay slot on. A load or a store is at `rs` plus the signed immediate.
#[derive(Clone, Copy, Debug, PartialEq, Eq)]
pub enum Inst {
    /// Shifts left by a constant.
    Sll { rd: Reg, rt: Reg, sa: Shift5 },
    /// Shifts right by a constant; zeros come in.
    Srl { rd: Reg, rt: Reg, sa: Shift5 },
    /// Shifts right by a constant; copies of the sign come in.
    Sra { rd: Reg, rt: Reg, sa: Shift5 },
    /// Shifts left by a register.
    Sllv { rd: Reg, rt: Reg, rs: Reg },
    /// Shifts right by a register; zeros come in.
    Srlv { rd: Reg, rt: Reg, rs: Reg },
    /// Shifts right by a register; copies of the sign come in.
    Srav { rd: Reg, rt: Reg, rs: Reg },
    /// Jumps to the address in a register.
    Jr { rs: Reg },
    /// Jumps to the address in a register, and links.
    Jalr { rd: Reg, rs: Reg },
    /// Calls a service.
    Syscall { n: Code20 },
    /// Faults.
    Break { n: Code20 },
    /// Moves from HI.
    Mfhi { rd: Reg },
    /// Moves to HI.
    Mthi { rs: Reg },
    /// Moves from LO.
    Mflo { rd: Reg },
    /// Moves to LO.
    Mtlo { rs: Reg },
    /// Multiplies signed numbers into HI and LO.
    Mult { rs: Reg, rt: Reg },
    /// Multiplies unsigned numbers into HI and LO.
    Multu { rs: Reg, rt: Reg },
    /// Divides signed numbers: the quotient into LO, the remainder into HI.
    Div { rs: Reg, rt: Reg },
    /// Divides unsigned numbers: the quotient into LO, the remainder into HI.
    Divu { rs: Reg, rt: Reg },
    /// Adds; faults on signed overflow.
    Add { rd: Reg, rs: Reg, rt: Reg },
    /// Adds, modulo 2^32.
    Addu { rd: Reg, rs: Reg, rt: Reg },
    /// Subtracts; faults on signed overflow.
    Sub { rd: Reg, rs: Reg, rt: Reg },
    /// Subtracts, modulo 2^32.
    Subu { rd: Reg, rs: Reg, rt: Reg },
    /// Computes the bits that both registers have.
    And { rd: Reg, rs: Reg, rt: Reg },
    /// Computes the bits that one of the registers has.
    Or { rd: Reg, rs: Reg, rt: Reg },
    /// Computes the bits in which the registers differ.
    Xor { rd: Reg, rs: Reg, rt: Reg },
    /// Computes the bits that neither register has.
    Nor { rd: Reg, rs: Reg, rt: Reg },
    /// Sets to 1 where `rs` is less, as signed numbers, else to 0.
    Slt { rd: Reg, rs: Reg, rt: Reg },
    /// Sets to 1 where `rs` is less, as unsigned numbers, else to 0.
    Sltu { rd: Reg, rs: Reg, rt: Reg },
    /// Branches where a register is negative.
    Bltz { rs: Reg, imm: u16 },
    /// Branches where a register is not negative.
    Bgez { rs: Reg, imm: u16 },
    /// Branches where a register is negative, and links in any case.
    Bltzal { rs: Reg, imm: u16 },
    /// Branches where a register is not negative, and links in any case.
    Bgezal { rs: Reg, imm: u16 },
    /// Jumps to an address of the same 2^28 bytes.
    J { target: Target26 },
    /// Jumps to an address of the same 2^28 bytes, and links.
    Jal { target: Target26 },
    /// Branches where two registers are equal.
    Beq { rs: Reg, rt: Reg, imm: u16 },
    /// Branches where two registers differ.
    Bne { rs: Reg, rt: Reg, imm: u16 },
    /// Branches where a register is negative or 0.
    Blez { rs: Reg, imm: u16 },
    /// Branches where a register is neither negative nor 0.
    Bgtz { rs: Reg, imm: u16 },
    /// Adds a signed immediate; faults on signed overflow.
    Addi { rt: Reg, rs: Reg, imm: u16 },
    /// Adds a signed immediate, modulo 2^32.
    Addiu { rt: Reg, rs: Reg, imm: u16 },
    /// Sets to 1 where `rs` is less than a signed immediate, else to 0.
    Slti { rt: Reg, rs: Reg, imm: u16 },
    /// Sets to 1 where `rs` is less than a signed immediate modulo 2^32, else to 0.
    Sltiu { rt: Reg, rs: Reg, imm: u16 },
    /// Computes the bits that a register and an immediate both have.
    Andi { rt: Reg, rs: Reg, imm: u16 },
    /// Computes the bits that a register or an immediate has.
    Ori { rt: Reg, rs: Reg, imm: u16 },
    /// Computes the bits in which a register and an immediate differ.
    Xori { rt: Reg, rs: Reg, imm: u16 },
    /// Loads an immediate into the upper half.
    Lui { rt: Reg, imm: u16 },
    /// Loads a signed byte.
    Lb { rt: Reg, imm: u16, rs: Reg },
    /// Loads a signed half.
    Lh { rt: Reg, imm: u16, rs: Reg },
    /// Loads the upper bytes of a word that may lie anywhere.
    Lwl { rt: Reg, imm: u16, rs: Reg },
    /// Loads a word.
    Lw { rt: Reg, imm: u16, rs: Reg },
    /// Loads an unsigned byte.
    Lbu { rt: Reg, imm: u16, rs: Reg },
    /// Loads an unsigned half.
    Lhu { rt: Reg, imm: u16, rs: Reg },
    /// Loads the lower bytes of a word that may lie anywhere.
    Lwr { rt: Reg, imm: u16, rs: Reg },
    /// Stores a byte.
    Sb { rt: Reg, imm: u16, rs: Reg },
    /// Stores a half.
    Sh { rt: Reg, imm: u16, rs: Reg },
    /// Stores the upper bytes of a word that may lie anywhere.
    Swl { rt: Reg, imm: u16, rs: Reg },
    /// Stores a word.
    Sw { rt: Reg, imm: u16, rs: Reg },
    /// Stores the lower bytes of a word that may lie anywhere.
    Swr { rt: Reg, imm: u16, rs: Reg },
}

impl Inst {
    /// Tests whether it is a branch or a jump: one that has a delay slot.
    pub fn is_jump(&self) -> bool
        ensures { result ≡ is_jump self.now }
    {
        matches!(
            self,
            Inst::Jr { .. }
                | Inst::Jalr { .. }
                | Inst::Bltz { .. }
                | Inst::Bgez { .. }
                | Inst::Bltzal { .. }
                | Inst::Bgezal { .. }
                | Inst::J { .. }
                | Inst::Jal { .. }
                | Inst::Beq { .. }
                | Inst::Bne { .. }
                | Inst::Blez { .. }
                | Inst::Bgtz { .. }
        )
    }
}
