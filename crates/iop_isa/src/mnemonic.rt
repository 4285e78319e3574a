//! What an assembler needs to know of an instruction.

ghost use Rattle.std.specs.Prelude.{◌<◌};
ghost use Rattle.iop_isa.specs.Table.{code_of};

use crate::fields::Fields;
use crate::opcode::Opcode;
use crate::table::Operand;

/// What tells an instruction from the others, and its operands.
#[derive(Clone, Copy)]
pub struct Mnemonic {
    /// What tells the instruction from the others.
    pub opcode: Opcode,
    /// The operands, of which there are 1 to 3, in the order of the assembler.
    pub operands: &'static [Operand],
    // Its word fits 32 bits, whatever the fields.
    ghost small: { code_of opcode < 63 },
}

impl Mnemonic {
    ghost use Rattle.std.specs.Prelude.{◌≡◌};
    ghost use Rattle.iop_isa.specs.Instructions.{word_with};

    /// Makes the word of the instruction with these fields. The fields of its format are added, so
    /// those of no operand have to be 0.
    pub fn word(&self, fields: Fields) -> u32
        ensures { result ≡ word_with self.now.opcode fields }
    {
        fields.word(self.opcode)
    }
}
