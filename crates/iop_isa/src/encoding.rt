//! The word of an instruction.

ghost use Rattle.std.specs.Prelude.{◌≡◌, ◌<◌, Some};
ghost use Rattle.iop_isa.specs.Words.{fields_of, zeros};
ghost use Rattle.iop_isa.specs.Table.{code_of};
ghost use Rattle.iop_isa.specs.Instructions.{inst_of, plain_word, word_with, Holds};

use crate::fields::Fields;
use crate::instruction::Inst;
use crate::opcode::Opcode;
use crate::operands::{Code20, Target26};
use crate::table;

/// Encodes an instruction, by the format and the code of its row.
macro_rules! encode_rows {
    (
        ($given:ident, $zeros:ident)
        $($format:ident {
            $($code:literal ($name:literal $inst:ident { $($field:ident: $operand:ident),* }))*
        })*
    ) => {
        match $given {
            $($(Inst::$inst { $($field),* } => Fields { $($field,)* ..$zeros }.$format($code),)*)*
        }
    };
}

/// Encodes an instruction into the word that holds it, with 0 in the fields that it does not use.
pub fn encode(inst: Inst) -> u32
    ensures decoded { inst_of result ≡ Some inst }
    ensures plain { plain_word result ≡ Some result }
{
    let zeros = Fields::zeros();
    table!(encode_rows!(inst, zeros))
}

impl Fields {
    /// Makes the word of an opcode, to which it adds the fields of its format.
    pub(crate) fn word(self, opcode: Opcode) -> u32
        requires { code_of opcode < 63 }
        ensures { result ≡ word_with opcode self }
    {
        let rs = u32::from(self.rs.number()) << 21;
        let rt = u32::from(self.rt.number()) << 16;
        match opcode {
            Opcode::Special(function) => {
                rs + rt
                    + (u32::from(self.rd.number()) << 11)
                    + (u32::from(self.sa.number()) << 6)
                    + (self.n.number() << 6)
                    + function
            }
            Opcode::Regimm(rt) => (1 << 26) + rs + (rt << 16) + u32::from(self.imm),
            Opcode::Primary(opcode) => {
                (opcode << 26) + rs + rt + u32::from(self.imm) + self.target.number()
            }
        }
    }

    /// Makes the word of a function of opcode 0 with registers and an amount to shift by.
    fn registers(self, function: u32) -> u32
        requires { function < 63 }
        ensures word { result ≡ word_with (Opcode.Special function) (record self { n = 0 }) }
        ensures holds { Holds result (Opcode.Special function)
            (record (fields_of result) { rs = self.rs; rt = self.rt; rd = self.rd; sa = self.sa }) }
    {
        let fields = Fields {
            n: Code20::new(0),
            ..self
        };
        fields.word(Opcode::Special(function))
    }

    /// Makes the word of a function of opcode 0 with a code.
    fn code(self, function: u32) -> u32
        requires { function < 63 }
        ensures word { result ≡ word_with (Opcode.Special function) (record zeros { n = self.n }) }
        ensures holds { Holds result (Opcode.Special function)
            (record (fields_of result) { n = self.n }) }
    {
        let fields = Fields {
            n: self.n,
            ..Fields::zeros()
        };
        fields.word(Opcode::Special(function))
    }

    /// Makes the word of opcode 1 with `rt`, which tells its instructions apart, and an immediate.
    fn regimm(self, rt: u32) -> u32
        requires { rt < 32 }
        ensures word { result ≡ word_with (Opcode.Regimm rt) self }
        ensures holds { Holds result (Opcode.Regimm rt)
            (record (fields_of result) { rs = self.rs; imm = self.imm }) }
    {
        self.word(Opcode::Regimm(rt))
    }

    /// Makes the word of another opcode with a target.
    fn jump(self, opcode: u32) -> u32
        requires above { 1 < opcode }
        requires below { opcode < 63 }
        ensures word { result ≡ word_with (Opcode.Primary opcode)
            (record zeros { target = self.target }) }
        ensures holds { Holds result (Opcode.Primary opcode)
            (record (fields_of result) { target = self.target }) }
    {
        let fields = Fields {
            target: self.target,
            ..Fields::zeros()
        };
        fields.word(Opcode::Primary(opcode))
    }

    /// Makes the word of another opcode with registers and an immediate.
    fn immediate(self, opcode: u32) -> u32
        requires above { 1 < opcode }
        requires below { opcode < 63 }
        ensures word { result ≡ word_with (Opcode.Primary opcode) (record self { target = 0 }) }
        ensures holds { Holds result (Opcode.Primary opcode)
            (record (fields_of result) { rs = self.rs; rt = self.rt; imm = self.imm }) }
    {
        let fields = Fields {
            target: Target26::new(0),
            ..self
        };
        fields.word(Opcode::Primary(opcode))
    }
}
