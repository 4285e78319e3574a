//! The fields of a word.

ghost use Rattle.std.specs.Prelude.{◌≡◌, ◌<◌};
ghost use Rattle.iop_isa.specs.Words.{field, fields_of, zeros};
ghost use Rattle.iop_isa.specs.Instructions.{number_limit, with_number};

use crate::operands::{Code20, Reg, Shift5, Target26};
use crate::table::Operand;

/// The fields of a word that hold operands. They overlap, and no instruction has them all.
#[derive(Clone, Copy)]
pub struct Fields {
    /// Bits 21 to 25: mostly the first source register.
    pub rs: Reg,
    /// Bits 16 to 20: the second source register, or the target of an instruction with an
    /// immediate.
    pub rt: Reg,
    /// Bits 11 to 15: the target register.
    pub rd: Reg,
    /// Bits 6 to 10: the amount to shift by.
    pub sa: Shift5,
    /// Bits 6 to 25: the code of a `syscall` or a `break`.
    pub n: Code20,
    /// Bits 0 to 15: the immediate.
    pub imm: u16,
    /// Bits 0 to 25: the target of a jump, counted in instructions.
    pub target: Target26,
}

impl Fields {
    /// Reads all fields of a word.
    pub fn of(word: u32) -> Self
        ensures { result ≡ fields_of word }
    {
        Fields {
            rs: register(word, 21),
            rt: register(word, 16),
            rd: register(word, 11),
            sa: Shift5::new(field(word, 6, 5) as u8),
            n: Code20::new(field(word, 6, 20)),
            imm: field(word, 0, 16) as u16,
            target: Target26::new(field(word, 0, 26)),
        }
    }

    /// Makes fields in which all operands are 0.
    pub fn zeros() -> Self
        ensures { result ≡ zeros }
    {
        Fields {
            rs: Reg::new(0),
            rt: Reg::new(0),
            rd: Reg::new(0),
            sa: Shift5::new(0),
            n: Code20::new(0),
            imm: 0,
            target: Target26::new(0),
        }
    }

    /// Changes the number of an operand to one that its field can hold.
    pub fn with_number(self, operand: Operand, number: u32) -> Self
        requires { number < number_limit operand }
        ensures { result ≡ with_number operand number self }
    {
        match operand {
            Operand::Rd => Fields {
                rd: Reg::new(number as u8),
                ..self
            },
            Operand::Rs | Operand::Base => Fields {
                rs: Reg::new(number as u8),
                ..self
            },
            Operand::Rt => Fields {
                rt: Reg::new(number as u8),
                ..self
            },
            Operand::Sa => Fields {
                sa: Shift5::new(number as u8),
                ..self
            },
            Operand::Code => Fields {
                n: Code20::new(number),
                ..self
            },
            Operand::Signed | Operand::Bits | Operand::Label => Fields {
                imm: number as u16,
                ..self
            },
            Operand::Target => Fields {
                target: Target26::new(number),
                ..self
            },
        }
    }
}

/// Reads the register whose number stands in the five bits from the bit `from` on.
fn register(word: u32, from: u32) -> Reg
    requires { from < 32 }
    ensures { result ≡ field word from 5 }
{
    Reg::new(field(word, from, 5) as u8)
}

/// Reads so many bits of a word, from the bit `from` on: `from` and `bits` are below 32.
///
/// It is public because `select_row!` calls it where another crate expands the table.
pub fn field(word: u32, from: u32, bits: u32) -> u32
    requires from { from < 32 }
    requires bits { bits < 32 }
    ensures { result ≡ field word from bits }
{
    (word >> from) & ((1 << bits) - 1)
}
