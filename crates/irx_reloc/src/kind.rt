ghost use Rattle.std.specs.Prelude.{◌≡◌};
ghost use Rattle.irx_reloc.specs.Fitting.{is_type};
ghost use Rattle.irx_reloc.specs.Kinds.{type_of, is_named};

use iop_base::{R_MIPS_26, R_MIPS_32, R_MIPS_HI16, R_MIPS_LO16, R_MIPS_NONE};

/// What a relocation entry changes, by its type (System V ABI, MIPS supplement).
#[derive(Clone, Copy)]
pub(crate) enum Kind {
    /// R_MIPS_NONE: nothing.
    Nothing,
    /// R_MIPS_32: the word.
    Word,
    /// R_MIPS_26: the target of a jump, the low 26 bits.
    Jump,
    /// R_MIPS_HI16: the high half of an address, in the low 16 bits.
    High,
    /// R_MIPS_LO16: the low half of an address, in the low 16 bits.
    Low,
    /// Another type, which no image takes.
    Other(u8),
}

impl Kind {
    /// Tells the kind of a type.
    pub fn of_type(number: u8) -> Self
        ensures number { type_of result ≡ number }
        ensures named { is_named result ≡ is_type number }
    {
        match number {
            R_MIPS_NONE => Kind::Nothing,
            R_MIPS_32 => Kind::Word,
            R_MIPS_26 => Kind::Jump,
            R_MIPS_HI16 => Kind::High,
            R_MIPS_LO16 => Kind::Low,
            _ => Kind::Other(number),
        }
    }
}
