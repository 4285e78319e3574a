//! The types of relocation entries.

ghost use Rattle.std.specs.Prelude.{◌≡◌, IfSome, is_some};
ghost use Rattle.irx_reloc.specs.Fitting.{is_type};
ghost use Rattle.irx_view.specs.Types.{number_of, name_of};

use iop_base::{R_MIPS_26, R_MIPS_32, R_MIPS_HI16, R_MIPS_LO16, R_MIPS_NONE};

/// The type of a relocation entry of a module (System V ABI, MIPS supplement).
#[derive(Clone, Copy, Debug, PartialEq, Eq)]
pub(crate) enum RelocationType {
    /// R_MIPS_NONE: it changes nothing.
    Nothing,
    /// R_MIPS_32: the word becomes an address.
    Word,
    /// R_MIPS_26: the low 26 bits become the target of a jump.
    Jump,
    /// R_MIPS_HI16: the low 16 bits become the high half of an address.
    High,
    /// R_MIPS_LO16: the low 16 bits become the low half of an address.
    Low,
}

impl RelocationType {
    /// All types, in the order of their numbers.
    pub const ALL: [RelocationType; 5] = [
        RelocationType::Nothing,
        RelocationType::Word,
        RelocationType::Jump,
        RelocationType::High,
        RelocationType::Low,
    ];

    /// Tells the type of a number, where it is one of a module.
    pub fn of_number(number: u8) -> Option<Self>
        ensures known { is_some result ≡ is_type number }
        ensures number { IfSome result (λ kind. number_of kind ≡ number) }
    {
        match number {
            R_MIPS_NONE => Some(RelocationType::Nothing),
            R_MIPS_32 => Some(RelocationType::Word),
            R_MIPS_26 => Some(RelocationType::Jump),
            R_MIPS_HI16 => Some(RelocationType::High),
            R_MIPS_LO16 => Some(RelocationType::Low),
            _ => None,
        }
    }

    /// Tells the number of the type.
    pub fn number(self) -> u8
        ensures { result ≡ number_of self }
    {
        match self {
            RelocationType::Nothing => R_MIPS_NONE,
            RelocationType::Word => R_MIPS_32,
            RelocationType::Jump => R_MIPS_26,
            RelocationType::High => R_MIPS_HI16,
            RelocationType::Low => R_MIPS_LO16,
        }
    }

    /// Tells the name of the type.
    pub fn name(self) -> &'static str
        ensures { result.now ≡ name_of (number_of self) }
    {
        match self {
            RelocationType::Nothing => "R_MIPS_NONE",
            RelocationType::Word => "R_MIPS_32",
            RelocationType::Jump => "R_MIPS_26",
            RelocationType::High => "R_MIPS_HI16",
            RelocationType::Low => "R_MIPS_LO16",
        }
    }
}
