use crate::relocation::Relocation;
use std::marker::Model;

/// What a module consists of before it is written to a file. Places count in bytes from the first
/// of the text, and the data follows the text.
#[derive(Debug, Drop)]
pub struct AsmUnit {
    /// Its name.
    pub name: Vec<u8>,
    /// Its version: 256 times the major number, and the minor number.
    pub version: u16,
    /// Where it is entered.
    pub entry: u32,
    /// What `$gp` is, before the base is added.
    pub gp: u32,
    /// Its instructions and tables.
    pub text: Vec<u8>,
    /// The bytes that follow the text.
    pub data: Vec<u8>,
    /// How many zero bytes follow the data.
    pub bss: u32,
    /// Its relocation entries, in the order of their sites.
    pub relocations: Vec<Relocation>,
}

impl Model for AsmUnit {
    ghost use Rattle.iop_asm.specs.Units.{ModuleUnit};

    ghost Value = { ModuleUnit };

    ghost use Rattle.iop_asm.specs.UnitFields.{unit_of};

    ghost view = { unit_of };
}
