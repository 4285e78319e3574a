//! How instructions are written.

ghost use Rattle.std.specs.Prelude.{◌≡◌, ◌≤◌, length, option_map, Option, Some};
ghost use Rattle.iop_isa.specs.Writing.{name_and_operands, written, IsShort};

use crate::table::Operand;
use crate::{select_row, table};

/// How an instruction is written: its name, and its operands in their order.
#[derive(Clone, Copy)]
pub struct Spelling {
    /// The name, of 1 to 7 lower-case letters.
    pub name: &'static [u8],
    /// The operands, of which there are 1 to 3.
    pub operands: &'static [Operand],
}

/// Spells the instruction of a row.
macro_rules! spell_row {
    (() ($name:literal $inst:ident { $($field:ident: $operand:ident),* })) => {
        Some(Spelling { name: $name, operands: &[$(Operand::$operand),*] })
    };
}

/// Spells the instruction that a word holds: `None` where it holds none.
#[tactic(auto, unfolding(crate::specs::Writing::written, crate::specs::Table::row_of))]
pub fn spelling_of(word: u32) -> Option<Spelling>
    ensures written { option_map name_and_operands result ≡ written word }
    ensures short { IsShort result }
{
    table!(select_row!(word, spell_row!(), None))
}
