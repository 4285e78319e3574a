//! The instruction of a word.

ghost use Rattle.std.specs.Prelude.{◌≡◌};
ghost use Rattle.iop_isa.specs.Instructions.{inst_of};

use crate::fields::Fields;
use crate::instruction::Inst;
use crate::{select_row, table};

/// Makes the instruction of a row, with the operands that fields hold.
macro_rules! decode_row {
    (($fields:ident) ($name:literal $inst:ident { $($field:ident: $operand:ident),* })) => {
        Some(Inst::$inst { $($field: $fields.$field),* })
    };
}

/// Decodes a word into the instruction that it holds: `None` where it holds none.
///
/// The bits of fields that the instruction does not use are ignored. `decode` is the table as a
/// call; the `step` of iop_exec expands the same table.
#[tactic(auto, unfolding(crate::specs::Instructions::inst_of, crate::specs::Table::row_of))]
pub fn decode(word: u32) -> Option<Inst>
    ensures { result ≡ inst_of word }
{
    let fields = Fields::of(word);
    table!(select_row!(word, decode_row!(fields), None))
}
