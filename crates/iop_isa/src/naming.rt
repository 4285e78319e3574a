//! The instruction of a name.

ghost use Rattle.std.specs.Option.{option_copied};
ghost use Rattle.std.specs.Prelude.{◌≡◌, option_map};
ghost use Rattle.iop_isa.specs.Writing.{first_named, named, opcode_and_operands};

use crate::mnemonic::Mnemonic;
use crate::opcode::Opcode;
use crate::table;
use crate::table::Operand;

/// A row of the table as an assembler looks for it.
struct NamedRow {
    name: &'static [u8],
    opcode: Opcode,
    operands: &'static [Operand],
}

/// Makes the opcode of a row, by its format and its code.
macro_rules! opcode {
    (registers $function:literal) => { Opcode::Special($function) };
    (code $function:literal) => { Opcode::Special($function) };
    (regimm $rt:literal) => { Opcode::Regimm($rt) };
    (jump $opcode:literal) => { Opcode::Primary($opcode) };
    (immediate $opcode:literal) => { Opcode::Primary($opcode) };
}

/// Lists the rows.
macro_rules! list_rows {
    (
        ()
        $($format:ident {
            $($code:literal ($name:literal $inst:ident { $($field:ident: $operand:ident),* }))*
        })*
    ) => {
        [$($(NamedRow {
            name: $name,
            opcode: opcode!($format $code),
            operands: &[$(Operand::$operand),*],
        },)*)*]
    };
}

/// The rows of the table.
const ROWS: [NamedRow; 58] = table!(list_rows!());

/// Finds the instruction of a name: `None` exactly where no instruction has it.
pub fn mnemonic_of(name: &[u8]) -> Option<Mnemonic>
    ensures { option_map opcode_and_operands result ≡ named name.now }
{
    let row = find_row(&ROWS, name)?;
    Some(Mnemonic {
        opcode: row.opcode,
        operands: row.operands,
    })
}

/// Finds the first row of a name.
#[tactic(auto, unfolding(crate::specs::Writing::first_named))]
fn find_row<'a>(rows: &'a [NamedRow], name: &[u8]) -> Option<&'a NamedRow>
    ensures { option_copied result ≡ first_named name.now rows.now }
{
    rows.iter().find(|row| row.name == name)
}
