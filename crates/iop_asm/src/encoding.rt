//! The words of instructions with their operands.

ghost use Rattle.std.specs.Prelude.{◌≡◌, ◌<◌, IsTrue, option_map};
ghost use Rattle.std.specs.List.{list_all};
ghost use Rattle.iop_isa.specs.Instructions.{number_limit};
ghost use Rattle.iop_asm.specs.Operands.{operand_fits, value_fits, field_of, fields_with, reference_by, reference_in, instruction_cell};
ghost use Rattle.iop_asm.specs.Values.{view, arguments};
ghost use Rattle.iop_asm.specs.CellFields.{cell, reference};

use crate::argument::Argument;
use crate::cell::Cell;
use crate::reference::{Reference, ReferenceKind};
use crate::value::Value;
use iop_isa::{Fields, Mnemonic, Operand};

/// Makes the word of an instruction on a line, of which all operands fit their fields.
pub(crate) fn instruction_cell<'a>(
    line: u32,
    mnemonic: Mnemonic,
    read: &[Argument<'a>],
) -> Cell<&'a [u8]>
    requires { IsTrue (list_all operand_fits (arguments read.now)) }
    ensures { cell result ≡ instruction_cell line mnemonic.opcode (arguments read.now) }
{
    Cell {
        word: mnemonic.word(fields_with(read)),
        reference: reference_in(line, read),
    }
}

/// Makes the fields of these operands, with 0 in all others.
fn fields_with(read: &[Argument<'_>]) -> Fields
    requires { IsTrue (list_all operand_fits (arguments read.now)) }
    ensures { result ≡ fields_with (arguments read.now) }
{
    let mut fields = Fields::zeros();
    for argument in read {
        fields = fields.with_number(argument.operand, field_of(argument));
    }
    fields
}

/// Gives what the field of an operand holds: 0 where a label decides it.
fn field_of(argument: &Argument<'_>) -> u32
    requires { IsTrue (value_fits argument.now.operand (view argument.now.value)) }
    ensures value { result ≡ field_of (view argument.now.value) }
    ensures below { result < number_limit argument.now.operand }
{
    match argument.value {
        Value::Numeric(number) => number.complement(16) as u32,
        Value::Register(register) => u32::from(register.number),
        Value::Symbol(_) | Value::High(_) | Value::Low(_) => 0,
    }
}

/// Finds the label that the operands of a line name: that of the first that names one.
fn reference_in<'a>(line: u32, read: &[Argument<'a>]) -> Option<Reference<&'a [u8]>>
    ensures { option_map reference result ≡ reference_in line (arguments read.now) }
{
    let mut found = None;
    for argument in read {
        found = found.or(reference_by(line, argument));
    }
    found
}

/// Gives the label that an operand of a line names.
fn reference_by<'a>(line: u32, argument: &Argument<'a>) -> Option<Reference<&'a [u8]>>
    ensures { option_map reference result
        ≡ reference_by line argument.now.operand (view argument.now.value) }
{
    let (kind, label) = match argument.value {
        Value::Symbol(label) if argument.operand == Operand::Target => (ReferenceKind::Jump, label),
        Value::Symbol(label) => (ReferenceKind::Branch, label),
        Value::High(label) => (ReferenceKind::High, label),
        Value::Low(label) => (ReferenceKind::Low, label),
        Value::Numeric(_) | Value::Register(_) => return None,
    };
    Some(Reference { kind, label, line })
}
