//! The statements that fill a section with words.

ghost use Rattle.std.specs.List.{list_all};
ghost use Rattle.std.specs.Prelude.{◌≡◌, ◌-◌, ◌^◌, [], ◌∷◌, IfOk, None, OnOk, Some, if◌then◌else◌, map, option_and_then, option_map};
ghost use Rattle.iop_isa.specs.Writing.{opcode_and_operands};
ghost use Rattle.iop_asm.specs.CellFields.{cell, cells};
ghost use Rattle.iop_asm.specs.LineFaults.{Reads};
ghost use Rattle.iop_asm.specs.Operands.{complement, lies_within};
ghost use Rattle.iop_asm.specs.StatementFields.{statement};
ghost use Rattle.iop_asm.specs.Statements.{byte_cells, formed, instruction_statement, is_word, padded_string, string_statement, word_cell, word_value, words_statement};
ghost use Rattle.iop_asm.specs.Texts.{all_of, comma_words, string_of};
ghost use Rattle.iop_asm.specs.Values.{view};

use crate::cell::Cell;
use crate::encoding::instruction_cell;
use crate::fault::AsmKind;
use crate::fitting::all_fit;
use crate::line_fault::LineFault;
use crate::number::{Number, number_of};
use crate::operands::operands_of;
use crate::reference::{Reference, ReferenceKind};
use crate::statement::Statement;
use crate::strings::string_of;
use crate::texts::{comma_words, symbol_of};
use crate::value::Value;
use iop_base::word_at;
use iop_isa::Mnemonic;
use std::alloc::{AllocError, Global};

/// Lists one word.
pub(crate) fn one_cell(alloc: Global, cell: Cell<&[u8]>) -> Result<Vec<Cell<&[u8]>>, AllocError>
    ensures { IfOk result (λ list. list.items ≡ cell.entry ∷ []) }
{
    Ok(vec![in alloc; cell]?)
}

/// Makes the words of bytes, each of four bytes, the lowest first.
#[tactic(auto, using(crate::proofs::FillLemmas::words_of_bytes))]
pub(crate) fn byte_cells<'a>(alloc: Global, bytes: &[u8]) -> Result<Vec<Cell<&'a [u8]>>, AllocError>
    ensures { IfOk result (λ list. cells list.items ≡ byte_cells bytes.now) }
{
    let mut cells = Vec::new(alloc);
    for index in 0..bytes.len() / 4 {
        cells.push(Cell::plain(word_at(bytes, 4 * index)))?;
    }
    Ok(cells)
}

/// Ends a string: a zero byte, and zeros to a multiple of 4.
fn end_string(string: &mut Vec<u8>) -> Result<(), AllocError>
    ensures { OnOk result (string.new.items ≡ padded_string string.old.items) }
{
    string.extend_from_slice(&[0; 4][string.len() % 4..])
}

/// Reads the words of a string.
pub(crate) fn string_statement(alloc: Global, text: &[u8]) -> Result<Statement<'_>, LineFault>
    ensures { Reads statement result (formed (string_statement (string_of text.now))) }
{
    let mut string = string_of(alloc, text)?.ok_or(AsmKind::Operand)?;
    end_string(&mut string)?;
    Ok(Statement::Fills(byte_cells(alloc, &string)?))
}

/// Reads a word's value: a number or a label.
fn word_value(word: &[u8]) -> Option<Value<'_>>
    ensures { option_map view result ≡ word_value word.now }
{
    if let Some(number) = number_of(word) {
        return Some(Value::Numeric(number));
    }
    Some(Value::Symbol(symbol_of(word)?))
}

/// Reads the values of words. None where one has no value.
#[tactic(auto, using(crate::proofs::AllLemmas::all))]
fn word_values<'a>(alloc: Global, words: &[&'a [u8]]) -> Result<Option<Vec<Value<'a>>>, AllocError>
    ensures { IfOk result (λ values. option_map (λ list. map view list.items) values
        ≡ all_of (map word_value (map (λ word. word.now) words.now))) }
{
    let mut values = Vec::new(alloc);
    for word in words {
        let Some(value) = word_value(word) else {
            return Ok(None);
        };
        values.push(value)?;
    }
    Ok(Some(values))
}

/// Gives the word of a number. None where the number does not fit.
fn number_word(number: Number) -> Option<u32>
    ensures { result ≡ if lies_within (2 ^ 31) (2 ^ 32 - 1) number
        then Some (complement 32 number) else None }
{
    number
        .lies_within(1 << 31, u64::from(u32::MAX))
        .then(|| number.complement(32) as u32)
}

/// Makes the word of a value on a line. None where a number does not fit.
fn word_cell(line: u32, value: Value<'_>) -> Option<Cell<&[u8]>>
    ensures { option_map cell result
        ≡ if is_word (view value.entry) then Some (word_cell line (view value.entry)) else None }
{
    match value {
        Value::Numeric(number) => Some(Cell::plain(number_word(number)?)),
        Value::Symbol(label) => Some(Cell {
            word: 0,
            reference: Some(Reference {
                kind: ReferenceKind::Address,
                label,
                line,
            }),
        }),
        _ => Some(Cell::plain(0)),
    }
}

/// Makes the words of values on a line. None where a number does not fit.
#[tactic(auto, using(crate::proofs::AllLemmas::all))]
fn word_cells<'a>(
    alloc: Global,
    line: u32,
    values: &[Value<'a>],
) -> Result<Option<Vec<Cell<&'a [u8]>>>, AllocError>
    ensures { IfOk result (λ made. option_map (λ list. cells list.items) made
        ≡ if list_all is_word (map view values.now)
        then Some (map (word_cell line) (map view values.now)) else None) }
{
    let mut cells = Vec::new(alloc);
    for value in values {
        let Some(cell) = word_cell(line, *value) else {
            return Ok(None);
        };
        cells.push(cell)?;
    }
    Ok(Some(cells))
}

/// Reads words, each a number or a label's address.
pub(crate) fn words_statement(
    alloc: Global,
    line: u32,
    text: &[u8],
) -> Result<Statement<'_>, LineFault>
    ensures { Reads statement result
        (formed (option_and_then (words_statement line) (comma_words text.now))) }
{
    let words = comma_words(alloc, text)?.ok_or(AsmKind::Operand)?;
    if words.is_empty() {
        return Err(LineFault::Bad(AsmKind::Operand));
    }
    let values = word_values(alloc, &words)?.ok_or(AsmKind::Operand)?;
    let cells = word_cells(alloc, line, &values)?.ok_or(AsmKind::Range)?;
    Ok(Statement::Fills(cells))
}

/// Reads an instruction.
pub(crate) fn instruction_statement(
    alloc: Global,
    line: u32,
    mnemonic: Mnemonic,
    text: &[u8],
) -> Result<Statement<'_>, LineFault>
    ensures { Reads statement result (formed (option_and_then
        (instruction_statement line (opcode_and_operands mnemonic)) (comma_words text.now))) }
{
    let words = comma_words(alloc, text)?.ok_or(AsmKind::Operand)?;
    let read = operands_of(alloc, mnemonic.operands, &words)?.ok_or(AsmKind::Operand)?;
    if !all_fit(&read) {
        return Err(LineFault::Bad(AsmKind::Range));
    }
    let cell = instruction_cell(line, mnemonic, &read);
    Ok(Statement::Fills(one_cell(alloc, cell)?))
}
