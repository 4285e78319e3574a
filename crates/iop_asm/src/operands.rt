//! The operands of an instruction.

ghost use Rattle.std.specs.List.{before_first, position_or_len};
ghost use Rattle.std.specs.Option.{option_copied};
ghost use Rattle.std.specs.Prelude.{◌≡◌, [], ◌∷◌, ◌++◌, IfOk, codes, drop, length, map, option_and_then, option_map};
ghost use Rattle.iop_asm.specs.Operands.{register_of, name_within, immediate_of, value_of, is_dollar, split_place, place_words, operand_of, place_operands, is_place, last_place, operands_of};
ghost use Rattle.iop_asm.specs.Values.{view, argument, arguments};

use crate::argument::Argument;
use crate::number::number_of;
use crate::register_number::RegisterNumber;
use crate::texts::{before, behind, symbol_of};
use crate::value::Value;
use iop_isa::{Operand, Reg};
use std::alloc::{AllocError, Global};

/// Reads a register: `$` and its number or its name.
fn register_of(word: &[u8]) -> Option<RegisterNumber>
    ensures { option_map (λ register. register.number) result ≡ register_of word.now }
{
    let register = Reg::named(behind(b"$", word)?)?;
    Some(RegisterNumber {
        number: register.number(),
    })
}

/// Reads the name between an opening text and the `)` at the end.
fn name_within<'a>(opening: &[u8], word: &'a [u8]) -> Option<&'a [u8]>
    ensures { option_copied result ≡ name_within opening.now word.now }
{
    symbol_of(before(b")", behind(opening, word)?)?)
}

/// Reads an immediate: `%hi` or `%lo` of a label, or a number.
#[tactic(auto, unfolding(crate::specs::Operands::immediate_of))]
fn immediate_of(word: &[u8]) -> Option<Value<'_>>
    ensures { option_map view result ≡ immediate_of word.now }
{
    if let Some(label) = name_within(b"%hi(", word) {
        return Some(Value::High(label));
    }
    if let Some(label) = name_within(b"%lo(", word) {
        return Some(Value::Low(label));
    }
    Some(Value::Numeric(number_of(word)?))
}

/// Reads the word of an operand.
pub(crate) fn value_of(operand: Operand, word: &[u8]) -> Option<Value<'_>>
    ensures { option_map view result ≡ value_of operand word.now }
{
    match operand {
        Operand::Rd | Operand::Rs | Operand::Rt | Operand::Base => {
            Some(Value::Register(register_of(word)?))
        }
        Operand::Sa | Operand::Code => Some(Value::Numeric(number_of(word)?)),
        Operand::Signed | Operand::Bits => immediate_of(word),
        Operand::Label | Operand::Target => Some(Value::Symbol(symbol_of(word)?)),
    }
}

/// Splits a text before its first `$`, or at its end where it has none.
fn split_before_dollar(text: &[u8]) -> (&[u8], &[u8])
    ensures front { result.0.now ≡ before_first is_dollar text.now }
    ensures back { result.1.now ≡ drop (position_or_len is_dollar text.now) text.now }
{
    text.split_at(before_dollar_len(text))
}

/// Counts the bytes before the first `$` of a text.
fn before_dollar_len(text: &[u8]) -> usize
    ensures { result ≡ length (before_first is_dollar text.now) }
{
    text.iter().take_while(|byte| **byte != b'$').count()
}

/// Splits a place without its `)` into its offset and its register.
fn split_place(place: &[u8]) -> Option<(&[u8], &[u8])>
    ensures { option_map (λ parts. (parts.0.now, parts.1.now)) result ≡ split_place place.now }
{
    let (offset, base) = split_before_dollar(place);
    Some((before(b"(", offset)?, base))
}

/// Reads an operand's word.
pub(crate) fn operand_of(operand: Operand, word: &[u8]) -> Option<Argument<'_>>
    ensures { option_map argument result ≡ operand_of operand word.now }
{
    let value = value_of(operand, word)?;
    Some(Argument { operand, value })
}

/// Reads a place: an offset, and a register in parentheses.
pub(crate) fn place_of(word: &[u8]) -> Option<(Argument<'_>, Argument<'_>)>
    ensures { option_map (λ place. argument place.0 ∷ argument place.1 ∷ []) result
        ≡ option_and_then place_operands (place_words word.now) }
{
    let (offset, base) = split_place(before(b")", word)?)?;
    Some((
        operand_of(Operand::Signed, offset)?,
        operand_of(Operand::Base, base)?,
    ))
}

/// Says whether an offset and a register are left, which one word gives.
fn is_place(operands: &[Operand]) -> bool
    ensures { result ≡ is_place operands.now }
{
    matches!(operands, [Operand::Signed, Operand::Base])
}

/// Reads the place that the last word is, behind the operands that were read before. None where the
/// word is no place, or others follow it.
fn with_place<'a>(
    mut read: Vec<Argument<'a>>,
    word: &'a [u8],
    rest: &[&'a [u8]],
) -> Result<Option<Vec<Argument<'a>>>, AllocError>
    ensures { IfOk result (λ found. option_map (λ list. arguments list.items) found
        ≡ option_map (λ last. arguments read.entry.items ++ last)
        (last_place word.now (map (λ word. word.now) rest.now))) }
{
    if !rest.is_empty() {
        return Ok(None);
    }
    let Some((offset, base)) = place_of(word) else {
        return Ok(None);
    };
    read.push(offset)?;
    read.push(base)?;
    Ok(Some(read))
}

/// Reads the words of operands: one for each, but for a place, which is two operands in one. None
/// where a word is not its operand, or where there are more or fewer words.
#[tactic(auto, using(crate::proofs::OperandLemmas::operands))]
pub(crate) fn operands_of<'a>(
    alloc: Global,
    operands: &[Operand],
    words: &[&'a [u8]],
) -> Result<Option<Vec<Argument<'a>>>, AllocError>
    ensures { IfOk result (λ read. option_map (λ list. arguments list.items) read
        ≡ operands_of operands.now (map (λ word. word.now) words.now)) }
{
    let mut read = Vec::new(alloc);
    let mut left = operands;
    for (index, word) in words.iter().enumerate() {
        if is_place(left) {
            return with_place(read, word, &words[index + 1..]);
        }
        let Some((operand, rest)) = left.split_first() else {
            return Ok(None);
        };
        let Some(argument) = operand_of(*operand, word) else {
            return Ok(None);
        };
        read.push(argument)?;
        left = rest;
    }
    Ok(left.is_empty().then_some(read))
}
