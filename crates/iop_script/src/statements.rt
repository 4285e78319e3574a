//! What a line of a script says by itself.

ghost use Rattle.std.specs.Prelude.{◌≡◌, ◌<◌, ◌==◌, ◌&&◌, nat_le, length, Ok, IfOk};
ghost use Rattle.std.specs.List.{list_all};
ghost use Rattle.std.specs.Option.{option_copied};
ghost use Rattle.iop_script.specs.Answers.{Reads};
ghost use Rattle.iop_script.specs.Reading.{is_short};
ghost use Rattle.iop_script.specs.Rules.{demand};
ghost use Rattle.iop_script.specs.declared.rule.Rule.TheVariants.{LineLength};
ghost use Rattle.iop_script.specs.Statements.{is_remark, raises, event_of, is_word, words_of, args_of, named_of};
ghost use Rattle.iop_script.specs.Texts.{space, parts_behind};

use crate::args::Args;
use crate::line_fault::LineFault;
use crate::named::Named;
use crate::raise::Raise;
use crate::rule::Rule;
use crate::texts::{count_separators, number_of, split_first};
use crate::version::Version;
use crate::word::Word;
use std::alloc::{AllocError, Global};

/// The last tick at which a script can raise or lower a line.
pub(crate) const LAST_TICK: u64 = 0x7FFF_FFFF_FFFF_FFFF;

/// The last interrupt line.
pub(crate) const LAST_LINE: u64 = 63;

/// How many modules a machine may have. They are numbered from 1 on.
pub const MOST_MODULES: u64 = 64;

/// The most words that a script can have for a module, or for a name.
pub(crate) const MOST_WORDS: usize = 15;

/// The most bytes of a line that has words.
pub(crate) const LONGEST_ARGS: usize = 2_048;

/// Tells whether a line says nothing: it is empty, or begins with `#`.
pub(crate) fn is_remark(line: &[u8]) -> bool
    ensures { result ≡ is_remark line.now }
{
    match line.first() {
        None => true,
        Some(first) => *first == b'#',
    }
}

/// Tells whether a field raises a line: `line` does, and in version 2 `release` lowers it. None for
/// any other field.
fn raises(version: Version, field: &[u8]) -> Option<bool>
    ensures { result ≡ raises version field.now }
{
    if field == b"line".as_slice() {
        Some(true)
    } else if field == b"release".as_slice() && version.allows_more() {
        Some(false)
    } else {
        None
    }
}

/// Reads the fields behind `at`: a tick, `line` or in version 2 `release`, and an interrupt line.
#[tactic(auto, using(crate::proofs::Fields::event), unfolding(crate::specs::Statements::event_of))]
pub(crate) fn event_of(version: Version, fields: Option<&[u8]>) -> Result<Raise, Rule>
    ensures { result ≡ event_of version (parts_behind space (option_copied fields.entry)) }
{
    let (tick, rest) = split_first(fields.ok_or(Rule::FieldCount)?, b' ');
    let (change, rest) = split_first(rest.ok_or(Rule::FieldCount)?, b' ');
    let (number, rest) = split_first(rest.ok_or(Rule::FieldCount)?, b' ');
    if rest.is_some() {
        return Err(Rule::FieldCount);
    }
    let at = number_of(tick, 0, LAST_TICK).ok_or(Rule::Tick)?;
    let up = raises(version, change).ok_or(Rule::Change)?;
    let line = number_of(number, 0, LAST_LINE).ok_or(Rule::InterruptLine)?;
    Ok(Raise {
        at,
        line: line as u8,
        up,
    })
}

/// Tells whether a field has no byte but those from 0x21 to 0x7E.
fn has_word_bytes(field: &[u8]) -> bool
    ensures { result ≡ list_all (λ b. nat_le 0x21 b && nat_le b 0x7E) field.now }
{
    field.iter().all(|byte| matches!(*byte, 0x21..=0x7E))
}

/// Tells whether a field is a word: bytes from 0x21 to 0x7E, one at least.
fn is_word(field: &[u8]) -> bool
    ensures { result ≡ is_word field.now }
{
    !field.is_empty() && has_word_bytes(field)
}

/// Tells whether there are at most `MOST_WORDS` fields.
#[tactic(auto, using(crate::proofs::PartLemmas::counted))]
fn are_few(fields: Option<&[u8]>) -> bool
    ensures { result
        ≡ nat_le (length (parts_behind space (option_copied fields.entry))) MOST_WORDS }
{
    match fields {
        None => true,
        Some(fields) => count_separators(fields, b' ') < MOST_WORDS,
    }
}

/// Tells whether all fields are words.
fn are_words(fields: Option<&[u8]>) -> bool
    ensures { result ≡ list_all is_word (parts_behind space (option_copied fields.entry)) }
{
    let mut left = fields;
    while let Some(text) = left {
        let (field, rest) = split_first(text, b' ');
        if !is_word(field) {
            return false;
        }
        left = rest;
    }
    true
}

/// Makes a word of each field.
fn collect_words(alloc: Global, fields: Option<&[u8]>) -> Result<Vec<Word>, AllocError>
    ensures { IfOk result (λ words.
        words.items ≡ parts_behind space (option_copied fields.entry)) }
{
    let mut words = Vec::new(alloc);
    let mut left = fields;
    while let Some(text) = left {
        let (field, rest) = split_first(text, b' ');
        words.push(Word::new(alloc, field)?)?;
        left = rest;
    }
    Ok(words)
}

/// Reads the words that the fields are.
#[tactic(auto, unfolding(crate::specs::Statements::words_of))]
fn words_of(alloc: Global, fields: Option<&[u8]>) -> Result<Vec<Word>, LineFault>
    ensures { Reads (λ words. words.items) result
        (words_of (parts_behind space (option_copied fields.entry))) }
{
    if !are_few(fields) {
        return Err(LineFault::Broken(Rule::WordCount));
    }
    if !are_words(fields) {
        return Err(LineFault::Broken(Rule::WordBytes));
    }
    Ok(collect_words(alloc, fields)?)
}

/// Reads the fields behind `args`: a module's number, and its words.
#[tactic(auto, unfolding(crate::specs::Statements::args_of))]
pub(crate) fn args_of(alloc: Global, fields: Option<&[u8]>) -> Result<Args, LineFault>
    ensures { Reads (λ args. args) result
        (args_of (parts_behind space (option_copied fields.entry))) }
{
    let (number, rest) = split_first(fields.ok_or(Rule::Module)?, b' ');
    let module = number_of(number, 1, MOST_MODULES).ok_or(Rule::Module)?;
    let words = words_of(alloc, rest)?;
    Ok(Args {
        module: module as u32,
        words,
    })
}

/// Reads the fields behind `for`: a module's name, and its words.
#[tactic(auto, unfolding(crate::specs::Statements::named_of))]
pub(crate) fn named_of(alloc: Global, fields: Option<&[u8]>) -> Result<Named, LineFault>
    ensures { Reads (λ named. named) result
        (named_of (parts_behind space (option_copied fields.entry))) }
{
    let (name, rest) = split_first(fields.ok_or(Rule::Name)?, b' ');
    if !is_word(name) {
        return Err(LineFault::Broken(Rule::Name));
    }
    let words = words_of(alloc, rest)?;
    let name = Vec::from_slice(alloc, name)?;
    Ok(Named { name, words })
}

/// Demands that a line with words is not longer than `LONGEST_ARGS`.
pub(crate) fn demand_short(line: &[u8]) -> Result<(), Rule>
    ensures { result ≡ demand LineLength (is_short line.now) (Ok tt) }
{
    if line.len() > LONGEST_ARGS {
        return Err(Rule::LineLength);
    }
    Ok(())
}
