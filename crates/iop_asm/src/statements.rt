//! The statement of a line.

ghost use Rattle.iop_asm.specs.LineFaults.{Reads};
ghost use Rattle.iop_asm.specs.StatementFields.{keyword as keyword_view, statement};
ghost use Rattle.iop_asm.specs.Statements.{alone, directed, statement_of};

use crate::cell::Cell;
use crate::directive::Directive;
use crate::directives::{bss_statement, entry_statement, name_statement, version_statement};
use crate::fault::AsmKind;
use crate::fills::{instruction_statement, one_cell, string_statement, words_statement};
use crate::keyword::Keyword;
use crate::line_fault::LineFault;
use crate::statement::Statement;
use crate::tables::{export_statement, import_statement, stub_statement};
use crate::texts::after_blanks;
use std::alloc::Global;

/// Gives the statement of a line that has no operands.
fn alone<'a>(wanted: Statement<'a>, text: &[u8]) -> Result<Statement<'a>, LineFault>
    ensures { Reads statement result (alone (statement wanted.entry) text.now) }
{
    if after_blanks(text).is_empty() {
        Ok(wanted)
    } else {
        Err(LineFault::Bad(AsmKind::Operand))
    }
}

/// Reads the statement of a directive, from the text behind its word.
#[tactic(auto, unfolding(crate::specs::Statements::directed))]
fn directed(
    alloc: Global,
    line: u32,
    directive: Directive,
    text: &[u8],
) -> Result<Statement<'_>, LineFault>
    ensures { Reads statement result (directed line directive text.now) }
{
    match directive {
        Directive::Name => name_statement(text),
        Directive::Version => version_statement(text),
        Directive::Entry => entry_statement(text),
        Directive::Bss => bss_statement(text),
        Directive::Text => alone(Statement::BeginsText, text),
        Directive::Data => alone(Statement::BeginsData, text),
        Directive::Import => import_statement(text),
        Directive::Function => stub_statement(text),
        Directive::EndImport => alone(Statement::EndsImport, text),
        Directive::Export => export_statement(text),
        Directive::EndExport => alone(Statement::EndsExport, text),
        Directive::Word => words_statement(alloc, line, text),
        Directive::String => string_statement(alloc, text),
    }
}

/// Reads the statement of a line, from what it begins with and the text behind that.
#[tactic(auto, unfolding(crate::specs::Statements::statement_of))]
pub(crate) fn statement_of<'a>(
    alloc: Global,
    line: u32,
    keyword: Keyword<'a>,
    text: &'a [u8],
) -> Result<Statement<'a>, LineFault>
    ensures { Reads statement result (statement_of line (keyword_view keyword.entry) text.now) }
{
    match keyword {
        Keyword::Label(name) => alone(Statement::Labels(name), text),
        Keyword::Directive(directive) => directed(alloc, line, directive, text),
        Keyword::Mnemonic(mnemonic) => instruction_statement(alloc, line, mnemonic, text),
        Keyword::Nop => alone(Statement::Fills(one_cell(alloc, Cell::plain(0))?), text),
    }
}
