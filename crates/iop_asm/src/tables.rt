//! The statements that begin tables, and the stubs of functions.

ghost use Rattle.std.specs.Prelude.{◌≡◌, ℕ, List};
ghost use Rattle.std.specs.Result.{result_map_both};
ghost use Rattle.iop_asm.specs.LineFaults.{Reads};
ghost use Rattle.iop_asm.specs.StatementFields.{statement};
ghost use Rattle.iop_asm.specs.Statements.{Statement as Wanted, BeginsExport, BeginsImport, formed, library_of, stub_statement, table_statement};
ghost use Rattle.iop_asm.specs.Texts.{words};

use crate::directives::version_of;
use crate::fault::AsmKind;
use crate::line_fault::LineFault;
use crate::number::number_of;
use crate::statement::Statement;
use crate::texts::{symbol_of, three_words, two_words};

/// How many bytes the field of a library's name has in the header of a table, in ps2sdk's irx.h. A
/// shorter name is filled up with zeros.
pub(crate) const LIBRARY_NAME_LEN: usize = 8;

/// Gives the library's name that a word is, which is no longer than its field, filled up with
/// zeros.
fn library_of(word: &[u8]) -> Option<[u8; LIBRARY_NAME_LEN]>
    ensures { result ≡ library_of word.now }
{
    if word.len() > LIBRARY_NAME_LEN {
        return None;
    }
    let name = symbol_of(word)?;
    let mut padded = [0; LIBRARY_NAME_LEN];
    padded[..name.len()].copy_from_slice(name);
    Some(padded)
}

/// Reads a library's name and version.
fn library_version(text: &[u8]) -> Result<([u8; 8], u16), AsmKind>
    ensures { (made : List ℕ → ℕ → Wanted) →
        result_map_both (λ found. made found.0 found.1) (λ kind. kind) result
        ≡ formed (table_statement made (words text.now)) }
{
    let (name, major, minor) = three_words(text).ok_or(AsmKind::Operand)?;
    let name = library_of(name).ok_or(AsmKind::Operand)?;
    Ok((name, version_of(major, minor)?))
}

/// Reads the header of an import table.
pub(crate) fn import_statement(text: &[u8]) -> Result<Statement<'_>, LineFault>
    ensures { Reads statement result (formed (table_statement BeginsImport (words text.now))) }
{
    let (name, version) = library_version(text)?;
    Ok(Statement::BeginsImport(name, version))
}

/// Reads the header of an export table.
pub(crate) fn export_statement(text: &[u8]) -> Result<Statement<'_>, LineFault>
    ensures { Reads statement result (formed (table_statement BeginsExport (words text.now))) }
{
    let (name, version) = library_version(text)?;
    Ok(Statement::BeginsExport(name, version))
}

/// Reads the stub of a function: its label and its index.
pub(crate) fn stub_statement(text: &[u8]) -> Result<Statement<'_>, LineFault>
    ensures { Reads statement result (formed (stub_statement (words text.now))) }
{
    let (label, index) = two_words(text).ok_or(AsmKind::Operand)?;
    let label = symbol_of(label).ok_or(AsmKind::Operand)?;
    let index = number_of(index).ok_or(AsmKind::Operand)?;
    if !index.lies_within(0, u64::from(u16::MAX)) {
        return Err(LineFault::Bad(AsmKind::Range));
    }
    Ok(Statement::Stubs(label, index.magnitude as u16))
}
