//! The statements that give a module's name, version, entry and zero bytes.

ghost use Rattle.std.specs.Option.{option_copied};
ghost use Rattle.std.specs.Prelude.{◌≡◌, ℕ, option_and_then};
ghost use Rattle.std.specs.Result.{result_map_both};
ghost use Rattle.iop_asm.specs.LineFaults.{Reads};
ghost use Rattle.iop_asm.specs.StatementFields.{statement};
ghost use Rattle.iop_asm.specs.Statements.{Statement as Wanted, formed, name_statement, version_statement, entry_statement, bss_statement, with_version};
ghost use Rattle.iop_asm.specs.Texts.{only, symbol_of, words};

use crate::fault::AsmKind;
use crate::line_fault::LineFault;
use crate::number::number_of;
use crate::statement::Statement;
use crate::texts::{one_word, symbol_of, two_words};

/// Gives the name that a text is. None where it is not one word, or the word is no name.
fn one_name(text: &[u8]) -> Option<&[u8]>
    ensures { option_copied result ≡ option_and_then symbol_of (only (words text.now)) }
{
    symbol_of(one_word(text)?)
}

/// Reads a module's name.
pub(crate) fn name_statement(text: &[u8]) -> Result<Statement<'_>, LineFault>
    ensures { Reads statement result (formed (name_statement (words text.now))) }
{
    let name = one_name(text).ok_or(AsmKind::Operand)?;
    Ok(Statement::Names(name))
}

/// Reads the label where a module is entered.
pub(crate) fn entry_statement(text: &[u8]) -> Result<Statement<'_>, LineFault>
    ensures { Reads statement result (formed (entry_statement (words text.now))) }
{
    let label = one_name(text).ok_or(AsmKind::Operand)?;
    Ok(Statement::Enters(label))
}

/// Reads how many zero bytes follow a module's data.
pub(crate) fn bss_statement(text: &[u8]) -> Result<Statement<'_>, LineFault>
    ensures { Reads statement result (formed (bss_statement (words text.now))) }
{
    let word = one_word(text).ok_or(AsmKind::Operand)?;
    let bytes = number_of(word).ok_or(AsmKind::Operand)?;
    if !bytes.lies_within(0, u64::from(u32::MAX)) {
        return Err(LineFault::Bad(AsmKind::Range));
    }
    Ok(Statement::Reserves(bytes.magnitude as u32))
}

/// Reads a version: 256 times its major number, and its minor number.
pub(crate) fn version_of(major: &[u8], minor: &[u8]) -> Result<u16, AsmKind>
    ensures { (made : ℕ → Wanted) → result_map_both made (λ kind. kind) result
        ≡ formed (with_version made major.now minor.now) }
{
    let major = number_of(major).ok_or(AsmKind::Operand)?;
    let minor = number_of(minor).ok_or(AsmKind::Operand)?;
    if !(major.lies_within(0, 255) && minor.lies_within(0, 255)) {
        return Err(AsmKind::Range);
    }
    Ok(256 * major.magnitude as u16 + minor.magnitude as u16)
}

/// Reads a module's version.
pub(crate) fn version_statement(text: &[u8]) -> Result<Statement<'_>, LineFault>
    ensures { Reads statement result (formed (version_statement (words text.now))) }
{
    let (major, minor) = two_words(text).ok_or(AsmKind::Operand)?;
    Ok(Statement::Versions(version_of(major, minor)?))
}
