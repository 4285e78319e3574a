//! Which lines may stand where.

ghost use Rattle.std.specs.Prelude.{◌≡◌};
ghost use Rattle.iop_asm.specs.Drafts.{stands_in, stands_in_import, stands_in_export, stands_by};
ghost use Rattle.iop_asm.specs.StatementFields.{keyword as plain};

use crate::directive::Directive;
use crate::keyword::Keyword;
use crate::section::{OpenTable, Section};

/// Says whether a line may stand in a section where no table is open: tables begin, and
/// instructions stand, in text; strings stand in data.
fn stands_in(section: Section, keyword: Keyword<'_>) -> bool
    ensures { result ≡ stands_in section (plain keyword.entry) }
{
    match keyword {
        Keyword::Label(_) => true,
        Keyword::Mnemonic(_)
        | Keyword::Nop
        | Keyword::Directive(Directive::Import | Directive::Export) => section == Section::Text,
        Keyword::Directive(Directive::Function | Directive::EndImport | Directive::EndExport) =>
            false,
        Keyword::Directive(Directive::String) => section == Section::Data,
        Keyword::Directive(_) => true,
    }
}

/// Says whether a line may stand in an import table.
fn stands_in_import(keyword: Keyword<'_>) -> bool
    ensures { result ≡ stands_in_import (plain keyword.entry) }
{
    matches!(
        keyword,
        Keyword::Directive(Directive::Function | Directive::EndImport)
    )
}

/// Says whether a line may stand in an export table.
fn stands_in_export(keyword: Keyword<'_>) -> bool
    ensures { result ≡ stands_in_export (plain keyword.entry) }
{
    matches!(
        keyword,
        Keyword::Directive(Directive::Word | Directive::EndExport)
    )
}

/// Says whether a line that begins with a keyword may stand in a section, by the table that is open
/// there.
pub(crate) fn may_stand(table: Option<OpenTable>, section: Section, keyword: Keyword<'_>) -> bool
    ensures { result ≡ stands_by table section (plain keyword.entry) }
{
    match table {
        None => stands_in(section, keyword),
        Some(OpenTable::Import) => stands_in_import(keyword),
        Some(OpenTable::Export) => stands_in_export(keyword),
    }
}
