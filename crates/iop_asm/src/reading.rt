//! The lines of a source, read one after another.

ghost use Rattle.std.specs.Prelude.{◌≡◌, OnOk, IfOk, IfSome, Option, Some, false, fold, option_map};
ghost use Rattle.std.specs.Option.{option_copied};
ghost use Rattle.std.specs.Str.Lines.{lines};
ghost use Rattle.iop_asm.specs.DraftFields.{IsDraft};
ghost use Rattle.iop_asm.specs.Drafts.{Draft as PlainDraft, empty_draft, is_given, read_text, after_line};
ghost use Rattle.iop_asm.specs.LineFaults.{Reads};
ghost use Rattle.iop_asm.specs.StatementFields.{statement as plain};
ghost use Rattle.iop_asm.specs.Statements.{label_among};
ghost use Rattle.iop_asm.specs.Texts.{words};

use crate::directive::Directive;
use crate::draft::Draft;
use crate::fault::AsmKind;
use crate::keywords::{directive_of, keyword_of, label_of};
use crate::line_fault::LineFault;
use crate::standing::may_stand;
use crate::statement::Statement;
use crate::statements::statement_of;
use crate::texts::{after_blanks, before_comment, next_word, split_word, symbol_of};
use std::alloc::{AllocError, Global};

/// Reads the statement of a line from its first word on: none of an empty text.
#[tactic(auto, unfolding(crate::specs::Drafts::read_text))]
fn read_text<'a>(
    alloc: Global,
    draft: &Draft<'a>,
    text: &'a [u8],
) -> Result<Option<Statement<'a>>, LineFault>
    ensures reads { (d : PlainDraft) → IsDraft draft.now d →
        Reads (option_map plain) result (read_text d text.now) }
    ensures new { IfOk result (λ read. IfSome read (λ statement. (d : PlainDraft) →
        IsDraft draft.now d → is_given d (plain statement) ≡ false)) }
{
    if text.is_empty() {
        return Ok(None);
    }
    let (word, rest) = split_word(text);
    let Some(keyword) = keyword_of(word) else {
        return Err(LineFault::Bad(AsmKind::Statement));
    };
    if !may_stand(draft.table, draft.section, keyword) {
        return Err(LineFault::Bad(AsmKind::Section));
    }
    let statement = statement_of(alloc, draft.line, keyword, rest)?;
    if draft.is_given(&statement) {
        return Err(LineFault::Bad(AsmKind::Twice));
    }
    Ok(Some(statement))
}

/// Finds the label that a line names as its own, by its first words: the line may be bad otherwise.
#[tactic(auto, unfolding(crate::specs::Statements::label_among))]
fn label_among(text: &[u8]) -> Option<&[u8]>
    ensures { option_copied result ≡ label_among (words text.now) }
{
    let (word, rest) = next_word(text)?;
    if let Some(label) = label_of(word) {
        return Some(label);
    }
    match directive_of(word)? {
        Directive::Function => {
            let (label, _) = next_word(rest)?;
            symbol_of(label)
        }
        _ => None,
    }
}

/// Reads the next line, and does what it asks for. Of a bad line only its fault and its label stay.
#[tactic(auto, unfolding(crate::specs::Drafts::after_line))]
fn take_line<'a>(alloc: Global, draft: &mut Draft<'a>, line: &'a [u8]) -> Result<(), AllocError>
    ensures { OnOk result ((d : PlainDraft) → IsDraft draft.old d →
        IsDraft draft.new (after_line d line.now)) }
{
    draft.begin_line();
    let text = after_blanks(before_comment(line));
    match read_text(alloc, draft, text) {
        Ok(None) => Ok(()),
        Ok(Some(statement)) => draft.perform(&statement),
        Err(LineFault::Bad(kind)) => draft.note_fault(kind, label_among(text)),
        Err(LineFault::Memory) => Err(AllocError),
    }
}

/// Reads all lines of a source.
pub(crate) fn read_source(alloc: Global, source: &str) -> Result<Draft<'_>, AllocError>
    ensures { IfOk result (λ draft.
        IsDraft draft (fold after_line empty_draft (lines source.now))) }
{
    let mut draft = Draft::new(alloc);
    for line in source.lines() {
        take_line(alloc, &mut draft, line.as_bytes())?;
    }
    Ok(draft)
}
