//! The unit of a draft: labels get their addresses, and words that name them are put together.

ghost use Rattle.std.specs.Prelude.{◌≡◌, ◌++◌, ℕ, List, Some, OnOk, IfOk, fold, option_and_then, option_to_list, unwrap_or, []};
ghost use Rattle.iop_base.specs.Numbers.{bytes_of};
ghost use Rattle.iop_asm.specs.declared.labels.Labels.{Labels};
ghost use Rattle.iop_asm.specs.Assembly.{label_address, cell_word, label_fault, cell_fault, cell_relocation, cells_faults, cells_relocations, cells_bytes, first_of, first_fault, all_faults, entry_address, entry_fault, open_fault, unit_of_draft};
ghost use Rattle.iop_asm.specs.Cells.{Cell as PlainCell};
ghost use Rattle.iop_asm.specs.DraftFields.{IsDraft};
ghost use Rattle.iop_asm.specs.Drafts.{Draft as PlainDraft};
ghost use Rattle.iop_asm.specs.LabelFields.{name_of as label_name};
ghost use Rattle.iop_asm.specs.NumberedCells.{cell_in, AreCells};

use crate::addresses::{address_behind, field_by, is_near, place_address, relocation_type};
use crate::cell::Cell;
use crate::draft::Draft;
use crate::fault::{AsmKind, Fault, first_of_both};
use crate::reference::ReferenceKind;
use crate::relocation::Relocation;
use crate::unit::AsmUnit;
use std::alloc::{AllocError, Global};

/// A version that is not given: 1.1.
pub(crate) const DEFAULT_VERSION: u16 = 0x0101;

/// Finds the address of the label of a number.
#[tactic(auto, unfolding(crate::specs::Assembly::label_address))]
fn label_address(draft: &Draft<'_>, label: usize) -> Option<u32>
    ensures { (d : PlainDraft) (name : List ℕ) → IsDraft draft.now d →
        label_name draft.now.labels label ≡ Some name → result ≡ label_address d name }
{
    let place = draft.labels.place_of(label)?;
    Some(place_address(draft.text.len(), place))
}

/// Finds the address of the label of a name.
#[tactic(auto, unfolding(crate::specs::Assembly::label_address))]
fn named_address(draft: &Draft<'_>, name: &[u8]) -> Option<u32>
    ensures { (d : PlainDraft) → IsDraft draft.now d → result ≡ label_address d name.now }
{
    let place = draft.labels.place_named(name)?;
    Some(place_address(draft.text.len(), place))
}

/// Puts the word of a cell together.
fn cell_word(draft: &Draft<'_>, site: u32, cell: Cell<usize>) -> u32
    ensures { (d : PlainDraft) (c : PlainCell) → IsDraft draft.now d →
        cell_in draft.now.labels cell ≡ Some c → result ≡ cell_word d site c }
{
    match cell.reference {
        None => cell.word,
        Some(reference) => {
            let address = label_address(draft, reference.label).unwrap_or(0);
            cell.word
                .wrapping_add(field_by(reference.kind, site, address))
        }
    }
}

/// Gives the fault of a line that names a label without an address, unless a bad line names the
/// label as its own.
fn label_fault(draft: &Draft<'_>, line: u32, name: &[u8]) -> Option<Fault>
    ensures { (d : PlainDraft) → IsDraft draft.now d → result ≡ label_fault d line name.now }
{
    if draft.is_missed(name) {
        return None;
    }
    Some(Fault {
        line,
        kind: AsmKind::Label,
    })
}

/// Finds the fault of a cell: its label is not defined, or a branch goes too far.
fn cell_fault(draft: &Draft<'_>, site: u32, cell: Cell<usize>) -> Option<Fault>
    ensures { (d : PlainDraft) (c : PlainCell) → IsDraft draft.now d →
        cell_in draft.now.labels cell ≡ Some c → result ≡ cell_fault d site c }
{
    let reference = cell.reference?;
    let line = reference.line;
    match label_address(draft, reference.label) {
        None => label_fault(draft, line, draft.labels.name_of(reference.label)?),
        Some(address) if reference.kind == ReferenceKind::Branch && !is_near(site, address) => {
            Some(Fault {
                line,
                kind: AsmKind::Range,
            })
        }
        Some(_) => None,
    }
}

/// Makes the relocation entry of a cell, if it has one.
fn cell_relocation(site: u32, cell: Cell<usize>) -> Option<Relocation>
    ensures { (labels : Labels) (c : PlainCell) → cell_in labels cell ≡ Some c →
        result ≡ cell_relocation site c }
{
    let kind = relocation_type(cell.reference?.kind)?;
    Some(Relocation { site, kind })
}

/// Finds the first of a fault that was found and those of cells behind so many others.
fn first_cell_fault(
    draft: &Draft<'_>,
    behind: usize,
    cells: &[Cell<usize>],
    found: Option<Fault>,
) -> Option<Fault>
    ensures { (d : PlainDraft) (list : List PlainCell) → IsDraft draft.now d →
        AreCells draft.now.labels cells.now list →
        result ≡ fold first_of found (cells_faults d behind list) }
{
    let mut first = found;
    for (index, cell) in cells.iter().enumerate() {
        let fault = cell_fault(draft, address_behind(behind, index), *cell);
        first = first_of_both(first, fault);
    }
    first
}

/// Finds the fault of the entry: its label is not defined.
fn entry_fault(draft: &Draft<'_>) -> Option<Fault>
    ensures { (d : PlainDraft) → IsDraft draft.now d →
        result ≡ option_and_then (entry_fault d) d.entry }
{
    let entry = draft.entry?;
    match named_address(draft, entry.label) {
        None => label_fault(draft, entry.line, entry.label),
        Some(_) => None,
    }
}

/// Finds the fault of the last line: a table is open behind it.
fn open_fault(draft: &Draft<'_>) -> Option<Fault>
    ensures { result ≡ open_fault draft.now.table draft.now.line }
{
    match draft.table {
        None => None,
        Some(_) => Some(Fault {
            line: draft.line,
            kind: AsmKind::Section,
        }),
    }
}

/// Finds the first fault of a source whose lines have been read.
pub(crate) fn first_fault(draft: &Draft<'_>) -> Option<Fault>
    ensures { (d : PlainDraft) → IsDraft draft.now d → result ≡ first_fault (all_faults d) }
{
    let in_text = first_cell_fault(draft, 0, &draft.text, draft.fault);
    let in_data = first_cell_fault(draft, draft.text.len(), &draft.data, in_text);
    let at_entry = first_of_both(in_data, entry_fault(draft));
    first_of_both(at_entry, open_fault(draft))
}

/// Adds a word, the lowest byte first.
fn push_word(bytes: &mut Vec<u8>, word: u32) -> Result<(), AllocError>
    ensures { OnOk result (bytes.new.items ≡ bytes.old.items ++ bytes_of 4 word) }
{
    bytes.extend_from_slice(&word.to_le_bytes())
}

/// Makes the bytes of cells behind so many others.
fn cells_bytes(
    alloc: Global,
    draft: &Draft<'_>,
    behind: usize,
    cells: &[Cell<usize>],
) -> Result<Vec<u8>, AllocError>
    ensures { IfOk result (λ bytes. (d : PlainDraft) (list : List PlainCell) → IsDraft draft.now d →
        AreCells draft.now.labels cells.now list → bytes.items ≡ cells_bytes d behind list) }
{
    let mut bytes = Vec::new(alloc);
    for (index, cell) in cells.iter().enumerate() {
        let word = cell_word(draft, address_behind(behind, index), *cell);
        push_word(&mut bytes, word)?;
    }
    Ok(bytes)
}

/// Adds a relocation entry, if there is one.
fn push_relocation(
    relocations: &mut Vec<Relocation>,
    relocation: Option<Relocation>,
) -> Result<(), AllocError>
    ensures { OnOk result (relocations.new.items
        ≡ relocations.old.items ++ option_to_list relocation) }
{
    if let Some(relocation) = relocation {
        relocations.push(relocation)?;
    }
    Ok(())
}

/// Adds the relocation entries of cells behind so many others.
fn push_relocations(
    relocations: &mut Vec<Relocation>,
    behind: usize,
    cells: &[Cell<usize>],
) -> Result<(), AllocError>
    ensures { OnOk result ((labels : Labels) (list : List PlainCell) →
        AreCells labels cells.now list
        → relocations.new.items ≡ relocations.old.items ++ cells_relocations behind list) }
{
    for (index, cell) in cells.iter().enumerate() {
        let relocation = cell_relocation(address_behind(behind, index), *cell);
        push_relocation(relocations, relocation)?;
    }
    Ok(())
}

/// Gives the address of the entry, or 0 where there is none.
fn entry_address(draft: &Draft<'_>) -> u32
    ensures { (d : PlainDraft) → IsDraft draft.now d → result ≡ entry_address d }
{
    match draft.entry {
        None => 0,
        Some(entry) => named_address(draft, entry.label).unwrap_or(0),
    }
}

/// Gives the name, or none where it is not given.
fn name_of<'a>(draft: &Draft<'a>) -> &'a [u8]
    ensures { (d : PlainDraft) → IsDraft draft.now d → result.now ≡ unwrap_or d.name [] }
{
    draft.name.unwrap_or(b"")
}

/// Makes the unit of a source without a fault.
pub(crate) fn unit_of(alloc: Global, draft: &Draft<'_>) -> Result<AsmUnit, AllocError>
    ensures { IfOk result (λ unit. (d : PlainDraft) →
        IsDraft draft.now d → unit ≡ unit_of_draft d) }
{
    let text_words = draft.text.len();
    let mut relocations = Vec::new(alloc);
    push_relocations(&mut relocations, 0, &draft.text)?;
    push_relocations(&mut relocations, text_words, &draft.data)?;
    Ok(AsmUnit {
        name: name_of(draft).to_vec(alloc)?,
        version: draft.version.unwrap_or(DEFAULT_VERSION),
        entry: entry_address(draft),
        gp: 0,
        text: cells_bytes(alloc, draft, 0, &draft.text)?,
        data: cells_bytes(alloc, draft, text_words, &draft.data)?,
        bss: draft.bss.unwrap_or(0),
        relocations,
    })
}
