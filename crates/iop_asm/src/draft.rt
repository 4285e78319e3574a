ghost use Rattle.std.specs.Prelude.{◌≡◌};
ghost use Rattle.iop_asm.specs.Drafts.{magic};

use crate::cell::Cell;
use crate::fault::{AsmKind, Fault, first_of};
use crate::labels::Labels;
use crate::place::Place;
use crate::section::{OpenTable, Section};
use crate::statement::Statement;
use iop_base::{EXPORT_MAGIC, IMPORT_MAGIC, JUMP_BACK, STUB_INDEX, word_at};
use std::alloc::{AllocError, Global};
use std::collections::BTreeSet;

/// A label where the module is entered.
#[derive(Clone, Copy)]
pub(crate) struct Entry<'a> {
    /// The label's name.
    pub label: &'a [u8],
    /// The number of the line that names it.
    pub line: u32,
}

/// What the lines make, one after another, before labels have addresses.
#[derive(Drop)]
pub(crate) struct Draft<'a> {
    /// The number of the last line that was read.
    pub line: u32,
    /// The module's name, where it was given.
    pub name: Option<&'a [u8]>,
    /// The module's version, where it was given.
    pub version: Option<u16>,
    /// Where the module is entered, where it was given.
    pub entry: Option<Entry<'a>>,
    /// How many zero bytes follow the data, where it was given.
    pub bss: Option<u32>,
    /// Where the next statement stands.
    pub section: Section,
    /// The table that is open there.
    pub table: Option<OpenTable>,
    /// The words of the text.
    pub text: Vec<Cell<usize>>,
    /// The words of the data.
    pub data: Vec<Cell<usize>>,
    /// The labels that lines name or define.
    pub labels: Labels<'a>,
    /// The first fault of those that show in the lines themselves.
    pub fault: Option<Fault>,
    /// The labels that bad lines name as their own.
    pub missed: BTreeSet<&'a [u8]>,
}

impl<'a> Draft<'a> {
    ghost use Rattle.std.specs.Prelude.{◌≡◌, OnOk, None, false, [], ◌∷◌};
    ghost use Rattle.std.specs.Option.{option_copied};
    ghost use Rattle.iop_asm.specs.CellFields.{cell as by_name, cells as by_names};
    ghost use Rattle.iop_asm.specs.DraftFields.{IsDraft};
    ghost use Rattle.iop_asm.specs.Drafts.{Draft as PlainDraft, place_named, is_missed, empty_draft, next_place, is_given, filled, with_label, with_fault, at_next_line, begun, ended, stub_cells, after_statement};
    ghost use Rattle.iop_asm.specs.StatementFields.{statement as plain};

    /// Begins without a line.
    pub fn new(alloc: Global) -> Self
        ensures { IsDraft result empty_draft }
    {
        Draft {
            line: 0,
            name: None,
            version: None,
            entry: None,
            bss: None,
            section: Section::Text,
            table: None,
            text: Vec::new(alloc),
            data: Vec::new(alloc),
            labels: Labels::new(alloc),
            fault: None,
            missed: BTreeSet::new(alloc),
        }
    }

    /// Goes on to the next line. A line behind the last number has that number too.
    pub fn begin_line(&mut self)
        ensures { (d : PlainDraft) → IsDraft self.old d → IsDraft self.new (at_next_line d) }
    {
        self.line = self.line.saturating_add(1);
    }

    /// Keeps a fault of the line that is read, unless one comes before it, and the label that the
    /// line names as its own.
    pub fn note_fault(&mut self, kind: AsmKind, label: Option<&'a [u8]>) -> Result<(), AllocError>
        ensures { OnOk result ((d : PlainDraft) → IsDraft self.old d →
            IsDraft self.new (with_fault d kind (option_copied label.entry))) }
    {
        let fault = Fault {
            line: self.line,
            kind,
        };
        self.fault = first_of(self.fault, fault);
        if let Some(label) = label {
            self.missed.insert(label)?;
        }
        Ok(())
    }

    /// Says whether a bad line names this as its label.
    pub fn is_missed(&self, name: &[u8]) -> bool
        ensures { (d : PlainDraft) → IsDraft self.now d → result ≡ is_missed d name.now }
    {
        self.missed.contains(name)
    }

    /// Puts a word behind those of a section.
    fn push(&mut self, section: Section, cell: Cell<&'a [u8]>) -> Result<(), AllocError>
        ensures { OnOk result ((d : PlainDraft) → IsDraft self.old d →
            IsDraft self.new (filled d section (by_name cell.entry ∷ []))) }
    {
        let numbered = self.labels.numbered(cell)?;
        match section {
            Section::Text => self.text.push(numbered)?,
            Section::Data => self.data.push(numbered)?,
        }
        Ok(())
    }

    /// Puts words behind those of a section.
    fn fill(&mut self, section: Section, cells: &[Cell<&'a [u8]>]) -> Result<(), AllocError>
        ensures { OnOk result ((d : PlainDraft) → IsDraft self.old d →
            IsDraft self.new (filled d section (by_names cells.now))) }
    {
        for cell in cells {
            self.push(section, *cell)?;
        }
        Ok(())
    }

    /// Tells where the next word stands.
    fn next_place(&self) -> Place
        ensures { (d : PlainDraft) → IsDraft self.now d → result ≡ next_place d }
    {
        let words = match self.section {
            Section::Text => self.text.len(),
            Section::Data => self.data.len(),
        };
        Place {
            section: self.section,
            words,
        }
    }

    /// Defines a label that stands at the next word.
    fn define(&mut self, name: &'a [u8]) -> Result<(), AllocError>
        ensures { OnOk result ((d : PlainDraft) → IsDraft self.old d →
            place_named d.labels name.now ≡ None → IsDraft self.new (with_label d name.now)) }
    {
        let place = self.next_place();
        self.labels.place(name, place)?;
        Ok(())
    }

    /// Begins a table, with the name and the version of its library.
    fn begin_table(
        &mut self,
        table: OpenTable,
        name: [u8; 8],
        version: u16,
    ) -> Result<(), AllocError>
        ensures { OnOk result ((d : PlainDraft) → IsDraft self.old d →
            IsDraft self.new (begun d table name version)) }
    {
        let words = [
            Cell::plain(first_word(table)),
            Cell::plain(0),
            Cell::plain(u32::from(version)),
            Cell::plain(word_at(&name, 0)),
            Cell::plain(word_at(&name, 4)),
        ];
        self.fill(Section::Text, &words)?;
        self.table = Some(table);
        Ok(())
    }

    /// Ends the table that is open.
    fn end_table(&mut self, table: OpenTable) -> Result<(), AllocError>
        ensures { OnOk result ((d : PlainDraft) → IsDraft self.old d →
            IsDraft self.new (ended d table)) }
    {
        let zero = Cell::plain(0);
        match table {
            OpenTable::Import => self.fill(Section::Text, &[zero, zero])?,
            OpenTable::Export => self.fill(Section::Text, &[zero])?,
        }
        self.table = None;
        Ok(())
    }

    /// Puts the stub of a function, which a label names.
    fn put_stub(&mut self, label: &'a [u8], index: u16) -> Result<(), AllocError>
        ensures { OnOk result ((d : PlainDraft) → IsDraft self.old d →
            place_named d.labels label.now ≡ None →
            IsDraft self.new (filled (with_label d label.now) Section.Text (stub_cells index))) }
    {
        self.define(label)?;
        let words = [
            Cell::plain(JUMP_BACK),
            Cell::plain(STUB_INDEX + u32::from(index)),
        ];
        self.fill(Section::Text, &words)?;
        Ok(())
    }

    /// Says whether what a statement gives was given before.
    pub fn is_given(&self, statement: &Statement<'a>) -> bool
        ensures { (d : PlainDraft) → IsDraft self.now d →
            result ≡ is_given d (plain statement.now) }
    {
        match statement {
            Statement::Labels(name) | Statement::Stubs(name, _) => {
                self.labels.place_named(name).is_some()
            }
            Statement::Names(_) => self.name.is_some(),
            Statement::Versions(_) => self.version.is_some(),
            Statement::Enters(_) => self.entry.is_some(),
            Statement::Reserves(_) => self.bss.is_some(),
            _ => false,
        }
    }

    /// Does what a statement of the line that is read asks for, where it was not given before.
    #[tactic(auto, using(crate::proofs::DraftLemmas::not_placed), unfolding(crate::specs::Drafts::after_statement))]
    pub fn perform(&mut self, statement: &Statement<'a>) -> Result<(), AllocError>
        ensures { OnOk result ((d : PlainDraft) → IsDraft self.old d →
            is_given d (plain statement.now) ≡ false →
            IsDraft self.new (after_statement d (plain statement.now))) }
    {
        match statement {
            Statement::Labels(name) => self.define(name)?,
            Statement::Names(name) => self.name = Some(name),
            Statement::Versions(version) => self.version = Some(*version),
            Statement::Enters(label) => {
                self.entry = Some(Entry {
                    label,
                    line: self.line,
                });
            }
            Statement::Reserves(bytes) => self.bss = Some(*bytes),
            Statement::BeginsText => self.section = Section::Text,
            Statement::BeginsData => self.section = Section::Data,
            Statement::BeginsImport(name, version) => {
                self.begin_table(OpenTable::Import, *name, *version)?;
            }
            Statement::BeginsExport(name, version) => {
                self.begin_table(OpenTable::Export, *name, *version)?;
            }
            Statement::Stubs(label, index) => self.put_stub(label, *index)?,
            Statement::EndsImport => self.end_table(OpenTable::Import)?,
            Statement::EndsExport => self.end_table(OpenTable::Export)?,
            Statement::Fills(words) => self.fill(self.section, words)?,
        }
        Ok(())
    }
}

/// Gives the first word of a table.
fn first_word(table: OpenTable) -> u32
    ensures { result ≡ magic table }
{
    match table {
        OpenTable::Import => IMPORT_MAGIC,
        OpenTable::Export => EXPORT_MAGIC,
    }
}
