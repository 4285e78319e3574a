ghost use Rattle.std.specs.Prelude.{◌≡◌, ◌+◌, ◌*◌, ◌%◌, ◌≤◌, ◌<◌, IsTrue, IfSome, IfErr, OnOk, Some, None, is_some, length};
ghost use Rattle.std.specs.List.{slice_get};
ghost use Rattle.irx_elf.specs.Headers.{file_header, section_number, relocation_sections};
ghost use Rattle.irx_elf.specs.Rules.{has_entries, has_sections, section_rules, TellsUnmet};
ghost use Rattle.irx_elf.specs.Parts.{is_applied, list_of};

use crate::format::{ENTRY_SIZE, SECTION_SIZE};
use crate::irx_file::IrxFile;
use crate::reading::{demand, part_at};
use crate::section::Section;
use iop_base::{Illegal, word_at};

/// The section headers of a file, which lie in it: rule 11.
#[derive(Clone, Copy)]
pub(crate) struct SectionTable<'a> {
    /// The file.
    pub file: IrxFile<'a>,
    ghost inside: { IsTrue (has_sections file.bytes.now (file_header file.bytes.now)) },
}

impl<'a> SectionTable<'a> {
    /// Takes the section headers of a file. `None` exactly where they do not lie in it.
    pub fn new(file: &IrxFile<'a>) -> Option<Self>
        ensures inside { let bytes = file.now.bytes.now in
            is_some result ≡ has_sections bytes (file_header bytes) }
        ensures file { IfSome result (λ table. table.file ≡ file.now) }
    {
        if file.header.has_sections(file.bytes) {
            Some(SectionTable { file: *file })
        } else {
            None
        }
    }

    /// Tells how many section headers there are.
    pub fn count(&self) -> u32
        ensures { result ≡ (file_header self.now.file.bytes.now).section_count }
    {
        self.file.header.section_count.into()
    }

    /// Reads the section header of a number.
    pub fn section(&self, number: u32) -> Section
        requires { number < (file_header self.now.file.bytes.now).section_count }
        ensures { result ≡ section_number self.now.file.bytes.now number }
    {
        let bytes = self.file.bytes;
        let at = self.file.header.sections + SECTION_SIZE * number;
        let place = at as usize;
        Section {
            at,
            kind: word_at(bytes, place + 4),
            flags: word_at(bytes, place + 8),
            offset: word_at(bytes, place + 16),
            size: word_at(bytes, place + 20),
            target: word_at(bytes, place + 28),
        }
    }

    /// Tells whether the relocation entries of a section are applied: it names section 0, or one
    /// that takes memory.
    fn is_applied(&self, section: &Section) -> bool
        requires { section.now.target < (file_header self.now.file.bytes.now).section_count }
        ensures { result ≡ is_applied self.now.file.bytes.now section.now }
    {
        section.target == 0 || self.section(section.target).takes_memory()
    }

    /// Tells whether the relocation entries of a section lie in the file, are whole, and name a
    /// section that is there.
    fn has_entries(&self, section: &Section) -> bool
        ensures { result ≡ has_entries self.now.file.bytes.now section.now }
    {
        part_at(self.file.bytes, section.offset, section.size).is_some()
            && section.size % ENTRY_SIZE == 0
            && section.target < self.count()
    }

    /// Lends the relocation entries of a section, none where they are not applied.
    pub fn list(&self, section: &Section) -> &'a [u8]
        requires { IsTrue (has_entries self.now.file.bytes.now section.now) }
        ensures entries { result.now ≡ list_of self.now.file.bytes.now section.now }
        ensures whole { length result.now % 8 ≡ 0 }
    {
        if self.is_applied(section) {
            part_at(self.file.bytes, section.offset, section.size).unwrap()
        } else {
            &[]
        }
    }

    /// Tests each section of relocation entries: rule 12.
    #[tactic(auto, unfolding(crate::specs::Rules::section_rules))]
    pub fn check(&self) -> Result<(), Illegal>
        ensures { TellsUnmet (section_rules self.now.file.bytes.now) result }
    {
        for number in 0..self.count() {
            let section = self.section(number);
            if section.is_relocations() {
                demand(self.has_entries(&section), 12, section.at)?;
            }
        }
        Ok(())
    }

    /// Finds the header of section `k` of relocation entries, counted among those alone.
    pub fn find_relocations(&self, k: u32) -> Option<Section>
        ensures { result ≡ slice_get (relocation_sections self.now.file.bytes.now) k }
    {
        let mut left = k;
        for number in 0..self.count() {
            let section = self.section(number);
            if section.is_relocations() {
                if left == 0 {
                    return Some(section);
                }
                left -= 1;
            }
        }
        None
    }

    /// Counts the sections of relocation entries.
    pub fn count_relocations(&self) -> u32
        ensures { result ≡ length (relocation_sections self.now.file.bytes.now) }
    {
        let mut count = 0;
        for number in 0..self.count() {
            if self.section(number).is_relocations() {
                count += 1;
            }
        }
        count
    }
}
