ghost use Rattle.std.specs.Prelude.{◌≡◌, ◌+◌, ◌*◌, ◌≤◌, length};
ghost use Rattle.irx_elf.specs.Headers.{file_header};
ghost use Rattle.irx_elf.specs.Rules.{has_segments, has_sections};

use crate::format::{SECTION_SIZE, SEGMENT_SIZE};
use iop_base::{half_at, word_at};

/// The fields of the file header that the rules name (ELF TIS 1.2).
#[derive(Clone, Copy)]
pub(crate) struct FileHeader {
    /// `e_type`: what the file is.
    pub kind: u16,
    /// `e_machine`: the processor.
    pub machine: u16,
    /// `e_phoff`: where the program headers begin.
    pub segments: u32,
    /// `e_shoff`: where the section headers begin.
    pub sections: u32,
    /// `e_phentsize`: how many bytes a program header has.
    pub segment_size: u16,
    /// `e_phnum`: how many program headers there are.
    pub segment_count: u16,
    /// `e_shentsize`: how many bytes a section header has.
    pub section_size: u16,
    /// `e_shnum`: how many section headers there are.
    pub section_count: u16,
}

impl FileHeader {
    /// Reads the file header.
    pub fn read(file: &[u8]) -> Self
        requires { 52 ≤ length file.now }
        ensures { result ≡ file_header file.now }
    {
        FileHeader {
            kind: half_at(file, 16),
            machine: half_at(file, 18),
            segments: word_at(file, 28),
            sections: word_at(file, 32),
            segment_size: half_at(file, 42),
            segment_count: half_at(file, 44),
            section_size: half_at(file, 46),
            section_count: half_at(file, 48),
        }
    }

    /// Tells whether the program headers have their size, and lie in the file.
    pub fn has_segments(&self, file: &[u8]) -> bool
        ensures { result ≡ has_segments file.now self.now }
    {
        let size = u64::from(SEGMENT_SIZE) * u64::from(self.segment_count);
        u32::from(self.segment_size) == SEGMENT_SIZE
            && u64::from(self.segments) + size <= file.len() as u64
    }

    /// Tells whether there are no section headers, or they have their size and lie in the file.
    pub fn has_sections(&self, file: &[u8]) -> bool
        ensures { result ≡ has_sections file.now self.now }
    {
        let size = u64::from(SECTION_SIZE) * u64::from(self.section_count);
        self.section_count == 0
            || u32::from(self.section_size) == SECTION_SIZE
                && u64::from(self.sections) + size <= file.len() as u64
    }
}
