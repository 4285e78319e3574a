ghost use Rattle.std.specs.Prelude.{◌≡◌};
ghost use Rattle.irx_build.specs.Building.{IsAccepted};

use iop_asm::AsmUnit;
use irx_elf::format::{ENTRY_SIZE, FILE_HEADER_SIZE, SEGMENT_SIZE};
use irx_info::NUMBERS_SIZE;

/// How many program headers a file has.
pub(crate) const SEGMENT_COUNT: u16 = 2;

/// How many section headers a file with relocation entries has.
pub(crate) const SECTION_COUNT: u16 = 2;

/// Where the module information stands, behind the headers.
pub(crate) const INFO_PLACE: u32 = FILE_HEADER_SIZE as u32 + SEGMENT_COUNT as u32 * SEGMENT_SIZE;

/// What the places of the parts are a multiple of.
pub(crate) const ALIGNMENT: u32 = 4;

/// How many bytes the parts of a file have, and where they stand in it.
#[derive(Clone, Copy)]
pub(crate) struct Layout {
    /// How many bytes of module information there are.
    pub info_size: u32,
    /// Where the image begins.
    pub image: u32,
    /// How many bytes of text there are.
    pub text_size: u32,
    /// How many bytes of data there are.
    pub data_size: u32,
    /// How many bytes the image has in the file.
    pub image_size: u32,
    /// How many bytes it takes in memory.
    pub image_length: u32,
    /// Where the relocation entries begin.
    pub entries: u32,
    /// How many bytes of relocation entries there are.
    pub entries_size: u32,
    /// Where the section headers begin, 0 where there are none.
    pub sections: u32,
    /// How many section headers there are.
    pub section_count: u16,
}

impl Layout {
    ghost use Rattle.irx_build.specs.Layouts.{layout_of};

    /// Lays out the file of a unit.
    pub fn of(unit: &AsmUnit) -> Layout
        requires { IsAccepted unit.now }
        ensures { result ≡ layout_of unit.now }
    {
        let info_size = NUMBERS_SIZE as u32 + unit.name.len() as u32 + 1;
        let image = INFO_PLACE + info_size.next_multiple_of(ALIGNMENT);
        let text_size = unit.text.len() as u32;
        let data_size = unit.data.len() as u32;
        let image_size = text_size + data_size;
        let entries = image + image_size.next_multiple_of(ALIGNMENT);
        let entries_size = ENTRY_SIZE * unit.relocations.len() as u32;
        let (sections, section_count) = if unit.relocations.is_empty() {
            (0, 0)
        } else {
            (entries + entries_size, SECTION_COUNT)
        };
        Layout {
            info_size,
            image,
            text_size,
            data_size,
            image_size,
            image_length: image_size + unit.bss,
            entries,
            entries_size,
            sections,
            section_count,
        }
    }
}
