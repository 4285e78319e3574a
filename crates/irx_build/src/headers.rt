//! The headers of a file.

ghost use Rattle.std.specs.Prelude.{◌≡◌, ◌+◌, ◌++◌, ◌<◌, ◌^◌, OnOk};
ghost use Rattle.irx_build.specs.Files.{header_bytes, info_segment_bytes, image_segment_bytes, section_bytes};

use crate::layout::{ALIGNMENT, INFO_PLACE, Layout, SEGMENT_COUNT};
use crate::writing::{push_halves, push_words};
use irx_elf::format::{
    ENTRY_SIZE, FILE_HEADER_SIZE, IMAGE, IRX, MAGIC, MIPS, MODULE_INFO, RELOCATIONS, SECTION_SIZE,
    SEGMENT_SIZE,
};
use std::alloc::AllocError;

/// The version of ELF.
const VERSION: u8 = 1;

/// The flag of a part that may be read, `PF_R`.
const READ: u32 = 4;

/// The flag of a part that may be written, `PF_W`.
const WRITE: u32 = 2;

/// The flag of a part that may be executed, `PF_X`.
const EXECUTE: u32 = 1;

/// What the image's address is a multiple of.
const IMAGE_ALIGNMENT: u32 = 16;

/// The section that the relocation entries change: none, which stands for the whole image.
const WHOLE_IMAGE: u32 = 0;

/// How many words a section header has.
const SECTION_WORDS: usize = SECTION_SIZE as usize / 4;

/// Adds the file header of a module that is entered at a place.
#[tactic(auto, unfolding(crate::specs::Files::header_bytes))]
pub(crate) fn push_header(file: &mut Vec<u8>, entry: u32, layout: &Layout) -> Result<(), AllocError>
    ensures { OnOk result (file.new.items
        ≡ file.old.items ++ header_bytes entry layout.now.sections layout.now.section_count) }
{
    file.extend_from_slice(&MAGIC)?;
    file.extend_from_slice(&[VERSION, 0, 0, 0, 0, 0, 0, 0, 0, 0])?;
    push_halves(file, &[IRX, MIPS])?;
    // e_version, e_entry, e_phoff, e_shoff and e_flags
    push_words(
        file,
        &[
            VERSION as u32,
            entry,
            FILE_HEADER_SIZE as u32,
            layout.sections,
            0,
        ],
    )?;
    // e_ehsize, e_phentsize, e_phnum, e_shentsize, e_shnum and e_shstrndx
    push_halves(
        file,
        &[
            FILE_HEADER_SIZE as u16,
            SEGMENT_SIZE as u16,
            SEGMENT_COUNT,
            SECTION_SIZE as u16,
            layout.section_count,
            0,
        ],
    )
}

/// Adds the program header of the module information, which may be read.
#[tactic(auto, unfolding(crate::specs::Files::info_segment_bytes))]
pub(crate) fn push_info_segment(file: &mut Vec<u8>, layout: &Layout) -> Result<(), AllocError>
    ensures { OnOk result (file.new.items
        ≡ file.old.items ++ info_segment_bytes layout.now.info_size) }
{
    let size = layout.info_size;
    push_words(
        file,
        &[MODULE_INFO, INFO_PLACE, 0, 0, size, size, READ, ALIGNMENT],
    )
}

/// Adds the program header of the image, which may be read, written and executed.
#[tactic(auto, unfolding(crate::specs::Files::image_segment_bytes))]
pub(crate) fn push_image_segment(file: &mut Vec<u8>, layout: &Layout) -> Result<(), AllocError>
    ensures { OnOk result (file.new.items ≡ file.old.items
        ++ image_segment_bytes layout.now.image layout.now.image_size layout.now.image_length) }
{
    push_words(
        file,
        &[
            IMAGE,
            layout.image,
            0,
            0,
            layout.image_size,
            layout.image_length,
            READ + WRITE + EXECUTE,
            IMAGE_ALIGNMENT,
        ],
    )
}

/// Adds a section header of no type, and that of the relocation entries, which change the image.
#[tactic(auto, unfolding(crate::specs::Files::section_bytes))]
pub(crate) fn push_sections(file: &mut Vec<u8>, layout: &Layout) -> Result<(), AllocError>
    ensures { OnOk result (file.new.items ≡ file.old.items
        ++ section_bytes layout.now.entries layout.now.entries_size) }
{
    push_words(file, &[0; SECTION_WORDS])?;
    push_words(
        file,
        &[
            0,
            RELOCATIONS,
            0,
            0,
            layout.entries,
            layout.entries_size,
            0,
            WHOLE_IMAGE,
            ALIGNMENT,
            ENTRY_SIZE,
        ],
    )
}
