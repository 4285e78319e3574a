//! The text of a module, looked at as it stands in the file.

ghost use Rattle.std.specs.Prelude.{◌≡◌, ◌+◌, ◌%◌, ◌≤◌, IfOk, length};
ghost use Rattle.irx_tables.specs.Imports.{tables_of};
ghost use Rattle.irx_view.specs.Texts.{image_memory};
ghost use Rattle.irx_view.specs.declared.limits.TheConstants.{MOST_IMAGE};

use crate::limits::MOST_IMAGE;
use iop_base::IMPORT_MAGIC;
use iop_ram::Ram;
use irx_tables::{Next, imports, word};
use std::alloc::{AllocError, Global};

/// The text of a module, in memory that holds the module's image from 0 on.
#[derive(Drop)]
pub(crate) struct Text {
    /// The image, and zeros behind it.
    pub ram: Ram,
    /// How many bytes the text has.
    pub size: u32,
    ghost room: { length ram ≡ MOST_IMAGE },
    ghost inside: { size ≤ MOST_IMAGE },
}

impl Text {
    /// Takes an image, of which so many bytes are the text.
    pub fn new(alloc: Global, image: &[u8], size: u32) -> Result<Self, AllocError>
        requires room { length image.now ≤ MOST_IMAGE }
        requires inside { size ≤ length image.now }
        ensures memory { IfOk result (λ text. text.ram ≡ image_memory image.now) }
        ensures size { IfOk result (λ text. text.size ≡ size) }
    {
        let mut ram = Ram::new(alloc, MOST_IMAGE)?;
        ram.store_bytes(0, image).unwrap();
        Ok(Text { ram, size })
    }

    /// Reads the word at a place of the text.
    pub fn word(&self, at: u32) -> u32
        requires aligned { at % 4 ≡ 0 }
        requires inside { at + 4 ≤ self.now.size }
    {
        word(&self.ram, at)
    }

    /// Reads the word behind the one at a place, if the text has one.
    pub fn word_behind(&self, at: u32) -> Option<u32>
        requires aligned { at % 4 ≡ 0 }
        requires inside { at + 4 ≤ self.now.size }
    {
        if self.size - at >= 8 {
            Some(self.word(at + 4))
        } else {
            None
        }
    }

    /// Tells whether an import table starts at a place.
    pub fn starts_import(&self, at: u32) -> bool
        requires aligned { at % 4 ≡ 0 }
        requires inside { at + 4 ≤ self.now.size }
    {
        self.word(at) == IMPORT_MAGIC && self.size - at >= 8 && self.word(at + 4) == 0
    }

    /// Finds the place of the bad import table, as the linker does: it goes from table to table, and
    /// any two words between them can be a start.
    pub fn bad_import(&self) -> Option<u32>
        ensures { result ≡ (tables_of self.now.ram 0 self.now.size).bad }
    {
        let mut scan = 0;
        loop {
            match imports(&self.ram, 0, self.size, scan) {
                Next::Table(import) => scan = import.end,
                Next::End => return None,
                Next::Bad(at) => return Some(at),
            }
        }
    }
}
