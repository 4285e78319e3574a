//! The tables of a text. Places are those of the image, from 0 on.

ghost use Rattle.std.specs.Prelude.{◌≡◌, ◌+◌, ◌*◌, ◌%◌, ◌<◌, ◌≤◌, Some, IfSome, option_map, length};
ghost use Rattle.irx_tables.specs.Exports.{functions};
ghost use Rattle.irx_tables.specs.Imports.{table_at};
ghost use Rattle.irx_tables.specs.Results.{import_of};
ghost use Rattle.irx_tables.specs.declared.words.TheConstants.{HEADER_BYTES};
ghost use Rattle.irx_view.specs.declared.limits.TheConstants.{MOST_IMAGE};

use crate::limits::MOST_IMAGE;
use crate::names::Library;
use crate::text::Text;
use irx_tables::{
    HEADER_BYTES, Import, Next, export_word, exports_count, header, imports, stub, word,
};

/// An import table.
#[derive(Clone, Copy)]
pub(crate) struct ImportTable<'a> {
    text: &'a Text,
    /// What the table says, and where it stands.
    pub import: Import,
    ghost stands: { let table = table_at text.now.ram text.now.size import.at in
        option_map import_of table ≡ Some import },
    ghost aligned: { import.at % 4 ≡ 0 },
}

impl<'a> ImportTable<'a> {
    /// Reads the import table that starts at a place. None where none starts there, or where it is
    /// bad.
    pub fn read(text: &'a Text, at: u32) -> Option<Self>
        requires aligned { at % 4 ≡ 0 }
        requires inside { at ≤ text.now.size }
        ensures aligned { IfSome result (λ table. table.import.end % 4 ≡ 0) }
        ensures after { IfSome result (λ table. at < table.import.end) }
        ensures inside { IfSome result (λ table. table.import.end ≤ MOST_IMAGE) }
    {
        match imports(&text.ram, 0, text.size, at) {
            Next::Table(import) if import.at == at => Some(ImportTable { text, import }),
            _ => None,
        }
    }

    /// Tells its library, with the version that it asks for.
    pub fn library(&self) -> Library {
        Library {
            name: self.import.name,
            version: self.import.version,
        }
    }

    /// Reads the place and the index of a stub.
    pub fn stub(&self, number: u32) -> (u32, u16)
        requires { number < self.now.import.stubs }
    {
        stub(&self.text.ram, &self.import, number)
    }
}

/// An export table.
#[derive(Clone, Copy)]
pub(crate) struct ExportTable<'a> {
    text: &'a Text,
    /// The place of its first word.
    pub at: u32,
    /// Its library.
    pub library: Library,
    /// How many functions it has.
    pub count: u32,
    ghost aligned: { at % 4 ≡ 0 },
    ghost inside: { at + HEADER_BYTES + 4 * count ≤ MOST_IMAGE },
    ghost counted: { count ≡ length (functions text.now.ram at) },
}

impl<'a> ExportTable<'a> {
    /// Reads the export table at a place. None where no header of one stands there in the text.
    pub fn read(text: &'a Text, at: u32) -> Option<Self>
        requires aligned { at % 4 ≡ 0 }
        requires inside { at ≤ text.now.size }
        ensures at { IfSome result (λ table. table.at ≡ at) }
    {
        if text.size - at < HEADER_BYTES {
            return None;
        }
        let (name, version) = header(&text.ram, at)?;
        Some(ExportTable {
            text,
            at,
            library: Library { name, version },
            count: exports_count(&text.ram, at),
        })
    }

    /// Tells the place behind its functions, and behind the word 0 that follows them where one does.
    pub fn end(&self) -> u32
        ensures aligned { result % 4 ≡ 0 }
        ensures after { self.now.at < result }
        ensures inside { result ≤ MOST_IMAGE }
    {
        let end = self.at + HEADER_BYTES + 4 * self.count;
        if end < MOST_IMAGE && word(&self.text.ram, end) == 0 {
            end + 4
        } else {
            end
        }
    }

    /// Reads a function: the place of its word, and the word.
    pub fn function(&self, number: u32) -> (u32, u32)
        requires { number < self.now.count }
    {
        let function = export_word(&self.text.ram, self.at, number).unwrap();
        (self.at + HEADER_BYTES + 4 * number, function)
    }
}
