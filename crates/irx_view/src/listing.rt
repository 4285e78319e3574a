//! The text of a module as a listing.

ghost use Rattle.std.specs.Prelude.{◌≤◌, length};
ghost use Rattle.irx_view.specs.declared.limits.TheConstants.{MOST_IMAGE};

use crate::entries::Marks;
use crate::module::text_of;
use crate::parts::{Part, Parts};
use crate::tables::{ExportTable, ImportTable};
use iop_disasm::{inst_text, read_too_soon};
use irx_elf::Irx;
use std::alloc::Global;
use std::io;
use std::io::Write;

/// Writes the text of a module as it stands in the file: a line for each table, each stub, each
/// function and each word that is of no table. A line begins with its place in the image. Remarks
/// end it: the type of a relocation entry at a word or a function, and the register that a word
/// loads and the one behind it reads.
pub fn write_listing<W: Write>(alloc: Global, irx: &Irx<'_>, out: &mut W) -> io::Result<()>
    requires { length irx.now.image ≤ MOST_IMAGE }
{
    let text = text_of(alloc, irx)?;
    let marks = Marks::new(alloc, &irx.relocations(), irx.image().len() / 4)?;
    for (at, part) in Parts::new(&text) {
        marks.write_part(at, &part, out)?;
    }
    Ok(())
}

impl Marks {
    /// Writes the lines of a part.
    fn write_part<W: Write>(&self, at: u32, part: &Part<'_>, out: &mut W) -> io::Result<()> {
        match part {
            Part::Import(table) => write_import(table, out),
            Part::BadImport => writeln!(out, "{at:08x}: bad import table"),
            Part::Export(table) => self.write_export(table, out),
            Part::Word { word, next } => self.write_word(at, *word, *next, out),
        }
    }

    /// Writes the lines of an export table.
    fn write_export<W: Write>(&self, table: &ExportTable<'_>, out: &mut W) -> io::Result<()> {
        let at = table.at;
        let library = table.library;
        writeln!(out, "{at:08x}: export {library}")?;
        for number in 0..table.count {
            let (place, function) = table.function(number);
            write!(out, "{place:08x}:   function {number} at {function:08x}")?;
            self.write_entry(place, out)?;
            out.write_all(b"\n")?;
        }
        Ok(())
    }

    /// Writes the line of a word, behind which the text may have another.
    fn write_word<W: Write>(
        &self,
        at: u32,
        word: u32,
        next: Option<u32>,
        out: &mut W,
    ) -> io::Result<()> {
        write!(out, "{at:08x}: {word:08x} ")?;
        out.write_all(&inst_text(word, at))?;
        self.write_entry(at, out)?;
        write_read_too_soon(word, next, out)?;
        out.write_all(b"\n")
    }

    /// Writes the remark on the relocation entry at a place, where there is one: its type.
    fn write_entry<W: Write>(&self, at: u32, out: &mut W) -> io::Result<()> {
        match self.at(at) {
            Some(kind) => write!(out, " ; {}", kind.name()),
            None => Ok(()),
        }
    }
}

/// Writes the remark on the register that a word loads and the next one reads, where there is one.
fn write_read_too_soon<W: Write>(word: u32, next: Option<u32>, out: &mut W) -> io::Result<()> {
    match next.and_then(|next| read_too_soon(word, next)) {
        Some(reg) => write!(out, " ; the next word reads ${} too soon", reg.number()),
        None => Ok(()),
    }
}

/// Writes the lines of an import table.
fn write_import<W: Write>(table: &ImportTable<'_>, out: &mut W) -> io::Result<()> {
    let at = table.import.at;
    let library = table.library();
    writeln!(out, "{at:08x}: import {library}")?;
    for number in 0..table.import.stubs {
        let (place, index) = table.stub(number);
        writeln!(out, "{place:08x}:   stub {index}")?;
    }
    Ok(())
}
