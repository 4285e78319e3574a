//! What a module tells of itself.

ghost use Rattle.std.specs.Prelude.{◌≤◌, length};
ghost use Rattle.irx_view.specs.declared.limits.TheConstants.{MOST_IMAGE};

use crate::entries::count_entries;
use crate::module::text_of;
use crate::names::{Name, Version};
use crate::parts::{Part, Parts};
use crate::relocation_type::RelocationType;
use crate::tables::{ExportTable, ImportTable};
use crate::text::Text;
use irx_elf::Irx;
use std::alloc::Global;
use std::io;
use std::io::Write;

/// Writes what a module tells of itself: its name, version, entry and `$gp`, its sizes, the tables
/// of its text, and how many relocation entries it has of each type.
pub fn write_information<W: Write>(alloc: Global, irx: &Irx<'_>, out: &mut W) -> io::Result<()>
    requires { length irx.now.image ≤ MOST_IMAGE }
{
    let text = text_of(alloc, irx)?;
    write_fields(irx, out)?;
    write_sizes(irx, out)?;
    write_tables(&text, out)?;
    write_entries(irx, out)
}

/// Writes the name of the module, its version and its addresses.
fn write_fields<W: Write>(irx: &Irx<'_>, out: &mut W) -> io::Result<()> {
    let info = irx.info();
    let name = Name(info.name);
    let version = Version(info.version);
    let entry = info.entry;
    let gp = info.gp;
    writeln!(out, "name     {name}")?;
    writeln!(out, "version  {version}")?;
    writeln!(out, "entry    {entry:08x}")?;
    writeln!(out, "$gp      {gp:08x}")
}

/// Writes the sizes of the module.
fn write_sizes<W: Write>(irx: &Irx<'_>, out: &mut W) -> io::Result<()> {
    let info = irx.info();
    let text = info.text_size;
    let data = info.data_size;
    let bss = info.bss_size;
    let image = irx.length();
    writeln!(out, "text     {text} bytes")?;
    writeln!(out, "data     {data} bytes")?;
    writeln!(out, "bss      {bss} bytes")?;
    writeln!(out, "image    {image} bytes")
}

/// Writes the tables of a text.
fn write_tables<W: Write>(text: &Text, out: &mut W) -> io::Result<()> {
    for (at, part) in Parts::new(text) {
        match part {
            Part::Import(table) => write_import(&table, out)?,
            Part::BadImport => writeln!(out, "import   bad at {at:08x}")?,
            Part::Export(table) => write_export(&table, out)?,
            Part::Word { .. } => {}
        }
    }
    Ok(())
}

/// Writes an import table: its library and the indices of its stubs.
fn write_import<W: Write>(table: &ImportTable<'_>, out: &mut W) -> io::Result<()> {
    let library = table.library();
    write!(out, "import   {library}, stubs")?;
    for number in 0..table.import.stubs {
        let (_, index) = table.stub(number);
        write!(out, " {index}")?;
    }
    out.write_all(b"\n")
}

/// Writes an export table: its library and how many functions it has.
fn write_export<W: Write>(table: &ExportTable<'_>, out: &mut W) -> io::Result<()> {
    let library = table.library;
    let count = table.count;
    writeln!(out, "export   {library}, functions {count}")
}

/// Writes how many relocation entries there are of each type that occurs.
fn write_entries<W: Write>(irx: &Irx<'_>, out: &mut W) -> io::Result<()> {
    for kind in RelocationType::ALL {
        let count = count_entries(&irx.relocations(), kind);
        if count > 0 {
            writeln!(out, "entries  {count} {}", kind.name())?;
        }
    }
    Ok(())
}
