//! The module of a file.

ghost use Rattle.std.specs.Prelude.{◌≡◌, ◌^◌, ◌<◌, ◌≤◌, IfOk, length};
ghost use Rattle.irx_elf.specs.Parts.{IsSound};
ghost use Rattle.irx_view.specs.Modules.{module_or_rule};
ghost use Rattle.irx_view.specs.Texts.{image_memory, bad_import};
ghost use Rattle.irx_view.specs.declared.limits.TheConstants.{MOST_IMAGE};

use crate::text::Text;
use iop_base::Illegal;
use irx_elf::Irx;
use irx_reloc::check;
use std::alloc::{AllocError, Global};

/// Reads the module of a file. `Illegal` exactly where the file breaks a rule of IRX files
/// (`Irx::parse`), or one of its relocation entries a rule of its own (`check`): the first of
/// these.
pub fn read_module<'a>(file: &'a [u8]) -> Result<Irx<'a>, Illegal>
    requires { length file.now < 2 ^ 32 }
    ensures module { result ≡ module_or_rule file.now }
    ensures sound { IfOk result IsSound }
    ensures short { IfOk result (λ irx. length irx.image ≤ length file.now) }
{
    let irx = Irx::parse(file)?;
    check(irx.length(), irx.relocations())?;
    Ok(irx)
}

/// Takes the text of a module.
pub(crate) fn text_of(alloc: Global, irx: &Irx<'_>) -> Result<Text, AllocError>
    requires { length irx.now.image ≤ MOST_IMAGE }
    ensures memory { IfOk result (λ text. text.ram ≡ image_memory irx.now.image) }
    ensures size { IfOk result (λ text. text.size ≡ irx.now.info.text_size) }
{
    Text::new(alloc, irx.image(), irx.info().text_size)
}

/// Finds the place of the bad import table of a module's text, as it stands in the file: that at
/// which the linker's search stops. The loader links the text once it is relocated, so it refuses
/// such a module, unless a relocation entry changes a word of the table, or one in front of it.
pub fn bad_import(alloc: Global, irx: &Irx<'_>) -> Result<Option<u32>, AllocError>
    requires { length irx.now.image ≤ MOST_IMAGE }
    ensures { IfOk result (λ place. place ≡ bad_import irx.now) }
{
    Ok(text_of(alloc, irx)?.bad_import())
}
