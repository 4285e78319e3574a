ghost use Rattle.std.specs.Prelude.{◌≡◌, ◌-◌, ◌^◌, ◌<◌, ◌≤◌, ◌++◌, IfOk, length, replicate};
ghost use Rattle.irx_info.specs.Information.{information_of};
ghost use Rattle.irx_elf.specs.Parts.{IsSound};
ghost use Rattle.iop_modload.specs.Modules.{image_at, module_of_file};

use crate::image::Image;
use iop_base::Code;
use irx_elf::Irx;
use irx_info::Info;
use irx_reloc::{Checked, check, relocate};
use std::marker::Model;

/// The file of a module that can be loaded: it meets the rules of IRX files, and its relocation
/// entries fit its image.
#[derive(Drop)]
pub struct ModuleFile<'a> {
    irx: Irx<'a>,
    checked: Checked<'a>,
}

impl<'a> Model for ModuleFile<'a> {
    ghost use Rattle.std.specs.Prelude.{◌≡◌};
    ghost use Rattle.irx_elf.specs.Parts.{Parts};
    ghost use Rattle.irx_reloc.specs.Entries.{all_entries};
    ghost use Rattle.irx_reloc.specs.Fitting.{fitting_entries};

    ghost Value = { Parts };

    ghost view = { λ file. file.irx };

    ghost invariant = { λ file.
        file.checked ≡ fitting_entries file.irx.length (all_entries file.irx.lists) };
}

impl<'a> ModuleFile<'a> {
    /// Reads the file of a module, which is shorter than 2^32 bytes. `ILLEGAL_OBJECT` exactly where it
    /// breaks a rule of IRX files (`Irx::parse`), or one of its relocation entries a rule of its own
    /// (`check`).
    pub fn parse(file: &'a [u8]) -> Result<ModuleFile<'a>, Code>
        requires { length file.now < 2 ^ 32 }
        ensures parts { result ≡ module_of_file file.now }
        ensures sound { IfOk result IsSound }
    {
        let Ok(irx) = Irx::parse(file) else {
            return Err(Code::ILLEGAL_OBJECT);
        };
        let Ok(checked) = check(irx.length(), irx.relocations()) else {
            return Err(Code::ILLEGAL_OBJECT);
        };
        Ok(ModuleFile { irx, checked })
    }

    /// Tells how many bytes the module's image takes in memory.
    pub fn length(&self) -> u32
        ensures length { result ≡ self.now.length }
        ensures sound { IsSound self.now }
    {
        self.irx.length()
    }

    /// Gives the module information.
    pub fn info(&self) -> Info<'a>
        ensures info { information_of result ≡ self.now.info }
        ensures sound { IsSound self.now }
    {
        self.irx.info()
    }

    /// Writes the image into memory of its length, relocated for the address `base`: the bytes of the
    /// file's `PT_LOAD` part, then zeros.
    pub fn write_image(&self, memory: &mut [u8], base: u32)
        requires { length memory.old ≡ self.now.length }
        ensures { memory.new ≡ image_at self.now base }
    {
        fill_up(memory, self.irx.image());
        relocate(memory, &self.checked, base);
    }
}

impl<'a> Image for ModuleFile<'a> {
    ghost length_of = { λ parts. parts.length };

    ghost image_for = { image_at };

    fn write(&self, memory: &mut [u8], base: u32) {
        self.write_image(memory, base);
    }
}

/// Copies bytes into the front of memory, and writes zeros behind them.
fn fill_up(memory: &mut [u8], bytes: &[u8])
    requires { length bytes.now ≤ length memory.old }
    ensures { memory.new ≡ bytes.now ++ replicate (length memory.old - length bytes.now) 0 }
{
    let (front, back) = memory.split_at_mut(bytes.len());
    front.copy_from_slice(bytes);
    back.fill(0);
}
