//! What is made: the file of a source, and the image of a module.

ghost use Rattle.std.specs.Prelude.{◌≡◌, ◌≤◌, IfOk, IsOkAnd, Ok, length};
ghost use Rattle.iop_asm.specs.Assembly.{assembled};
ghost use Rattle.iop_modload.specs.Modules.{module_of_file};
ghost use Rattle.iop_modload.specs.declared.limits.TheConstants.{LONGEST_FILE};
ghost use Rattle.irx_build.specs.Building.{file_or_refusal};

use crate::files::{read_file, write_output};
use anyhow::{Result, bail};
use iop_asm::assemble;
use iop_modload::{LONGEST_FILE, ModuleFile};
use irx_build::build;
use irx_view::{Reason, read_module};
use std::alloc::Global;
use std::str;

/// Makes the IRX file of a module's source. The name tells which source has a bad line.
fn module_file(alloc: Global, name: &str, source: &str) -> Result<Vec<u8>>
    ensures { IfOk result (λ file. IsOkAnd (assembled source.now)
        (λ unit. file_or_refusal unit ≡ Ok file.items)) }
{
    match assemble(alloc, source) {
        Ok(unit) => Ok(build(alloc, &unit)?),
        Err(fault) => bail!("{name}: {fault}"),
    }
}

/// Writes the IRX file of a module's source, which has as many bytes as a module's file at most.
pub(crate) fn write_module(rt: &HostRuntime, name: &str, output: Option<&str>) -> Result<()> {
    let bytes = read_file(rt, name, LONGEST_FILE)?;
    let Ok(source) = str::from_utf8(&bytes) else {
        bail!("{name} is no UTF-8 text");
    };
    let file = module_file(rt.alloc(), name, source)?;
    write_output(rt, output, &file)
}

/// Reads the module of a file as the loader does. The name tells which file breaks a rule.
fn loadable_module<'a>(name: &str, file: &'a [u8]) -> Result<ModuleFile<'a>>
    requires { length file.now ≤ LONGEST_FILE }
    ensures { IfOk result (λ parts. module_of_file file.now ≡ Ok parts) }
{
    match ModuleFile::parse(file) {
        Ok(module) => Ok(module),
        Err(_) => bail!("{name} {}", Reason(read_module(file).unwrap_err())),
    }
}

/// Writes the image of a module, relocated for an address.
pub(crate) fn write_image(
    rt: &HostRuntime,
    name: &str,
    base: u32,
    output: Option<&str>,
) -> Result<()> {
    let file = read_file(rt, name, LONGEST_FILE)?;
    let module = loadable_module(name, &file)?;
    let mut image = vec![in rt.alloc(); 0; module.length() as usize]?;
    module.write_image(&mut image, base);
    write_output(rt, output, &image)
}
