//! What is told of a file.

ghost use Rattle.std.specs.Prelude.{◌≡◌, ◌≤◌, IfOk, Ok, length};
ghost use Rattle.irx_view.specs.Modules.{module_or_rule};
ghost use Rattle.iop_modload.specs.declared.limits.TheConstants.{LONGEST_FILE};

use crate::files::read_file;
use crate::numbers::FIRST_BASE;
use anyhow::{Result, bail, ensure};
use iop_base::SMALL_RAM;
use iop_disasm::listing;
use iop_modload::LONGEST_FILE;
use iop_ports::StreamSink;
use iop_ram::Ram;
use irx_elf::Irx;
use irx_view::{Reason, bad_import, read_module, write_information, write_listing};
use std::io::{BufWriter, Write};
use std::process::ExitCode;

/// How many bytes of memory the words of a raw file are listed in: 2 MiB.
const LISTED_MEMORY: u32 = SMALL_RAM;

/// The most bytes that a raw file may have.
const LONGEST_RAW: u32 = 65_536;

/// The status of a check where each file is a module.
const ALL_MODULES: u8 = 0;

/// The status of a check where a file is no module.
const NO_MODULE: u8 = 1;

/// The status of a check where a file could not be looked at.
const NO_ANSWER: u8 = 2;

/// Reads the module of a file. The name tells which file breaks a rule.
pub(crate) fn module_of<'a>(name: &str, file: &'a [u8]) -> Result<Irx<'a>>
    requires { length file.now ≤ LONGEST_FILE }
    ensures module { IfOk result (λ irx. module_or_rule file.now ≡ Ok irx) }
    ensures short { IfOk result (λ irx. length irx.image ≤ LONGEST_FILE) }
{
    match read_module(file) {
        Ok(irx) => Ok(irx),
        Err(illegal) => bail!("{name} {}", Reason(illegal)),
    }
}

/// Tells of each file whether it is a module, or which rule it breaks. What keeps it from telling so
/// is written to standard error.
pub(crate) fn check_files(rt: &HostRuntime, names: &[&str]) -> Result<ExitCode> {
    let mut status = ALL_MODULES;
    for name in names {
        match check_file(rt, name) {
            Ok(true) => {}
            Ok(false) => status = status.max(NO_MODULE),
            Err(error) => {
                eprintln!(rt; "Error: {error}")?;
                status = NO_ANSWER;
            }
        }
    }
    Ok(ExitCode::from(status))
}

/// Tells whether a file is a module, or which rule it breaks.
fn check_file(rt: &HostRuntime, name: &str) -> Result<bool> {
    let file = read_file(rt, name, LONGEST_FILE)?;
    match read_module(&file) {
        Ok(irx) => check_imports(rt, name, &irx),
        Err(illegal) => {
            let reason = Reason(illegal);
            println!(rt; "{name} {reason}")?;
            Ok(false)
        }
    }
}

/// Tells whether the import tables of a module are whole.
fn check_imports(rt: &HostRuntime, name: &str, irx: &Irx<'_>) -> Result<bool>
    requires { length irx.now.image ≤ LONGEST_FILE }
{
    match bad_import(rt.alloc(), irx)? {
        Some(at) => {
            println!(rt; "{name} has a bad import table at {at:08x} of the image")?;
            Ok(false)
        }
        None => {
            println!(rt; "{name} is a module")?;
            Ok(true)
        }
    }
}

/// Writes what a module says of itself.
pub(crate) fn write_info(rt: &HostRuntime, name: &str) -> Result<()> {
    let file = read_file(rt, name, LONGEST_FILE)?;
    let irx = module_of(name, &file)?;
    let mut out = BufWriter::new(rt.alloc(), rt.stdout())?;
    write_information(rt.alloc(), &irx, &mut out)?;
    out.flush()?;
    Ok(())
}

/// Writes a listing of a module's text.
pub(crate) fn list_module(rt: &HostRuntime, name: &str) -> Result<()> {
    let file = read_file(rt, name, LONGEST_FILE)?;
    let irx = module_of(name, &file)?;
    let mut out = BufWriter::new(rt.alloc(), rt.stdout())?;
    write_listing(rt.alloc(), &irx, &mut out)?;
    out.flush()?;
    Ok(())
}

/// Writes the texts of the words of a raw file, as they stand where the first module is loaded.
pub(crate) fn list_words(rt: &HostRuntime, name: &str) -> Result<()> {
    let file = read_file(rt, name, LONGEST_RAW)?;
    let mut ram = Ram::new(rt.alloc(), LISTED_MEMORY)?;
    let words = (file.len() / 4) as u32;
    let is_stored = ram.store_bytes(FIRST_BASE, &file).is_ok();
    ensure!(is_stored, "{name} has no room in memory");
    let mut lines = StreamSink::new(rt.stdout());
    let is_written = listing(&ram, FIRST_BASE, words, &mut lines).is_ok();
    ensure!(is_written, "standard output takes no more");
    Ok(())
}
