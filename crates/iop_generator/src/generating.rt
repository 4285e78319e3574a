//! The module's unit and its file.

ghost use Rattle.std.specs.Prelude.{◌≡◌, ◌≤◌, IfOk, IsSome, Ok, Some, None, length};
ghost use Rattle.iop_asm.specs.Assembly.{assembled};
ghost use Rattle.irx_build.specs.Building.{refusal};
ghost use Rattle.irx_build.specs.Files.{file_of};
ghost use Rattle.iop_generator.specs.Sources.{source, file_of_source};

use crate::source::source;
use iop_asm::{AsmFault, AsmUnit, assemble};
use iop_base::MOST_WORKERS;
use irx_build::{BuildFault, build};
use std::alloc::{AllocError, Global};

/// The most bytes of the module's file.
pub const LONGEST_GENERATED: usize = 1_024;

/// Assembles the module. Its source has no bad line, and a file is built for its unit.
fn assemble_source(alloc: Global, workers: u32) -> Result<AsmUnit, AllocError>
    requires any { 1 ≤ workers }
    requires countable { workers ≤ MOST_WORKERS }
    ensures unit { IfOk result (λ unit. assembled (source workers) ≡ Ok unit) }
    ensures accepted { IfOk result (λ unit. refusal unit ≡ None) }
    ensures short { IfOk result (λ unit. length (file_of unit) ≤ LONGEST_GENERATED) }
{
    let text = source(alloc, workers)?;
    match assemble(alloc, text.as_str()) {
        Ok(unit) => Ok(unit),
        Err(AsmFault::Memory) => Err(AllocError),
        Err(AsmFault::Line { .. }) => unreachable!(),
    }
}

/// Builds the file of a unit that is not refused.
fn build_accepted(alloc: Global, unit: &AsmUnit) -> Result<Vec<u8>, AllocError>
    requires { refusal unit.now ≡ None }
    ensures { IfOk result (λ file. file.items ≡ file_of unit.now) }
{
    match build(alloc, unit) {
        Ok(file) => Ok(file),
        Err(BuildFault::Memory) => Err(AllocError),
        Err(BuildFault::Empty | BuildFault::Name | BuildFault::TooLong(_)) => unreachable!(),
    }
}

/// Makes the IRX file of this project's own test module for 1 to 250 workers: `workers` threads of
/// priority 20, which `main` creates and starts one after another. Each is given its number, 1 to
/// `workers`, adds it 1,000 times to a sum that all share, and then signals a counting semaphore.
/// `main` waits on the semaphore once for each thread, prints `workers N sum S` with both in
/// decimal, and returns 0. Where all additions count, `S` is `1000 * (1 + 2 + .. + workers)`.
///
/// The module is named `gen`, has version 1.1, and calls functions of `thbase`, `thsemap` and
/// `stdio`. Its file has at most 1,024 bytes.
///
/// `AllocError` stands for want of host memory: no bad line and no refusal can come.
pub fn generate(alloc: Global, workers: u32) -> Result<Vec<u8>, AllocError>
    requires any { 1 ≤ workers }
    requires countable { workers ≤ MOST_WORKERS }
    ensures builds { IsSome (file_of_source (source workers)) }
    ensures file { IfOk result (λ file. file_of_source (source workers) ≡ Some file.items) }
    ensures short { IfOk result (λ file. length file.items ≤ LONGEST_GENERATED) }
{
    let unit = assemble_source(alloc, workers)?;
    build_accepted(alloc, &unit)
}
