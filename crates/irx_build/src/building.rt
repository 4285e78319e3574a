ghost use Rattle.std.specs.Prelude.{◌≡◌, ◌^◌, ◌<◌, IfOk, OnOk, Ok, MatchResult, Some, None, vec_len};
ghost use Rattle.irx_elf.specs.Parts.{parts_or_rule};
ghost use Rattle.irx_build.specs.Building.{Gives, file_or_refusal, refusal, greater_size, IsAccepted};
ghost use Rattle.irx_build.specs.UnitParts.{unit_parts};

use crate::accepted_unit::AcceptedUnit;
use crate::build_fault::BuildFault;
use iop_asm::AsmUnit;
use iop_base::first_zero;
use irx_elf::format::ENTRY_SIZE;
use std::alloc::Global;

/// The fewest bytes of a text: an instruction's.
pub const SHORTEST_TEXT: usize = 4;

/// The most bytes of a name.
pub const LONGEST_NAME: usize = 255;

/// The most bytes of an image in memory, and of a unit's relocation entries.
pub const LARGEST_UNIT: u64 = 2_097_152;

/// Builds the IRX file of a unit: the file header, the program headers of the module information
/// and of the image, these two parts, and where there are relocation entries, these and two section
/// headers (ELF TIS 1.2, ps2sdk). It is what `irx_elf` reads back as the same unit.
///
/// The first of these is the answer where it holds, and otherwise the file.
///
/// - `Empty` exactly where the text is shorter than 4 bytes.
/// - `Name` exactly where the name holds a zero byte or is longer than 255 bytes.
/// - `TooLong` exactly where text, data and zero bytes together, or the relocation entries at 8
///   bytes each, are more than 2,097,152 bytes, with the greater of the two numbers, at most
///   2^64 - 1.
///
/// Or it answers `Memory`, which stands for want of host memory.
pub fn build(alloc: Global, unit: &AsmUnit) -> Result<Vec<u8>, BuildFault>
    ensures file { Gives result (file_or_refusal unit.now) }
    ensures parts { IfOk result (λ file. parts_or_rule file.items ≡ Ok (unit_parts unit.now)) }
    ensures short { IfOk result (λ file. vec_len file < 2 ^ 32) }
{
    check(unit)?;
    Ok(AcceptedUnit::of(unit).write_file(alloc)?)
}

/// Refuses a unit that no file is built for.
#[tactic(auto, unfolding(crate::specs::Building::refusal))]
fn check(unit: &AsmUnit) -> Result<(), BuildFault>
    ensures refusal { MatchResult result (λ _. refusal unit.now ≡ None)
        (λ fault. refusal unit.now ≡ Some fault) }
    ensures accepted { OnOk result (IsAccepted unit.now) }
{
    if unit.text.len() < SHORTEST_TEXT {
        return Err(BuildFault::Empty);
    }
    if first_zero(&unit.name).is_some() || unit.name.len() > LONGEST_NAME {
        return Err(BuildFault::Name);
    }
    let size = greater_size(unit);
    if size > LARGEST_UNIT {
        return Err(BuildFault::TooLong(size));
    }
    Ok(())
}

/// Tells how many bytes the image takes in memory, or the relocation entries in the file, whichever
/// is more. The sum stays at the greatest number of 64 bits.
fn greater_size(unit: &AsmUnit) -> u64
    ensures { result ≡ greater_size unit.now }
{
    let image = (unit.text.len() as u64)
        .saturating_add(unit.data.len() as u64)
        .saturating_add(u64::from(unit.bss));
    let entries = (unit.relocations.len() as u64).saturating_mul(u64::from(ENTRY_SIZE));
    image.max(entries)
}
