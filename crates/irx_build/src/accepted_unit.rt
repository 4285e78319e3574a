ghost use Rattle.std.specs.Prelude.{◌≡◌, ◌++◌, OnOk};
ghost use Rattle.std.specs.List.{flat_map};
ghost use Rattle.irx_info.specs.Information.{information_of};
ghost use Rattle.irx_build.specs.Building.{IsAccepted, HasNumbers};
ghost use Rattle.irx_build.specs.Files.{entry_bytes, info_bytes};
ghost use Rattle.irx_build.specs.Layouts.{layout_of};

use crate::headers::{push_header, push_image_segment, push_info_segment, push_sections};
use crate::layout::Layout;
use crate::writing::{push_halves, push_padding, push_words};
use iop_asm::{AsmUnit, Relocation};
use irx_info::Info;
use std::alloc::{AllocError, Global};

/// The id word of module information, which is not used.
const ID: u32 = 0xFFFF_FFFF;

/// A unit that is not refused, with the places of its file's parts.
#[derive(Clone, Copy)]
pub(crate) struct AcceptedUnit<'a> {
    unit: &'a AsmUnit,
    layout: Layout,
    ghost accepted: { IsAccepted unit.now },
    ghost places: { layout ≡ layout_of unit.now },
}

impl<'a> AcceptedUnit<'a> {
    ghost use Rattle.std.specs.Prelude.{IfOk};
    ghost use Rattle.irx_build.specs.Files.{info_of, headers_part, entries_part, file_of};

    /// Lays out the file of a unit.
    pub fn of(unit: &'a AsmUnit) -> Self
        requires { IsAccepted unit.now }
        ensures { result.unit.now ≡ unit.now }
    {
        AcceptedUnit {
            unit,
            layout: Layout::of(unit),
        }
    }

    /// Writes the file.
    #[tactic(auto, unfolding(crate::specs::Files::file_of))]
    pub fn write_file(&self, alloc: Global) -> Result<Vec<u8>, AllocError>
        ensures file { IfOk result (λ file. file.items ≡ file_of self.now.unit.now) }
        ensures numbers { OnOk result (HasNumbers (info_of self.now.unit.now)) }
    {
        let unit = self.unit;
        let mut file = Vec::new(alloc);
        self.push_headers(&mut file)?;
        push_info(&mut file, &self.info())?;
        push_padding(&mut file, self.layout.info_size)?;
        file.extend_from_slice(&unit.text)?;
        file.extend_from_slice(&unit.data)?;
        self.push_entries_part(&mut file)?;
        Ok(file)
    }

    /// Adds the file header and the program headers.
    fn push_headers(&self, file: &mut Vec<u8>) -> Result<(), AllocError>
        ensures { OnOk result (file.new.items ≡ file.old.items ++ headers_part self.now.unit.now) }
    {
        let unit = self.unit;
        push_header(file, unit.entry, &self.layout)?;
        push_info_segment(file, &self.layout)?;
        push_image_segment(file, &self.layout)
    }

    /// Says of the module what its file says.
    fn info(&self) -> Info<'a>
        ensures { information_of result ≡ info_of self.now.unit.now }
    {
        let unit = self.unit;
        Info {
            id: ID,
            entry: unit.entry,
            gp: unit.gp,
            text_size: self.layout.text_size,
            data_size: self.layout.data_size,
            bss_size: unit.bss,
            version: unit.version,
            name: &unit.name,
        }
    }

    /// Adds the relocation entries and the section headers, nothing where there are no entries.
    fn push_entries_part(&self, file: &mut Vec<u8>) -> Result<(), AllocError>
        ensures { OnOk result (file.new.items ≡ file.old.items ++ entries_part self.now.unit.now) }
    {
        let unit = self.unit;
        if unit.relocations.is_empty() {
            return Ok(());
        }
        push_padding(file, self.layout.image_size)?;
        push_entries(file, &unit.relocations)?;
        push_sections(file, &self.layout)
    }
}

/// Adds the module information.
#[tactic(auto, unfolding(crate::specs::Files::info_bytes))]
fn push_info(file: &mut Vec<u8>, info: &Info) -> Result<(), AllocError>
    ensures items { OnOk result (file.new.items
        ≡ file.old.items ++ info_bytes (information_of info.now)) }
    ensures numbers { HasNumbers (information_of info.now) }
{
    push_words(
        file,
        &[
            info.id,
            info.entry,
            info.gp,
            info.text_size,
            info.data_size,
            info.bss_size,
        ],
    )?;
    push_halves(file, &[info.version])?;
    file.extend_from_slice(info.name)?;
    file.push(0)?;
    Ok(())
}

/// Adds relocation entries, 8 bytes each.
fn push_entries(file: &mut Vec<u8>, entries: &[Relocation]) -> Result<(), AllocError>
    ensures { OnOk result (file.new.items ≡ file.old.items ++ flat_map entry_bytes entries.now) }
{
    for entry in entries {
        push_words(file, &[entry.site, u32::from(entry.kind)])?;
    }
    Ok(())
}
