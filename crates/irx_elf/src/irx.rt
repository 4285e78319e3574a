ghost use Rattle.std.specs.Prelude.{◌≡◌, ◌^◌, ◌<◌, IfOk, IfErr, OnOk, Some, None, option_map, length};
ghost use Rattle.irx_info.specs.Information.{information_of};
ghost use Rattle.irx_elf.specs.Rules.{image_segment, information_at, module_information, segment_rules, section_rules, first_unmet, TellsUnmet};
ghost use Rattle.irx_elf.specs.Parts.{IsSound, lists_of, parts_of, parts_or_rule};

use crate::format::{IMAGE, MODULE_INFO};
use crate::irx_file::IrxFile;
use crate::reading::{demand, part_at};
use crate::relocations::Relocations;
use crate::segment::Segment;
use iop_base::Illegal;
use irx_info::{Info, read_info};
use std::marker::Model;

/// What an IRX file consists of, lent from its bytes.
#[derive(Drop)]
pub struct Irx<'a> {
    image: &'a [u8],
    length: u32,
    info: Info<'a>,
    relocations: Relocations<'a>,
}

impl<'a> Model for Irx<'a> {
    ghost use Rattle.irx_elf.specs.Parts.{Parts};

    ghost Value = { Parts };

    ghost use Rattle.irx_elf.specs.Lent.{parts_inside, HasSoundParts};

    ghost view = { parts_inside };

    ghost invariant = { HasSoundParts };
}

impl<'a> Irx<'a> {
    /// Reads an IRX file, which is shorter than 2^32 bytes.
    ///
    /// `Illegal` exactly where a rule is not met, with the number of the first such rule and a
    /// place in the file. The rules are those of ELF TIS 1.2 and of ps2sdk's IRX files; their order
    /// and places are this project's profile. Sums do not wrap.
    ///
    /// 1. The file has 52 bytes; place 0.
    /// 2. It begins with 7F 45 4C 46 01 01; place 0.
    /// 3. `e_type` is 0xFF80; place 16.
    /// 4. `e_machine` is 8; place 18.
    /// 5. `e_phentsize` is 32, and the program headers lie in the file; place 42.
    /// 6. There is a program header of type 0x70000080; place 44. The first is taken.
    /// 7. There is a program header of type 1; place 44. The first is taken.
    /// 8. The part of the header of rule 6 lies in the file, and is module information: it has 27
    ///    bytes, and a zero byte from place 26 on; the place of that header.
    /// 9. The part of the header of rule 7 lies in the file; the place of that header.
    /// 10. The text has 4 bytes or more, and not more than the part of rule 9. That part has not
    ///     more than the image's length, which is below 2^31; the place of the header of rule 7.
    /// 11. There are no section headers, or `e_shentsize` is 40 and they lie in the file; place 46.
    /// 12. Each section of type 9 lies in the file, its size is a multiple of 8, and its `sh_info`
    ///     is below `e_shnum`; the place of that section's header.
    pub fn parse(file: &'a [u8]) -> Result<Irx<'a>, Illegal>
        requires { length file.now < 2 ^ 32 }
        ensures parts { result ≡ parts_or_rule file.now }
        ensures sound { IfOk result IsSound }
    {
        let irx_file = IrxFile::parse(file)?;
        let (info, image) = find_parts(&irx_file)?;
        let relocations = Relocations::read(&irx_file)?;
        Ok(Irx::lend(&irx_file, &info, &image, relocations))
    }

    /// Lends the parts of a file that meets the rules.
    fn lend(
        file: &IrxFile<'a>,
        info: &Info<'a>,
        image: &Segment,
        relocations: Relocations<'a>,
    ) -> Irx<'a>
        requires segments { first_unmet (segment_rules file.now.bytes.now) ≡ None }
        requires sections { first_unmet (section_rules file.now.bytes.now) ≡ None }
        requires info { information_of info.now ≡ module_information file.now.bytes.now }
        requires image { image.now ≡ image_segment file.now.bytes.now }
        requires lists { relocations ≡ lists_of file.now.bytes.now }
        ensures { result ≡ parts_of file.now.bytes.now }
    {
        Irx {
            image: part_at(file.bytes, image.offset, image.file_size).unwrap(),
            length: image.image_length(info) as u32,
            info: *info,
            relocations,
        }
    }

    /// Lends the image's bytes in the file. In memory zeros follow them, up to the image's length.
    pub fn image(&self) -> &'a [u8]
        ensures bytes { result.now ≡ self.now.image }
        ensures sound { IsSound self.now }
    {
        self.image
    }

    /// Tells how many bytes the image takes in memory: the greater of `p_memsz` and the sum of
    /// text, data and zero bytes. It is below 2^31, and not less than the image's bytes in the
    /// file.
    pub fn length(&self) -> u32
        ensures length { result ≡ self.now.length }
        ensures sound { IsSound self.now }
    {
        self.length
    }

    /// Gives the module information, whose name stands in the file.
    pub fn info(&self) -> Info<'a>
        ensures info { information_of result ≡ self.now.info }
        ensures sound { IsSound self.now }
    {
        self.info
    }

    /// Lends the lists of relocation entries.
    pub fn relocations(&self) -> Relocations<'a>
        ensures lists { result ≡ self.now.lists }
        ensures sound { IsSound self.now }
    {
        self.relocations.again()
    }
}

/// Finds the module information, and the program header of the image: rules 6 to 10.
#[tactic(auto, unfolding(crate::specs::Rules::segment_rules))]
fn find_parts<'a>(file: &IrxFile<'a>) -> Result<(Info<'a>, Segment), Illegal>
    ensures unmet { TellsUnmet (segment_rules file.now.bytes.now) result }
    ensures info { IfOk result (λ parts.
        information_of parts.0 ≡ module_information file.now.bytes.now) }
    ensures image { IfOk result (λ parts. parts.1 ≡ image_segment file.now.bytes.now) }
{
    let part = file
        .find_segment(MODULE_INFO)
        .ok_or(Illegal { rule: 6, at: 44 })?;
    let image = file.find_segment(IMAGE).ok_or(Illegal { rule: 7, at: 44 })?;
    let info = read_part(file.bytes, &part).ok_or(Illegal {
        rule: 8,
        at: part.at,
    })?;
    demand(
        part_at(file.bytes, image.offset, image.file_size).is_some(),
        9,
        image.at,
    )?;
    demand(image.has_sizes(&info), 10, image.at)?;
    Ok((info, image))
}

/// Reads the module information in the part of a program header.
fn read_part<'a>(file: &'a [u8], segment: &Segment) -> Option<Info<'a>>
    ensures { option_map information_of result ≡ information_at file.now segment.now }
{
    read_info(part_at(file, segment.offset, segment.file_size)?)
}
