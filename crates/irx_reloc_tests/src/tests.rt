ghost use Rattle.std.specs.Prelude.{◌≤◌};

use iop_asm::{AsmUnit, Relocation};
use iop_base::Illegal;
use irx_build::build;
use irx_elf::Irx;
use irx_elf::format::{ENTRY_SIZE, RELOCATIONS, SECTION_SIZE};
use irx_reloc::{check, relocate};
use std::alloc::{AllocError, Global};
use std::process::Abort;
use std::test::Fail;

/// How many section headers a built file with relocation entries has.
const SECTION_COUNT: u32 = 2;

/// How many bytes they have, which stand at the end of the file.
const SECTIONS_SIZE: u32 = SECTION_COUNT * SECTION_SIZE;

/// Gives the relocation entry of a site and a type.
fn entry(site: u32, kind: u8) -> Relocation {
    Relocation { site, kind }
}

/// Adds words, the lowest byte of each first.
fn push_words(bytes: &mut Vec<u8>, words: &[u32]) -> Result<(), AllocError> {
    for word in words {
        bytes.extend_from_slice(&word.to_le_bytes())?;
    }
    Ok(())
}

/// Gives the bytes of words.
fn bytes_of(alloc: Global, words: &[u32]) -> Result<Vec<u8>, AllocError> {
    let mut bytes = Vec::new(alloc);
    push_words(&mut bytes, words)?;
    Ok(bytes)
}

/// Makes the IRX file of a module with this text and these relocation entries.
fn file_of(alloc: Global, text: &[u32], entries: &[Relocation]) -> Result<Vec<u8>, Fail> {
    let unit = AsmUnit {
        name: Vec::new(alloc),
        version: 0x0101,
        entry: 0,
        gp: 0,
        text: bytes_of(alloc, text)?,
        data: Vec::new(alloc),
        bss: 0,
        relocations: entries.to_vec(alloc)?,
    };
    Ok(build(alloc, &unit)?)
}

/// Gives the last relocation entry of a built file a symbol, which its last three bytes hold.
fn set_symbol(rt: &impl Abort, file: &mut [u8]) {
    assert!(rt; file.len() >= 100);
    let end = file.len() - SECTIONS_SIZE as usize;
    file[end - 3] = 1;
}

/// Adds the header of a section of relocation entries, which stand between two places.
fn push_section(file: &mut Vec<u8>, start: u32, end: u32) -> Result<(), AllocError>
    requires { start ≤ end }
{
    let size = end - start;
    push_words(
        file,
        &[0, RELOCATIONS, 0, 0, start, size, 0, 0, 4, ENTRY_SIZE],
    )
}

/// Splits the section of relocation entries of a built file in two, of so many entries each.
fn split(
    rt: &impl Abort,
    file: &mut Vec<u8>,
    first: usize,
    second: usize,
) -> Result<(), AllocError> {
    assert!(rt; first < 5 && second < 5);
    assert!(rt; file.len() >= 200 && file.len() <= 4096);
    let end = file.len() as u32 - SECTIONS_SIZE;
    let middle = end - ENTRY_SIZE * second as u32;
    let start = middle - ENTRY_SIZE * first as u32;
    file.truncate(end as usize);
    push_section(file, start, middle)?;
    push_section(file, middle, end)
}

/// Relocates the text of a file, and compares what it becomes.
fn relocates_file(
    rt: &impl Abort,
    alloc: Global,
    file: &[u8],
    base: u32,
    wanted: &[u32],
) -> Result<(), Fail> {
    assert!(rt; file.len() <= 4096);
    let irx = Irx::parse(file).ok().ok_or("no IRX file")?;
    let checked = check(irx.length(), irx.relocations())
        .ok()
        .ok_or("refused")?;
    let mut image = irx.image().to_vec(alloc)?;
    assert_eq!(rt; image.len(), checked.image_length() as usize);
    relocate(&mut image, &checked, base);
    assert_eq!(rt; image.as_slice(), bytes_of(alloc, wanted)?.as_slice());
    Ok(())
}

/// Relocates a text, and compares what it becomes.
fn relocates(
    rt: &impl Abort,
    alloc: Global,
    text: &[u32],
    entries: &[Relocation],
    base: u32,
    wanted: &[u32],
) -> Result<(), Fail> {
    let file = file_of(alloc, text, entries)?;
    relocates_file(rt, alloc, &file, base, wanted)
}

/// Checks two sections of entries against a text of two words, which refuses them.
fn refuses(
    rt: &impl Abort,
    alloc: Global,
    first: &[Relocation],
    second: &[Relocation],
    rule: u8,
    at: u32,
) -> Result<(), Fail> {
    let entries = [first, second].concat(alloc)?;
    let mut file = file_of(alloc, &[0, 0], &entries)?;
    split(rt, &mut file, first.len(), second.len())?;
    assert!(rt; file.len() <= 4096);
    let irx = Irx::parse(&file).ok().ok_or("no IRX file")?;
    assert_eq!(rt;
        check(irx.length(), irx.relocations()).err(),
        Some(Illegal { rule, at })
    );
    Ok(())
}

#[test]
fn halves_of_addresses(rt: HostRuntime) -> Result<(), Fail> {
    let alloc = rt.alloc();
    let pair = [entry(0, 5), entry(4, 6)];
    // the low half was negative, and becomes so
    relocates(
        &rt,
        alloc,
        &[0x3C04_0001, 0x2484_8000],
        &pair,
        0x8100,
        &[0x3C04_0001, 0x2484_0100],
    )?;
    relocates(
        &rt,
        alloc,
        &[0x3C04_0001, 0x2484_7FFF],
        &pair,
        0x100,
        &[0x3C04_0002, 0x2484_80FF],
    )?;
    // two high halves share a low half
    relocates(
        &rt,
        alloc,
        &[0x3C04_0000, 0x3C05_0000, 0x2484_1000],
        &[entry(0, 5), entry(4, 5), entry(8, 6)],
        0x1_8000,
        &[0x3C04_0002, 0x3C05_0002, 0x2484_9000],
    )?;
    // the low half before is not taken
    relocates(
        &rt,
        alloc,
        &[0x2484_9000, 0x3C04_0000, 0x2484_1000],
        &[entry(0, 6), entry(4, 5), entry(8, 6)],
        0x7000,
        &[0x2484_0000, 0x3C04_0001, 0x2484_8000],
    )?;
    // the low half is taken as it then stands
    relocates(
        &rt,
        alloc,
        &[0x3C04_0000, 0x7FFF],
        &[entry(4, 2), entry(0, 5), entry(4, 6)],
        0x8000,
        &[0x3C04_0000, 0x7FFF],
    )
}

#[test]
fn words_and_jumps(rt: HostRuntime) -> Result<(), Fail> {
    let alloc = rt.alloc();
    let pair = [entry(0, 2), entry(4, 4)];
    relocates(
        &rt,
        alloc,
        &[0x10, 0x0C00_0005],
        &pair,
        0x1_0000,
        &[0x1_0010, 0x0C00_4005],
    )?;
    // sums pass over the end
    relocates(
        &rt,
        alloc,
        &[0xFFFF_FFFF, 0x0FFF_FFFF],
        &pair,
        8,
        &[7, 0x0C00_0001],
    )?;
    // twice the same site; the symbol is not looked at
    let mut file = file_of(alloc, &[0x10], &[entry(0, 2), entry(0, 2)])?;
    set_symbol(&rt, &mut file);
    relocates_file(&rt, alloc, &file, 0x100, &[0x210])?;
    // nothing, at no site
    let nothing = [entry(0xFFFF_FFFF, 0)];
    relocates(&rt, alloc, &[0x10], &nothing, 0x100, &[0x10])
}

#[test]
fn refused(rt: HostRuntime) -> Result<(), Fail> {
    let alloc = rt.alloc();
    refuses(&rt, alloc, &[entry(2, 1)], &[], 13, 2)?;
    refuses(&rt, alloc, &[entry(4, 2), entry(8, 2)], &[], 13, 8)?;
    refuses(&rt, alloc, &[entry(0xFFFF_FFFC, 2)], &[], 13, 0xFFFF_FFFC)?;
    refuses(
        &rt,
        alloc,
        &[entry(3, 0), entry(4, 1)],
        &[entry(2, 2)],
        14,
        4,
    )?;
    refuses(&rt, alloc, &[entry(0, 2)], &[entry(4, 3)], 14, 4)?;
    refuses(&rt, alloc, &[entry(0, 5), entry(4, 5)], &[], 15, 0)?;
    refuses(&rt, alloc, &[entry(0, 6), entry(4, 5)], &[], 15, 4)?;
    refuses(&rt, alloc, &[entry(0, 5)], &[entry(4, 6)], 15, 0)
}
