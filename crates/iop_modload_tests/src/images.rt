//! The images of files, and files that have none.

use crate::plain::PLAIN;
use iop_asm::assemble;
use iop_base::Code;
use iop_modload::ModuleFile;
use irx_build::build;
use std::alloc::Global;
use std::process::Abort;
use std::test::Fail;

/// The image of the plain module.
const PLAIN_IMAGE: [u32; 2] = [0x03E0_0008, 0x0000_1021];

/// A module that prints `hi`, with eight zero bytes behind its data.
const HELLO: &str = r#"
    .name hello
    .import sysmem 1 1
    .fn Kprintf 14
    .endi
    .entry main
main:
    addu $s0, $ra, $0
    lui $a0, %hi(text)
    jal Kprintf
    addiu $a0, $a0, %lo(text)
    jr $s0
    addu $v0, $0, $0
    .data
text:
    .asciz "hi\n"
    .bss 8
"#;

/// Its image at 0x10000.
const HELLO_IMAGE: [u32; 18] = [
    0x41E0_0000,
    0x0000_0000,
    0x0000_0101,
    0x6D73_7973,
    0x0000_6D65,
    0x03E0_0008,
    0x2400_000E,
    0x0000_0000,
    0x0000_0000,
    0x03E0_8021,
    0x3C04_0001,
    0x0C00_4005,
    0x2484_003C,
    0x0200_0008,
    0x0000_1021,
    0x000A_6968,
    0,
    0,
];

/// A module whose high halves have no low half behind them.
const UNPAIRED: &str = "
    .name t
start:
    lui $v0, %hi(start)
    lui $v0, %hi(start)
";

/// Makes the IRX file of a module's source.
fn file_of(alloc: Global, source: &str) -> Result<Vec<u8>, Fail> {
    Ok(build(alloc, &assemble(alloc, source)?)?)
}

/// Relocates a file for 0x10000 and compares the image.
fn relocates(rt: &impl Abort, alloc: Global, file: &[u8], words: &[u32]) -> Result<(), Fail> {
    assert!(rt; file.len() <= 4096);
    let mut wanted = Vec::new(alloc);
    for word in words {
        wanted.extend_from_slice(&word.to_le_bytes())?;
    }
    let parsed = ModuleFile::parse(file)?;
    let mut image = vec![in alloc; 0xFF; parsed.length() as usize]?;
    parsed.write_image(&mut image, 0x1_0000);
    assert_eq!(rt; image.as_slice(), wanted.as_slice());
    Ok(())
}

/// Reads a file that is refused.
fn refuses(rt: &impl Abort, file: &[u8]) {
    assert!(rt; file.len() <= 4096);
    assert_eq!(rt; ModuleFile::parse(file).err(), Some(Code::ILLEGAL_OBJECT));
}

#[test]
fn relocates_files(rt: HostRuntime) -> Result<(), Fail> {
    let alloc = rt.alloc();
    relocates(&rt, alloc, &PLAIN, &PLAIN_IMAGE)?;
    relocates(&rt, alloc, &file_of(alloc, HELLO)?, &HELLO_IMAGE)
}

#[test]
fn refuses_to_relocate(rt: HostRuntime) -> Result<(), Fail> {
    refuses(&rt, &PLAIN[..151]);
    refuses(&rt, &file_of(rt.alloc(), UNPAIRED)?);
    Ok(())
}
