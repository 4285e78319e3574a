use iop_asm::{AsmUnit, Relocation, assemble};
use irx_build::{BuildFault, build};
use irx_elf::Irx;
use irx_info::Info;
use std::alloc::Global;
use std::process::Abort;
use std::test::Fail;

/// The source of the plain unit.
const SOURCE: &str = "
    .name t
    jr $ra
    addu $v0, $0, $0
";

/// The file of the plain unit, 152 bytes.
const PLAIN: &str = concat!(
    "7f454c4601010100000000000000000080ff0800010000000000000034000000",
    "00000000000000003400200002002800000000008000007074000000",
    "00000000000000001c0000001c0000000400000004000000",
    "0100000090000000000000000000000008000000080000000700000010000000",
    "ffffffff00000000000000000800000000000000000000000101",
    "74000800e00321100000",
);

/// The instructions `jr $ra` and `move $v0, $zero`.
const TEXT: [u8; 8] = [0x08, 0, 0xE0, 0x03, 0x21, 0x10, 0, 0];

/// Makes a unit of version 1.1 with this name, text, data and zero bytes, and no relocation
/// entries.
fn unit(alloc: Global, name: &[u8], text: &[u8], data: &[u8], bss: u32) -> Result<AsmUnit, Fail> {
    Ok(AsmUnit {
        name: name.to_vec(alloc)?,
        version: 0x0101,
        entry: 0,
        gp: 0,
        text: text.to_vec(alloc)?,
        data: data.to_vec(alloc)?,
        bss,
        relocations: Vec::new(alloc),
    })
}

#[test]
fn plain(rt: HostRuntime) -> Result<(), Fail> {
    let alloc = rt.alloc();
    let wanted = hex::decode(alloc, PLAIN)?;
    let unit = unit(alloc, b"t", &TEXT, &[], 0)?;
    assert_eq!(rt; build(alloc, &unit)?.as_slice(), wanted.as_slice());
    Ok(())
}

#[test]
fn plain_from_source(rt: HostRuntime) -> Result<(), Fail> {
    let alloc = rt.alloc();
    let wanted = hex::decode(alloc, PLAIN)?;
    let unit = assemble(alloc, SOURCE)?;
    assert_eq!(rt; build(alloc, &unit)?.as_slice(), wanted.as_slice());
    Ok(())
}

/// Builds a unit that is refused.
fn refuses(
    rt: &impl Abort,
    alloc: Global,
    name: &[u8],
    text: &[u8],
    bss: u32,
    fault: BuildFault,
) -> Result<(), Fail> {
    let unit = unit(alloc, name, text, &[], bss)?;
    assert_eq!(rt; build(alloc, &unit).err(), Some(fault));
    Ok(())
}

#[test]
fn refused(rt: HostRuntime) -> Result<(), Fail> {
    let alloc = rt.alloc();
    let long = vec![in alloc; b'n'; 256]?;
    let word = &TEXT[..4];
    refuses(&rt, alloc, b"\0", &TEXT[..3], 0, BuildFault::Empty)?;
    refuses(&rt, alloc, b"a\0", word, 2_097_152, BuildFault::Name)?;
    refuses(&rt, alloc, &long, word, 0, BuildFault::Name)?;
    refuses(
        &rt,
        alloc,
        b"t",
        word,
        2_097_149,
        BuildFault::TooLong(2_097_153),
    )?;
    build(alloc, &unit(alloc, &long[1..], word, &[], 2_097_148)?)?;
    Ok(())
}

#[test]
fn entries(rt: HostRuntime) -> Result<(), Fail> {
    let alloc = rt.alloc();
    let mut unit = unit(alloc, b"tab", &TEXT, &[0x12], 3)?;
    unit.entry = 4;
    unit.gp = 0x8000;
    unit.relocations.push(Relocation { site: 0, kind: 5 })?;
    unit.relocations.push(Relocation { site: 4, kind: 6 })?;
    let file = build(alloc, &unit)?;
    let irx = Irx::parse(&file).ok().ok_or("refused")?;
    let info = Info {
        id: 0xFFFF_FFFF,
        entry: 4,
        gp: 0x8000,
        text_size: 8,
        data_size: 1,
        bss_size: 3,
        version: 0x0101,
        name: b"tab",
    };
    assert_eq!(rt; irx.info(), info);
    assert_eq!(rt; irx.length(), 12);
    assert_eq!(rt;
        irx.image(),
        [0x08, 0, 0xE0, 0x03, 0x21, 0x10, 0, 0, 0x12].as_slice()
    );
    let mut lists = irx.relocations().lists();
    let list: &[u8] = &[0, 0, 0, 0, 5, 0, 0, 0, 4, 0, 0, 0, 6, 0, 0, 0];
    assert_eq!(rt; lists.next(), Some(list));
    assert_eq!(rt; lists.next(), None);
    Ok(())
}
