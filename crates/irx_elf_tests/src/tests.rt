use iop_base::Illegal;
use irx_elf::Irx;
use irx_info::Info;
use std::alloc::Global;
use std::process::Abort;
use std::test::Fail;

/// A module `t` of version 1.1 with two instructions, 152 bytes.
const PLAIN: &str = concat!(
    "7f454c4601010100000000000000000080ff0800010000000000000034000000",
    "00000000000000003400200002002800000000008000007074000000",
    "00000000000000001c0000001c0000000400000004000000",
    "0100000090000000000000000000000008000000080000000700000010000000",
    "ffffffff00000000000000000800000000000000000000000101",
    "74000800e00321100000",
);

/// Three section headers: one of no type, and two of relocation entries in the text, for sections 0
/// and 1.
const SECTIONS: &str = concat!(
    "00000000000000000000000000000000000000000000000000000000000000000000000000000000",
    "00000000090000000000000000000000900000000800000000000000000000000000000008000000",
    "00000000090000000000000000000000900000000800000000000000010000000000000008000000",
);

/// The two instructions.
const TEXT: [u8; 8] = [0x08, 0, 0xe0, 0x03, 0x21, 0x10, 0, 0];

/// Makes the plain module's file.
fn plain(alloc: Global) -> Result<Vec<u8>, Fail> {
    Ok(hex::decode(alloc, PLAIN)?)
}

/// Makes the same with the section headers.
fn with_sections(alloc: Global) -> Result<Vec<u8>, Fail> {
    let mut file = plain(alloc)?;
    file.extend_from_slice(hex::decode(alloc, SECTIONS)?.as_slice())?;
    change(&mut file, 32, 152);
    change(&mut file, 48, 3);
    Ok(file)
}

/// Changes one byte of a file.
fn change(file: &mut Vec<u8>, at: usize, byte: u8) {
    if let Some(place) = file.get_mut(at) {
        *place = byte;
    }
}

/// Parses a file that is refused.
fn refuses(rt: &impl Abort, file: &[u8], rule: u8, at: u32) {
    assert!(rt; file.len() <= 1000);
    assert_eq!(rt; Irx::parse(file).err(), Some(Illegal { rule, at }));
}

/// Parses a file of the plain module, and compares its lists of relocation entries.
fn lists(rt: &impl Abort, file: &[u8], sections: u32, lists: [&[u8]; 3]) -> Result<(), Fail> {
    assert!(rt; file.len() <= 1000);
    let irx = Irx::parse(file).ok().ok_or("refused")?;
    let info = Info {
        id: 0xFFFF_FFFF,
        entry: 0,
        gp: 0,
        text_size: 8,
        data_size: 0,
        bss_size: 0,
        version: 0x0101,
        name: b"t",
    };
    assert_eq!(rt; irx.image(), TEXT.as_slice());
    assert_eq!(rt; irx.length(), 8);
    assert_eq!(rt; irx.info(), info);
    let relocations = irx.relocations();
    assert_eq!(rt; relocations.sections(), sections);
    for (k, list) in lists.iter().enumerate() {
        assert_eq!(rt; relocations.list(k as u32), *list);
    }
    let mut walk = relocations.lists();
    for list in lists.iter().take(sections as usize) {
        assert_eq!(rt; walk.next(), Some(*list));
    }
    assert_eq!(rt; walk.next(), None);
    Ok(())
}

#[test]
fn rules_in_order(rt: HostRuntime) -> Result<(), Fail> {
    let alloc = rt.alloc();
    refuses(&rt, &[], 1, 0);
    let changes = [
        (5, 2, 2, 0),
        (16, 0x81, 3, 16),
        (18, 9, 4, 18),
        (42, 40, 5, 42),
        (52, 0x81, 6, 44),
        (84, 2, 7, 44),
        (68, 26, 8, 52),
        (88, 0x91, 9, 84),
        (128, 3, 10, 84),
        (48, 4, 11, 46),
    ];
    for (place, byte, rule, at) in changes {
        let mut file = plain(alloc)?;
        change(&mut file, place, byte);
        refuses(&rt, &file, rule, at);
    }
    let mut short = plain(alloc)?;
    short.truncate(151);
    refuses(&rt, &short, 9, 84);
    for (place, byte) in [(249, 2), (252, 7), (260, 3)] {
        let mut file = with_sections(alloc)?;
        change(&mut file, place, byte);
        refuses(&rt, &file, 12, 232);
    }
    Ok(())
}

#[test]
fn parts_lent(rt: HostRuntime) -> Result<(), Fail> {
    let alloc = rt.alloc();
    let text = TEXT.as_slice();
    lists(&rt, &plain(alloc)?, 0, [&[], &[], &[]])?;
    let mut file = with_sections(alloc)?;
    lists(&rt, &file, 2, [text, &[], &[]])?;
    change(&mut file, 200, 2);
    lists(&rt, &file, 2, [text, text, &[]])
}
