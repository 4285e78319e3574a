use iop_asm::{AsmFault, AsmKind, AsmUnit, Relocation, assemble};
use std::alloc::{AllocError, Global};
use std::process::Abort;
use std::test::Fail;

/// Gives the bytes of words, the lowest first.
fn bytes_of(alloc: Global, words: &[u32]) -> Result<Vec<u8>, AllocError> {
    let mut bytes = Vec::new(alloc);
    for word in words {
        bytes.extend_from_slice(&word.to_le_bytes())?;
    }
    Ok(bytes)
}

/// Assembles a source that has these words of text and of data.
fn makes(
    rt: &impl Abort,
    alloc: Global,
    source: &str,
    text: &[u32],
    data: &[u32],
) -> Result<AsmUnit, Fail> {
    let unit = assemble(alloc, source)?;
    assert_eq!(rt; unit.text.as_slice(), bytes_of(alloc, text)?.as_slice());
    assert_eq!(rt; unit.data.as_slice(), bytes_of(alloc, data)?.as_slice());
    Ok(unit)
}

/// Expects that the first bad line of a source is this one, for this reason.
fn fails(rt: &impl Abort, alloc: Global, source: &str, line: u32, kind: AsmKind) {
    assert_eq!(rt;
        assemble(alloc, source).err(),
        Some(AsmFault::Line { line, kind })
    );
}

#[test]
fn plain(rt: HostRuntime) -> Result<(), Fail> {
    let alloc = rt.alloc();
    let source = ".name t\njr $ra\naddu $v0,$0,$0\n";
    let unit = makes(&rt, alloc, source, &[0x03E0_0008, 0x0000_1021], &[])?;
    assert_eq!(rt; unit.name.as_slice(), b"t".as_slice());
    assert_eq!(rt; unit.version, 0x0101);
    assert_eq!(rt; unit.entry, 0);
    assert_eq!(rt; unit.gp, 0);
    assert_eq!(rt; unit.bss, 0);
    assert_eq!(rt; unit.relocations.len(), 0);
    Ok(())
}

/// Gives a relocation entry.
fn entry(site: u32, kind: u8) -> Relocation {
    Relocation { site, kind }
}

/// A module that prints `hi` by a function of the library `sysmem`.
const HELLO: &str = concat!(
    ".import sysmem 1 1\n.fn Kprintf 14\n.endi\n.entry main\nmain:\n",
    "\taddu $s0,$ra,$0 ; keep it\n\tlui $a0,%hi(s)\n\tjal Kprintf\n\taddiu $a0,$a0,%lo(s)\n",
    "\tjr $s0\n\taddu $v0,$0,$0\n.data\ns:\n.asciz \"hi\\n\"\n",
);

#[test]
fn hello(rt: HostRuntime) -> Result<(), Fail> {
    let alloc = rt.alloc();
    let text = [
        0x41E0_0000,
        0,
        0x0000_0101,
        0x6D73_7973,
        0x0000_6D65,
        0x03E0_0008,
        0x2400_000E,
        0,
        0,
        0x03E0_8021,
        0x3C04_0000,
        0x0C00_0005,
        0x2484_003C,
        0x0200_0008,
        0x0000_1021,
    ];
    let unit = makes(&rt, alloc, HELLO, &text, &[0x000A_6968])?;
    assert_eq!(rt; unit.entry, 0x24);
    let entries = [entry(0x28, 5), entry(0x2C, 4), entry(0x30, 6)];
    assert_eq!(rt; unit.relocations.as_slice(), entries.as_slice());
    Ok(())
}

#[test]
fn tables_and_words(rt: HostRuntime) -> Result<(), Fail> {
    let alloc = rt.alloc();
    let source = concat!(
        ".version 2 3\n.bss 16\n.export mylib 1 2\n.word f,0\n.ende\n",
        "f:\nlw $t0,4($sp)\nbne $t0,$0,f\nnop\n.data\n.word -1,f\nd:\n.word d,0x10\n",
    );
    let text = [
        0x41C0_0000,
        0,
        0x0000_0102,
        0x696C_796D,
        0x0000_0062,
        0x20,
        0,
        0,
        0x8FA8_0004,
        0x1500_FFFE,
        0,
    ];
    let unit = makes(&rt, alloc, source, &text, &[0xFFFF_FFFF, 0x20, 0x34, 0x10])?;
    assert_eq!(rt; unit.version, 0x0203);
    assert_eq!(rt; unit.bss, 16);
    let words = [entry(0x14, 2), entry(0x30, 2), entry(0x34, 2)];
    assert_eq!(rt; unit.relocations.as_slice(), words.as_slice());
    Ok(())
}

#[test]
fn first_bad_lines(rt: HostRuntime) {
    let alloc = rt.alloc();
    let table = [
        ("frob", 1, AsmKind::Statement),
        ("a-b:", 1, AsmKind::Statement),
        (".fn F 1", 1, AsmKind::Section),
        (".asciz \"a\"", 1, AsmKind::Section),
        ("lui $32,0", 1, AsmKind::Operand),
        ("addu $v0,$0", 1, AsmKind::Operand),
        ("nop 1", 1, AsmKind::Operand),
        (".name 1a", 1, AsmKind::Operand),
        ("ori $2,$2,65536", 1, AsmKind::Range),
        (".version 1 256", 1, AsmKind::Range),
        ("\na:\nnop\na:", 4, AsmKind::Twice),
        (".bss 1\n.bss 1", 2, AsmKind::Twice),
        ("j x", 1, AsmKind::Label),
        ("nop\n.entry x", 2, AsmKind::Label),
        (".entry a\na:\n.entry x", 3, AsmKind::Twice),
        ("j x\nfrob", 1, AsmKind::Label),
    ];
    for (source, line, kind) in table {
        fails(&rt, alloc, source, line, kind);
    }
}

#[test]
fn bad_lines_of_tables(rt: HostRuntime) {
    let alloc = rt.alloc();
    let table = [
        (".import sysmem 1 1\nfrob", 2, AsmKind::Statement),
        (".import sysmem 1 1\na:", 2, AsmKind::Section),
        (".export mylib 1 1\nnop", 2, AsmKind::Section),
        (".import ninebytes 1 1", 1, AsmKind::Operand),
        (".import l 1 1\n.fn F\n.endi", 2, AsmKind::Operand),
        (".import l 1 1\n.fn F 65536\n.endi", 2, AsmKind::Range),
        (".import l 1 1\n.fn F 1\n.fn F 2\n.endi", 3, AsmKind::Twice),
        (".export l 1 1\n.word f\n.ende", 2, AsmKind::Label),
        (".export l 1 1\n.word f\n", 2, AsmKind::Section),
        ("nop\n.import l 1 1\n.fn F 1\n\n", 4, AsmKind::Section),
    ];
    for (source, line, kind) in table {
        fails(&rt, alloc, source, line, kind);
    }
}

#[test]
fn bad_lines_of_data(rt: HostRuntime) {
    let alloc = rt.alloc();
    let table = [
        (".data\nfrob", 2, AsmKind::Statement),
        (".data\nnop", 2, AsmKind::Section),
        (".data\n.import l 1 1", 2, AsmKind::Section),
        (".data\n.asciz \"a", 2, AsmKind::Operand),
        (".data\n.word 4294967296", 2, AsmKind::Range),
        (".data\na:\n.text\na:", 4, AsmKind::Twice),
        (".data\n.word x", 2, AsmKind::Label),
    ];
    for (source, line, kind) in table {
        fails(&rt, alloc, source, line, kind);
    }
}

#[test]
fn labels_of_bad_lines(rt: HostRuntime) {
    let alloc = rt.alloc();
    let open = ".entry main\n.import l 1 1\n.fn F 1\n.endi x\nmain:";
    fails(&rt, alloc, open, 4, AsmKind::Operand);
    let table = "jal F\n.import l 1 256\n.fn F 1\n.endi";
    fails(&rt, alloc, table, 2, AsmKind::Range);
    fails(&rt, alloc, "beq $0,$0,x\nx: nop", 2, AsmKind::Operand);
    fails(&rt, alloc, "j F\n.fn F 65536", 2, AsmKind::Section);
    fails(&rt, alloc, "j y\nx: nop", 1, AsmKind::Label);
}

/// Makes a source with the same line so many times between its first and its last lines.
fn with_lines(
    alloc: Global,
    first: &str,
    line: &str,
    count: u32,
    last: &str,
) -> Result<String, AllocError> {
    let mut source = String::from_str(alloc, first)?;
    for _ in 0..count {
        source.push_str(line)?;
    }
    source.push_str(last)?;
    Ok(source)
}

#[test]
fn branches_reach_so_far_ahead(rt: HostRuntime) -> Result<(), Fail> {
    let alloc = rt.alloc();
    let branch = "beq $0,$0,far\n";
    let near = with_lines(alloc, branch, "nop\n", 32_767, "far:\n")?;
    let unit = assemble(alloc, &near)?;
    let word = 0x1000_7FFF_u32.to_le_bytes();
    assert_eq!(rt; unit.text.get(..4), Some(word.as_slice()));
    let far = with_lines(alloc, branch, "nop\n", 32_768, "far:\n")?;
    fails(&rt, alloc, &far, 1, AsmKind::Range);
    Ok(())
}

#[test]
fn branches_reach_so_far_back(rt: HostRuntime) -> Result<(), Fail> {
    let alloc = rt.alloc();
    let branch = "beq $0,$0,target\n";
    let near = with_lines(alloc, "target:\n", "nop\n", 32_767, branch)?;
    let unit = assemble(alloc, &near)?;
    let word = 0x1000_8000_u32.to_le_bytes();
    assert_eq!(rt; unit.text.get(4 * 32_767..), Some(word.as_slice()));
    let far = with_lines(alloc, "target:\n", "nop\n", 32_768, branch)?;
    fails(&rt, alloc, &far, 32_770, AsmKind::Range);
    Ok(())
}

#[test]
fn high_halves_carry(rt: HostRuntime) -> Result<(), Fail> {
    let alloc = rt.alloc();
    let load = "lui $a0,%hi(far)\n.data\n";
    let source = with_lines(alloc, load, ".word 0\n", 0x9000 / 4 - 1, "far:\n")?;
    let unit = assemble(alloc, &source)?;
    let word = 0x3C04_0001_u32.to_le_bytes();
    assert_eq!(rt; unit.text.as_slice(), word.as_slice());
    Ok(())
}

#[test]
fn carriage_returns(rt: HostRuntime) -> Result<(), Fail> {
    let alloc = rt.alloc();
    let plain = ".entry main\nmain:\nj main ; ever\nnop\n.data\n.word 1,main\n";
    makes(&rt, alloc, plain, &[0x0800_0000, 0], &[1, 0])?;
    let source = ".entry main\r\nmain:\r\nj main ; ever\r\nnop\r\n.data\r\n.word 1,main\r\n";
    makes(&rt, alloc, source, &[0x0800_0000, 0], &[1, 0])?;
    Ok(())
}
