use iop_base::WriteFault;
use iop_disasm::{inst_text, listing, read_too_soon};
use iop_ports::MemSink;
use iop_ram::Ram;
use std::test::Fail;

#[test]
fn words_have_texts(rt: HostRuntime) -> Result<(), Fail> {
    let table: [(u32, u32, &str); 9] = [
        (0x27BD_FFC0, 0, "addiu $29,$29,-64"),
        (0x8FBF_003C, 0, "lw $31,60($29)"),
        (0x1000_0001, 0, "beq $0,$0,00000008"),
        (0x0C00_4005, 0x0001_0000, "jal 00010014"),
        (0x3442_0002, 0, "ori $2,$2,0x0002"),
        (0xFFFF_FFFF, 0, ".word 0xffffffff"),
        (0x0002_1100, 0, "sll $2,$2,4"),
        (0x0003_C08C, 0, "syscall 3842"),
        (0x0451_FFFE, 0, "bgezal $2,fffffffc"),
    ];
    for (word, at, text) in &table {
        assert_eq!(rt; inst_text(*word, *at).as_slice(), text.as_bytes());
    }
    Ok(())
}

#[test]
fn words_read_what_is_loaded_before_them(rt: HostRuntime) -> Result<(), Fail> {
    let lw_2 = 0x8FA2_0010;
    let table: [(u32, u32, Option<u8>); 16] = [
        (lw_2, 0x0044_1821, Some(2)), // addu $3,$2,$4
        (lw_2, 0x0002_1900, Some(2)), // sll $3,$2,4
        (lw_2, 0x0082_0018, Some(2)), // mult $4,$2
        (lw_2, 0x0040_0008, Some(2)), // jr $2
        (lw_2, 0xAFA2_0000, Some(2)), // sw $2,0($29)
        (lw_2, 0x9845_0000, Some(2)), // lwr $5,0($2)
        (lw_2, 0x2402_0001, None), // addiu $2,$0,1
        (lw_2, 0x3C42_0001, None), // lui $2,0x0001, with a field that it does not use
        (lw_2, 0x8882_0003, None), // lwl $2,3($4)
        (lw_2, 0x0042_000C, None), // syscall 67584
        (lw_2, 0x9C42_0000, None), // no instruction
        (0x9882_0000, 0x0044_1821, Some(2)), // lwr $2,0($4)
        (0x8882_0003, 0x9882_0000, None), // lwl $2,3($4), lwr $2,0($4)
        (0x8FA0_0010, 0x0000_1821, None), // lw $0,16($29), addu $3,$0,$0
        (0xAFA2_0010, 0x0044_1821, None), // sw $2,16($29)
        (0x9C42_0000, 0x0044_1821, None), // no instruction
    ];
    for (word, next, number) in &table {
        let read = read_too_soon(*word, *next).map(|reg| reg.number());
        assert_eq!(rt; read, *number);
    }
    Ok(())
}

#[test]
fn words_in_ram_are_listed(rt: HostRuntime) -> Result<(), Fail> {
    let mut ram = Ram::new(rt.alloc(), 0x20_0000)?;
    assert!(rt; ram.store32(0x1F_FFFC, 0x27BD_FFC0).is_ok());
    assert!(rt; ram.store32(0, 0x8FBF_003C).is_ok());
    let first = "001ffffc: 27bdffc0 addiu $29,$29,-64\n";
    let second = "00000000: 8fbf003c lw $31,60($29)\n";
    let mut sink = MemSink::new(rt.alloc(), 80, Vec::new(rt.alloc()))?;
    assert_eq!(rt; listing(&ram, 0x1F_FFFC, 2, &mut sink), Ok(()));
    assert_eq!(rt; sink.bytes(), first.as_bytes());
    assert_eq!(rt; listing(&ram, 2, 8, &mut sink), Ok(()));
    assert_eq!(rt; sink.bytes(), first.as_bytes());
    assert_eq!(rt; listing(&ram, 0xFFFF_FFFC, 2, &mut sink), Ok(()));
    assert_eq!(rt; &sink.bytes()[first.len()..], second.as_bytes());
    Ok(())
}

#[test]
fn a_full_sink_has_a_front(rt: HostRuntime) -> Result<(), Fail> {
    let ram = Ram::new(rt.alloc(), 0x20_0000)?;
    let mut sink = MemSink::new(rt.alloc(), 12, Vec::new(rt.alloc()))?;
    assert_eq!(rt; listing(&ram, 0, 1, &mut sink), Err(WriteFault));
    assert_eq!(rt; sink.bytes(), b"00000000: 00".as_slice());
    Ok(())
}
