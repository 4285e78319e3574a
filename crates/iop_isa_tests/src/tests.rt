use iop_isa::{
    Code20, Fields, Inst, Operand, Reg, Shift5, Target26, decode, encode, mnemonic_of, spelling_of,
};
use std::test::Fail;

/// Tells whether a word holds an instruction.
fn holds(word: u32, inst: &Inst) -> bool {
    match decode(word) {
        Some(found) => found == *inst,
        None => false,
    }
}

#[test]
fn instructions_have_words(rt: HostRuntime) -> Result<(), Fail> {
    let sp = Reg::new(29);
    let ra = Reg::new(31);
    let v0 = Reg::new(2);
    let table = [
        (
            0x27BD_FFC0,
            Inst::Addiu {
                rt: sp,
                rs: sp,
                imm: 0xFFC0,
            },
        ),
        (
            0x8FBF_003C,
            Inst::Lw {
                rt: ra,
                imm: 60,
                rs: sp,
            },
        ),
        (
            0x0C00_4005,
            Inst::Jal {
                target: Target26::new(0x4005),
            },
        ),
        (
            0x0003_C08C,
            Inst::Syscall {
                n: Code20::new(0xF02),
            },
        ),
        (0x03E0_0008, Inst::Jr { rs: ra }),
        (
            0x001F_1100,
            Inst::Sll {
                rd: v0,
                rt: ra,
                sa: Shift5::new(4),
            },
        ),
        (0x0451_0001, Inst::Bgezal { rs: v0, imm: 1 }),
    ];
    for (word, inst) in table {
        assert!(rt; holds(word, &inst));
        assert_eq!(rt; encode(inst), word);
    }
    Ok(())
}

#[test]
fn unused_fields_are_ignored(rt: HostRuntime) -> Result<(), Fail> {
    let blez = Inst::Blez {
        rs: Reg::new(4),
        imm: 3,
    };
    for word in [0x1880_0003, 0x189F_0003] {
        assert!(rt; holds(word, &blez));
    }
    Ok(())
}

#[test]
fn other_words_hold_none(rt: HostRuntime) -> Result<(), Fail> {
    for word in [0xFFFF_FFFF, 0x4000_0000, 0x0000_0001, 0x0402_0000] {
        assert_eq!(rt; decode(word), None);
    }
    Ok(())
}

#[test]
fn instructions_are_spelled(rt: HostRuntime) -> Result<(), Fail> {
    let load = spelling_of(0x8FBF_003C).ok_or("none")?;
    assert_eq!(rt; load.name, b"lw".as_slice());
    assert_eq!(rt;
        load.operands,
        [Operand::Rt, Operand::Signed, Operand::Base].as_slice()
    );
    assert!(rt; spelling_of(0xFFFF_FFFF).is_none());
    Ok(())
}

#[test]
fn names_have_instructions(rt: HostRuntime) -> Result<(), Fail> {
    let load = mnemonic_of(b"lw").ok_or("none")?;
    assert_eq!(rt; load.operands.len(), 3);
    let fields = Fields::zeros()
        .with_number(Operand::Rt, 2)
        .with_number(Operand::Base, 29)
        .with_number(Operand::Signed, 4);
    assert_eq!(rt; load.word(fields), 0x8FA2_0004);
    assert!(rt; mnemonic_of(b"frob").is_none());
    Ok(())
}

#[test]
fn registers_have_names(rt: HostRuntime) -> Result<(), Fail> {
    let table = [
        (b"ra".as_slice(), Some(31)),
        (b"31".as_slice(), Some(31)),
        (b"05".as_slice(), None),
        (b"32".as_slice(), None),
        (b"".as_slice(), None),
    ];
    for (name, number) in table {
        let found = Reg::named(name).map(|register| register.number());
        assert_eq!(rt; found, number);
    }
    Ok(())
}

#[test]
fn jumps_have_a_slot(rt: HostRuntime) -> Result<(), Fail> {
    let table = [
        (0x03E0_0008, true),
        (0x1880_0003, true),
        (0x0000_0000, false),
    ];
    for (word, jump) in table {
        assert_eq!(rt; decode(word).map(|inst| inst.is_jump()), Some(jump));
    }
    Ok(())
}

#[test]
fn operands_have_numbers(rt: HostRuntime) -> Result<(), Fail> {
    assert_eq!(rt; Reg::new(31).number(), 31);
    assert_eq!(rt; Code20::new(0xF02).number(), 0xF02);
    assert_eq!(rt; Target26::new(0x4005).number(), 0x4005);
    Ok(())
}
