use crate::ram::Ram;
use iop_base::GuestFault;
use iop_exec::{Cpu, Event, step};
use std::test::Fail;

/// Makes a processor before this address. Its register 31 is 0x3020, the other registers are 0.
fn cpu_at(pc: u32) -> Cpu {
    let mut regs = [0; 32];
    regs[31] = 0x3020;
    Cpu {
        regs,
        hi: 0,
        lo: 0,
        pc,
        next: pc.wrapping_add(4),
        in_slot: false,
        pending: None,
    }
}

#[test]
fn one_instruction(rt: HostRuntime) -> Result<(), Fail> {
    // a word, the event, and register 2 after it
    let table = [
        (0x2402_FFFF, Event::Plain, 0xFFFF_FFFF),
        (0x03E0_1027, Event::Plain, 0xFFFF_CFDF),
        (0x2FE2_FFFF, Event::Plain, 1),
        (0x001F_102A, Event::Plain, 1),
        (0x3C02_0001, Event::Plain, 0x0001_0000),
        (0x03E0_1021, Event::Plain, 0x3020),
        (0x001F_1100, Event::Plain, 0x0003_0200),
        (0x0003_C08C, Event::Service(0xF02), 0),
        (0x0000_000D, Event::Fault(GuestFault::Break), 0),
        (0x8C02_0002, Event::Fault(GuestFault::Address), 0),
        (0xAC02_0004, Event::Fault(GuestFault::Address), 0),
        (0xFFFF_FFFF, Event::Fault(GuestFault::Reserved), 0),
    ];
    for (word, event, value) in table {
        let mut cpu = cpu_at(0);
        let mut ram = Ram::new(rt.alloc(), 0, &[word])?;
        let before = cpu;
        assert_eq!(rt; step(&mut cpu, &mut ram), event);
        assert_eq!(rt; cpu.regs[2], value);
        match event {
            Event::Fault(_) => assert_eq!(rt; cpu, before),
            _ => assert_eq!(rt; (cpu.pc, cpu.next, cpu.in_slot), (4, 8, false)),
        }
    }
    Ok(())
}

#[test]
fn function_returns(rt: HostRuntime) -> Result<(), Fail> {
    let mut ram = Ram::new(
        rt.alloc(),
        0,
        &[0x3C02_0001, 0x3442_0002, 0x03E0_0008, 0x0000_0000],
    )?;
    for start in [0, 0x8000_0000, 0xA000_0000] {
        let mut cpu = cpu_at(start);
        for _ in 0..4 {
            assert_eq!(rt; step(&mut cpu, &mut ram), Event::Plain);
        }
        assert_eq!(rt; (cpu.regs[2], cpu.pc), (65538, 0x3020));
    }
    Ok(())
}

#[test]
fn jump_in_a_slot(rt: HostRuntime) -> Result<(), Fail> {
    let mut ram = Ram::new(rt.alloc(), 0, &[0x03E0_0008, 0x03E0_0008])?;
    let mut cpu = cpu_at(0);
    assert_eq!(rt; step(&mut cpu, &mut ram), Event::Plain);
    let before = cpu;
    assert_eq!(rt;
        step(&mut cpu, &mut ram),
        Event::Fault(GuestFault::BranchInSlot)
    );
    assert_eq!(rt; cpu, before);
    Ok(())
}

#[test]
fn no_place(rt: HostRuntime) -> Result<(), Fail> {
    let mut ram = Ram::new(rt.alloc(), 0, &[0, 0])?;
    for pc in [2, 8, 0x4000_0000] {
        let mut cpu = cpu_at(pc);
        let before = cpu;
        assert_eq!(rt; step(&mut cpu, &mut ram), Event::Fault(GuestFault::Address));
        assert_eq!(rt; cpu, before);
    }
    Ok(())
}

#[test]
fn register_zero(rt: HostRuntime) -> Result<(), Fail> {
    let mut ram = Ram::new(rt.alloc(), 0, &[0x2400_000E])?;
    let mut cpu = cpu_at(0);
    assert_eq!(rt; step(&mut cpu, &mut ram), Event::Plain);
    assert_eq!(rt; cpu.regs[0], 0);
    Ok(())
}

#[test]
fn overflow(rt: HostRuntime) -> Result<(), Fail> {
    let words = [0x3C02_7FFF, 0x3442_FFFF, 0x2042_0001];
    let mut ram = Ram::new(rt.alloc(), 0, &words)?;
    let mut cpu = cpu_at(0);
    assert_eq!(rt; step(&mut cpu, &mut ram), Event::Plain);
    assert_eq!(rt; step(&mut cpu, &mut ram), Event::Plain);
    let before = cpu;
    assert_eq!(rt;
        step(&mut cpu, &mut ram),
        Event::Fault(GuestFault::Overflow)
    );
    assert_eq!(rt; cpu, before);
    Ok(())
}

#[test]
fn products_and_quotients(rt: HostRuntime) -> Result<(), Fail> {
    // a word, registers 2 and 3, and HI and LO after it
    let table = [
        (0x0043_0018, 0xFFFF_FFFF, 2, 0xFFFF_FFFF, 0xFFFF_FFFE),
        (0x0043_0019, 0xFFFF_FFFF, 2, 1, 0xFFFF_FFFE),
        (0x0043_001A, 7, 0, 7, 0xFFFF_FFFF),
        (0x0043_001A, 0xFFFF_FFF9, 0, 0xFFFF_FFF9, 1),
        (0x0043_001A, 0x8000_0000, 0xFFFF_FFFF, 0, 0x8000_0000),
        (0x0043_001A, 0xFFFF_FFF9, 2, 0xFFFF_FFFF, 0xFFFF_FFFD),
        (0x0043_001B, 0xFFFF_FFF9, 0, 0xFFFF_FFF9, 0xFFFF_FFFF),
    ];
    for (word, first, second, hi, lo) in table {
        let mut ram = Ram::new(rt.alloc(), 0, &[word])?;
        let mut cpu = cpu_at(0);
        cpu.regs[2] = first;
        cpu.regs[3] = second;
        assert_eq!(rt; step(&mut cpu, &mut ram), Event::Plain);
        assert_eq!(rt; (cpu.hi, cpu.lo), (hi, lo));
    }
    Ok(())
}

#[test]
fn jumps_and_branches(rt: HostRuntime) -> Result<(), Fail> {
    // an address, the word there, the address behind the delay slot and register 31
    let table = [
        (0x10000, 0x0C00_4005, 0x0001_0014, 0x10008),
        (0, 0x1000_0001, 8, 0x3020),
        (0x100, 0x1000_FFFF, 0x100, 0x3020),
        (0x100, 0x1400_FFFF, 0x108, 0x3020),
        (0x100, 0x0410_FFFF, 0x108, 0x108),
    ];
    for (start, word, target, link) in table {
        let mut ram = Ram::new(rt.alloc(), start, &[word])?;
        let mut cpu = cpu_at(start);
        assert_eq!(rt; step(&mut cpu, &mut ram), Event::Plain);
        assert_eq!(rt; (cpu.pc, cpu.next, cpu.in_slot), (start + 4, target, true));
        assert_eq!(rt; cpu.regs[31], link);
    }
    Ok(())
}

#[test]
fn parts_of_a_word(rt: HostRuntime) -> Result<(), Fail> {
    // register 2 after each instruction from 0x108 on, which has what the one before loaded; $ra is
    // stored over the last word
    let words = [
        0x4433_2211,
        0x8877_6655,
        0x9802_0101,
        0x8802_0104,
        0x8002_0107,
        0x8402_0104,
        0xA41F_0106,
        0x8C02_0104,
        0,
    ];
    let mut ram = Ram::new(rt.alloc(), 0x100, &words)?;
    let mut cpu = cpu_at(0x108);
    for value in [
        0,
        0x0044_3322,
        0x5544_3322,
        0xFFFF_FF88,
        0x6655,
        0x6655,
        0x3020_6655,
    ] {
        assert_eq!(rt; step(&mut cpu, &mut ram), Event::Plain);
        assert_eq!(rt; cpu.regs[2], value);
    }
    Ok(())
}

#[test]
fn load_delay_slots(rt: HostRuntime) -> Result<(), Fail> {
    // three words behind 5 at 0x100, and registers 2, 3 and 4 after them, of which 2 was 1 before
    let table = [
        // lw $2,256($0); addu $3,$2,$0; addu $4,$2,$0
        ([0x8C02_0100, 0x0040_1821, 0x0040_2021], (5, 1, 5)),
        // lw $2,256($0); addiu $2,$0,9; nop
        ([0x8C02_0100, 0x2402_0009, 0], (9, 0, 0)),
        // lw $2,256($0); lb $2,257($0); addu $3,$2,$0
        ([0x8C02_0100, 0x8002_0101, 0x0040_1821], (0, 5, 0)),
        // lw $0,256($0); addu $3,$0,$0; addu $4,$0,$0
        ([0x8C00_0100, 0x0000_1821, 0x0000_2021], (1, 0, 0)),
        // lw $2,256($0); jal 0x10C; addu $3,$2,$0
        ([0x8C02_0100, 0x0C00_0043, 0x0040_1821], (5, 5, 0)),
    ];
    for (words, registers) in table {
        let mut ram = Ram::new(rt.alloc(), 0x100, &[5, words[0], words[1], words[2]])?;
        let mut cpu = cpu_at(0x104);
        cpu.regs[2] = 1;
        for _ in 0..3 {
            assert_eq!(rt; step(&mut cpu, &mut ram), Event::Plain);
        }
        assert_eq!(rt; (cpu.regs[2], cpu.regs[3], cpu.regs[4]), registers);
    }
    Ok(())
}

#[test]
fn pending_at_a_fault(rt: HostRuntime) -> Result<(), Fail> {
    // lw $2,256($0); break 0
    let mut ram = Ram::new(rt.alloc(), 0x100, &[5, 0x8C02_0100, 0x0000_000D])?;
    let mut cpu = cpu_at(0x104);
    assert_eq!(rt; step(&mut cpu, &mut ram), Event::Plain);
    let before = cpu;
    assert_eq!(rt; step(&mut cpu, &mut ram), Event::Fault(GuestFault::Break));
    assert_eq!(rt; cpu, before);
    Ok(())
}

#[test]
fn pending_at_a_call(rt: HostRuntime) -> Result<(), Fail> {
    // lw $2,256($0); syscall 0
    let mut ram = Ram::new(rt.alloc(), 0x100, &[5, 0x8C02_0100, 0x0000_000C])?;
    let mut cpu = cpu_at(0x104);
    assert_eq!(rt; step(&mut cpu, &mut ram), Event::Plain);
    assert_eq!(rt; (cpu.regs[2], cpu.pending.is_some()), (0, true));
    assert_eq!(rt; step(&mut cpu, &mut ram), Event::Service(0));
    assert_eq!(rt; (cpu.regs[2], cpu.pending.is_some()), (5, false));
    Ok(())
}
