use arrayvec::ArrayVec;
use iop_printf::{format, format_regs};
use iop_ram::Ram;
use std::alloc::Global;
use std::test::Fail;

/// Where the tests put a format.
const FORMAT: u32 = 0x1000;

/// Where the tests put a string.
const STRING: u32 = 0x2000;

/// Where the stack pointer stands.
const STACK: u32 = 0x3000;

/// Makes memory with a format and a string, and two arguments on the stack.
fn memory(alloc: Global, fmt: &[u8], string: &[u8], stack: [u32; 2]) -> Result<Ram, Fail> {
    let mut ram = Ram::new(alloc, 0x20_0000)?;
    let _ = ram.store_bytes(FORMAT, fmt);
    let _ = ram.store_bytes(STRING, string);
    let _ = ram.store32(STACK + 16, stack[0]);
    let _ = ram.store32(STACK + 20, stack[1]);
    Ok(ram)
}

#[test]
fn five_conversions_and_a_percent_sign(rt: HostRuntime) -> Result<(), Fail> {
    let fmt = b"[%5d|%-5x|%05u|%s|%c|%%]";
    let ram = memory(rt.alloc(), fmt, b"ab", [STRING, 90])?;
    let mut out = ArrayVec::new();
    format(&ram, FORMAT, [0xFFFF_FFD6, 255, 7], STACK, &mut out);
    assert_eq!(rt; out.as_slice(), b"[  -42|ff   |00007|ab|Z|%]".as_slice());
    assert_eq!(rt; out.len(), 26);
    Ok(())
}

#[test]
fn conversions_have_texts(rt: HostRuntime) -> Result<(), Fail> {
    let table: [(&str, u32, &str); 24] = [
        ("%.0d", 0, "0"),
        ("%5.3d.", 0xFFFF_FFF9, " -007."),
        ("%05d", 0xFFFF_FFD6, "-0042"),
        ("%05.3d", 42, "  042"),
        ("%05.d", 42, "   42"),
        ("%-05d|", 42, "42   |"),
        ("%i", 0x8000_0000, "-2147483648"),
        ("%o %d", 8, "10 5"),
        ("%X", 0xBEEF, "BEEF"),
        ("%lx", 0xBEEF, "beef"),
        ("%p", 255, "000000ff"),
        ("%-10p|", 255, "000000ff  |"),
        ("%.10p", 255, "00000000ff"),
        ("%03c", 0x141, "  A"),
        ("%s", STRING, "string"),
        ("%8.3s|", STRING, "     str|"),
        ("%-8.3s|", STRING, "str     |"),
        ("%.9s", 0, "(null)"),
        ("%.3s", 0, "(nu"),
        ("%s", 0xFFFF_FFFF, ""),
        ("%5%", 1, "%"),
        ("%-5.2hq%u", 1, "%-5.2hq1"),
        ("%d%", 1, "1%"),
        ("%d%05.", 1, "1%05."),
    ];
    let mut out = ArrayVec::new();
    for (fmt, argument, text) in &table {
        let ram = memory(rt.alloc(), fmt.as_bytes(), b"string", [0, 0])?;
        format(&ram, FORMAT, [*argument, 5, 6], STACK, &mut out);
        assert_eq!(rt; out.as_slice(), text.as_bytes());
    }
    Ok(())
}

#[test]
fn arguments_stand_in_as_many_registers(rt: HostRuntime) -> Result<(), Fail> {
    let ram = memory(rt.alloc(), b"%d-%s|%u %x", b"x", [7, 255])?;
    let mut out = ArrayVec::new();
    format_regs(&ram, FORMAT, &[0xFFFF_FFFB, STRING], STACK, &mut out);
    assert_eq!(rt; out.as_slice(), b"-5-x|7 ff".as_slice());
    format_regs(&ram, FORMAT, &[1], STACK - 4, &mut out);
    assert_eq!(rt; out.as_slice(), b"1-(null)|7 ff".as_slice());
    Ok(())
}

#[test]
fn texts_are_cut(rt: HostRuntime) -> Result<(), Fail> {
    let ram = memory(rt.alloc(), b"a%5000d", b"", [0, 0])?;
    let mut out = ArrayVec::new();
    format(&ram, FORMAT, [7, 0, 0], STACK, &mut out);
    assert_eq!(rt; out.len(), 4096);
    assert_eq!(rt; &out.as_slice()[..3], b"a  ".as_slice());
    assert_eq!(rt; out.as_slice()[4095], b' ');
    Ok(())
}

#[test]
fn what_lies_outside_ram_is_nothing(rt: HostRuntime) -> Result<(), Fail> {
    let mut ram = memory(rt.alloc(), b"%d%d%d %d %d", b"", [8, 9])?;
    let mut out = ArrayVec::new();
    format(&ram, FORMAT, [1, 2, 3], STACK + 1, &mut out);
    assert_eq!(rt; out.as_slice(), b"123 0 0".as_slice());
    format(&ram, FORMAT, [1, 2, 3], 0x001F_FFF0, &mut out);
    assert_eq!(rt; out.as_slice(), b"123 0 0".as_slice());
    format(&ram, FORMAT, [1, 2, 3], STACK + 4, &mut out);
    assert_eq!(rt; out.as_slice(), b"123 9 0".as_slice());
    format(&ram, 0x0020_0000, [1, 2, 3], STACK, &mut out);
    assert_eq!(rt; out.len(), 0);
    let _ = ram.store_bytes(0x001F_FFFD, b"end");
    format(&ram, 0xA01F_FFFD, [1, 2, 3], STACK, &mut out);
    assert_eq!(rt; out.as_slice(), b"end".as_slice());
    Ok(())
}
