//! Texts and libraries put together by hand in memory.

ghost use Rattle.std.specs.Prelude.{◌≤◌};

use iop_base::{Code, JUMP_BACK, Line, Lines, Width};
use iop_linker::{LinkFault, link};
use iop_registry::Registry;
use iop_stubs::Guest;
use std::alloc::Global;
use std::process::Abort;
use std::test::Fail;

/// Where the texts stand.
const TEXT: u32 = 0x1_0000;

/// Gives no lines to anyone.
#[derive(Drop)]
struct Silent;

impl Lines for Silent {
    ghost use Rattle.std.specs.Prelude.{None, false, []};

    ghost output = { λ silent. record {
      console = None;
      trace = None;
      failed = false;
      console_faults = 0;
      trace_faults = 0;
      names = [];
    } };

    fn line(&mut self, _t: u64, _line: Line) {}

    fn text(&mut self, _bytes: &[u8]) {}
}

/// Stores words from a place on.
fn put(rt: &impl Abort, guest: &mut Guest, from: u32, words: &[u32]) {
    let mut at = from;
    for word in words {
        assert_eq!(rt; guest.store(at, Width::Word, *word, 0, &mut Silent), Ok(()));
        at = at.wrapping_add(4);
    }
}

/// Makes memory with the library `sysmem` 1.1 of 64 functions at 0x1200. Function 14 is this word.
fn with_sysmem(rt: &impl Abort, alloc: Global, function: u32) -> Result<Guest, Fail> {
    let mut guest = Guest::new(alloc, 0x20_0000)?;
    put(
        rt,
        &mut guest,
        0x1200,
        &[0x41C0_0000, 0, 0x0000_0101, 0x6D73_7973, 0x0000_6D65],
    );
    for index in 0..64 {
        put(rt, &mut guest, 0x1214 + 4 * index, &[0x4400 + 0x10 * index]);
    }
    put(rt, &mut guest, 0x1214 + 4 * 14, &[function]);
    Ok(guest)
}

/// Links a text where no stub is live.
fn link_first(
    rt: &impl Abort,
    guest: &mut Guest,
    registry: &Registry,
    len: u32,
) -> Result<(), LinkFault>
    requires { len ≤ 0x1F0000 }
{
    assert_eq!(rt; guest.ram().size(), 0x20_0000);
    assert_eq!(rt; guest.room(), 65_536);
    link(guest, registry, TEXT, len)
}

/// Makes an import table of `sysmem` with one stub.
fn sysmem(version: u32, index: u32) -> [u32; 9]
    requires { index ≤ 0xFFFF }
{
    [
        0x41E0_0000,
        0,
        version,
        0x6D73_7973,
        0x0000_6D65,
        JUMP_BACK,
        0x2400_0000 + index,
        0,
        0,
    ]
}

#[test]
fn one_table(rt: HostRuntime) -> Result<(), Fail> {
    let registry = Registry::new(rt.alloc())?;
    let missing = LinkFault::NoLibrary {
        table: TEXT,
        name: *b"sysmem\0\0",
        major: 2,
    };
    let bad = LinkFault::Table { at: TEXT };
    let rows = [
        (0x0101, 14, 0x44E0, 36, Ok(()), 0x0800_1138),
        (0x0163, 14, 0x44E0, 36, Ok(()), 0x0800_1138),
        (0x0101, 63, 0x44E0, 36, Ok(()), 0x0800_11FC),
        (0x0101, 64, 0x44E0, 36, Ok(()), JUMP_BACK),
        (0x0101, 14, 0x8001_2340, 36, Ok(()), 0x0800_48D0),
        (0x0101, 14, 0x8001_2343, 36, Ok(()), 0x0800_48D0),
        (0x0201, 14, 0x44E0, 36, Err(missing), JUMP_BACK),
        (0x0201, 14, 0x44E0, 32, Err(bad), JUMP_BACK),
        (0x0101, 14, 0x44E0, 4, Ok(()), JUMP_BACK),
    ];
    assert_eq!(rt; Code::from(bad), Code::ILLEGAL_OBJECT);
    assert_eq!(rt; Code::from(missing), Code::LINK_ERROR);
    assert_eq!(rt; Code::from(LinkFault::Room), Code::NO_MEMORY);
    for (version, index, function, len, result, first) in rows {
        let mut guest = with_sysmem(&rt, rt.alloc(), function)?;
        put(&rt, &mut guest, TEXT, &sysmem(version, index));
        assert_eq!(rt; link_first(&rt, &mut guest, &registry, len), result);
        assert_eq!(rt; guest.ram().load32(0x1_0014), Ok(first));
        assert_eq!(rt; guest.ram().load32(0x1_0018), Ok(0x2400_0000 + index));
        assert_eq!(rt; guest.at(0x1_0014).is_some(), first != JUMP_BACK);
    }
    Ok(())
}

#[test]
fn a_later_refusal_binds_nothing(rt: HostRuntime) -> Result<(), Fail> {
    let registry = Registry::new(rt.alloc())?;
    for (version, end, result) in [
        (0x0101, 0, Ok(())),
        (
            0x0201,
            0,
            Err(LinkFault::NoLibrary {
                table: 0x1_0024,
                name: *b"sysmem\0\0",
                major: 2,
            }),
        ),
        (0x0101, 1, Err(LinkFault::Table { at: 0x1_0024 })),
        (0x0201, 1, Err(LinkFault::Table { at: 0x1_0024 })),
    ] {
        let mut guest = with_sysmem(&rt, rt.alloc(), 0x44E0)?;
        put(&rt, &mut guest, TEXT, &sysmem(0x0101, 14));
        put(&rt, &mut guest, 0x1_0024, &sysmem(version, 0));
        put(&rt, &mut guest, 0x1_0040, &[end]);
        assert_eq!(rt; link_first(&rt, &mut guest, &registry, 72), result);
        let (first, second) = match result {
            Ok(()) => (0x0800_1138, 0x0800_1100),
            Err(_) => (JUMP_BACK, JUMP_BACK),
        };
        assert_eq!(rt; guest.ram().load32(0x1_0014), Ok(first));
        assert_eq!(rt; guest.ram().load32(0x1_0038), Ok(second));
    }
    Ok(())
}

#[test]
fn functions_in_the_text_are_read_as_they_were(rt: HostRuntime) -> Result<(), Fail> {
    let mut registry = Registry::new(rt.alloc())?;
    assert_eq!(rt; registry.register(*b"vbcount\0", 1, TEXT), Code::OK);
    let mut guest = Guest::new(rt.alloc(), 0x20_0000)?;
    put(
        &rt,
        &mut guest,
        TEXT,
        &[0x41E0_0000, 0, 0x0000_0101, 0x6F63_6276, 0x0074_6E75],
    );
    for index in 0..3 {
        put(
            &rt,
            &mut guest,
            0x1_0014 + 8 * index,
            &[JUMP_BACK, 0x2400_0000],
        );
    }
    assert_eq!(rt; link_first(&rt, &mut guest, &registry, 52), Ok(()));
    for index in 0..3 {
        assert_eq!(rt; guest.ram().load32(0x1_0014 + 8 * index), Ok(0x08F8_0002));
    }
    assert_eq!(rt; guest.room(), 65_533);
    Ok(())
}

#[test]
fn one_stub_too_many(rt: HostRuntime) -> Result<(), Fail> {
    let registry = Registry::new(rt.alloc())?;
    let mut guest = with_sysmem(&rt, rt.alloc(), 0x44E0)?;
    put(&rt, &mut guest, TEXT, &sysmem(0x0101, 0));
    for index in 0..65_537 {
        put(
            &rt,
            &mut guest,
            0x1_0014 + 8 * index,
            &[JUMP_BACK, 0x2400_0000],
        );
    }
    assert_eq!(rt;
        link_first(&rt, &mut guest, &registry, 0x8_0100),
        Err(LinkFault::Room)
    );
    assert_eq!(rt; guest.room(), 65_536);
    assert_eq!(rt; guest.ram().load32(0x1_0014), Ok(JUMP_BACK));
    Ok(())
}
