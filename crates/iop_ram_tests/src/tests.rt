use iop_base::Bad;
use iop_ram::{Ram, physical};
use std::test::Fail;

#[test]
fn numbers_and_places(rt: HostRuntime) -> Result<(), Fail> {
    let mut ram = Ram::new(rt.alloc(), 0x20_0000)?;
    assert_eq!(rt; ram.size(), 0x20_0000);
    assert_eq!(rt; ram.store32(0x100, 0x8001_2340), Ok(()));
    for at in [0x8000_0100, 0xA000_0100] {
        assert_eq!(rt; ram.load32(at), Ok(0x8001_2340));
    }
    assert_eq!(rt; ram.load8(0x100), Ok(0x40));
    assert_eq!(rt; ram.load16(0x102), Ok(0x8001));
    assert_eq!(rt; ram.load16(0x101), Err(Bad));
    assert_eq!(rt; ram.load32(0x102), Err(Bad));
    for at in [0x20_0000, 0x4000_0000] {
        assert_eq!(rt; ram.load8(at), Err(Bad));
    }
    assert_eq!(rt; ram.store8(0x1F_FFFF, 7), Ok(()));
    assert_eq!(rt; ram.store16(0x1F_FFFF, 7), Err(Bad));
    let rows = [
        (0x1F_FFFC, 4, Some(4)),
        (0x1F_FFFC, 5, None),
        (0x1F_FFFF, 0, Some(0)),
        (0x20_0000, 0, None),
    ];
    for (at, len, wanted) in rows {
        assert_eq!(rt; ram.window(at, len).map(|bytes| bytes.len()), wanted);
        assert_eq!(rt; ram.contains(at, len), wanted.is_some());
    }
    assert_eq!(rt; physical(0x8001_2340, 0x20_0000), Some(0x1_2340));
    assert_eq!(rt; physical(0x2000_0000, 0x20_0000), None);
    Ok(())
}

#[test]
fn stores_of_bytes(rt: HostRuntime) -> Result<(), Fail> {
    let mut ram = Ram::new(rt.alloc(), 0x20_0000)?;
    let bytes = [0x34, 0x12, 0x78, 0x56];
    let rows = [
        (0x101, 4, Ok(())),
        (0xA01F_FFFC, 4, Ok(())),
        (0x1F_FFFD, 4, Err(Bad)),
        (0x1F_FFFF, 0, Ok(())),
        (0x20_0000, 0, Err(Bad)),
    ];
    for (at, len, wanted) in rows {
        assert_eq!(rt; ram.store_bytes(at, &bytes[..len]), wanted);
    }
    assert_eq!(rt; ram.load32(0x100), Ok(0x7812_3400));
    assert_eq!(rt; ram.load32(0x104), Ok(0x56));
    assert_eq!(rt; ram.load32(0x1F_FFFC), Ok(0x5678_1234));
    Ok(())
}

#[test]
fn a_window_is_written(rt: HostRuntime) -> Result<(), Fail> {
    let mut ram = Ram::new(rt.alloc(), 0x20_0000)?;
    assert_eq!(rt; ram.contains(0x8000_0102, 4), true);
    ram.window_mut(0x8000_0102, 4).copy_from_slice(b"iopm");
    assert_eq!(rt; ram.window(0x100, 8), Some(b"\0\0iopm\0\0".as_slice()));
    Ok(())
}

#[test]
fn bytes_are_copied(rt: HostRuntime) -> Result<(), Fail> {
    let mut ram = Ram::new(rt.alloc(), 0x20_0000)?;
    assert_eq!(rt; ram.store32(0x1F_FFFC, 0x5678_1234), Ok(()));
    let bytes = ram.window(0, 0x20_0000).unwrap_or(&[]);
    assert_eq!(rt; bytes.len(), 0x20_0000);
    let copy = Ram::of_bytes(rt.alloc(), bytes)?;
    assert_eq!(rt; copy.size(), 0x20_0000);
    assert_eq!(rt; copy.load32(0), Ok(0));
    assert_eq!(rt; copy.load32(0x1F_FFFC), Ok(0x5678_1234));
    Ok(())
}
