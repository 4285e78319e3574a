use iop_base::Code;
use iop_registry::{Entry, Registry};
use std::test::Fail;

#[test]
fn registered_and_released(rt: HostRuntime) -> Result<(), Fail> {
    let mut registry = Registry::new(rt.alloc())?;
    let kernel = [
        (*b"loadcore", 0x1000),
        (*b"sysmem\0\0", 0x1200),
        (*b"intrman\0", 0x1400),
        (*b"thbase\0\0", 0x1600),
        (*b"thsemap\0", 0x1800),
        (*b"thevent\0", 0x1A00),
        (*b"thmsgbx\0", 0x1C00),
        (*b"stdio\0\0\0", 0x1E00),
        (*b"thvpool\0", 0x200),
        (*b"thfpool\0", 0x400),
        (*b"sysclib\0", 0x600),
    ];
    for (name, table) in kernel {
        assert_eq!(rt; registry.find(name, 1), Some(table));
        assert_eq!(rt; registry.by_table(table), Some((name, 1)));
        assert_eq!(rt; registry.find(name, 2), None);
    }
    let vbcount = *b"vbcount\0";
    let rows = [
        (vbcount, 1, 0x1_0000, Code::OK),
        (vbcount, 1, 0x1_0004, Code(-212)),
        (vbcount, 2, 0x1_0000, Code::OK),
        (*b"stdio\0\0\0", 1, 0x1_0000, Code(-212)),
    ];
    for (name, major, table, code) in rows {
        assert_eq!(rt; registry.register(name, major, table), code);
    }
    assert_eq!(rt; registry.by_table(0x1_0000), Some((vbcount, 1)));
    assert_eq!(rt; registry.release(0x1_0000), Code::OK);
    assert_eq!(rt; registry.by_table(0x1_0000), Some((vbcount, 2)));
    assert_eq!(rt; registry.release(0x1_0004), Code(-213));
    registry.drop_range(0x1C00, 0x200);
    assert_eq!(rt; registry.by_table(0x1C00), None);
    assert_eq!(rt; registry.by_table(0x1E00), Some((*b"stdio\0\0\0", 1)));
    Ok(())
}

#[test]
fn room_for_263(rt: HostRuntime) -> Result<(), Fail> {
    let mut registry = Registry::new(rt.alloc())?;
    let vbcount = *b"vbcount\0";
    for major in 0..252 {
        assert_eq!(rt; registry.register(vbcount, major, 0x1_0000), Code::OK);
    }
    assert_eq!(rt; registry.register(vbcount, 252, 0x1_0000), Code(-400));
    assert_eq!(rt; registry.register(vbcount, 251, 0x1_0000), Code(-212));
    assert_eq!(rt; registry.put_back(vbcount_at(252, 0x1_0000)), false);
    Ok(())
}

/// The library `vbcount` of a major version, with its table.
fn vbcount_at(major: u8, table: u32) -> Entry {
    Entry {
        name: *b"vbcount\0",
        major,
        table,
    }
}

#[test]
fn libraries_are_put_back(rt: HostRuntime) -> Result<(), Fail> {
    let mut registry = Registry::empty(rt.alloc())?;
    let rows = [
        (1, 0x1_0000, true),
        (1, 0x1_0004, false),
        (2, 0x1_0002, false),
        (2, 0x2000_0000, false),
        (2, 0x1FFF_FFFC, true),
    ];
    for (major, table, accepted) in rows {
        assert_eq!(rt; registry.put_back(vbcount_at(major, table)), accepted);
    }
    let entries = [vbcount_at(1, 0x1_0000), vbcount_at(2, 0x1FFF_FFFC)];
    assert_eq!(rt; registry.entries(), entries.as_slice());
    Ok(())
}
