ghost use Rattle.std.specs.Prelude.{◌≡◌, length};

use iop_ram::Ram;
use irx_tables::{Import, Next, export_word, exports_count, header, imports, stub};
use std::process::Abort;
use std::test::Fail;

/// Where the texts of the tests stand.
const TEXT: u32 = 0x1_0000;

/// Stores words from a place on.
fn put(rt: &impl Abort, ram: &mut Ram, from: u32, words: &[u32])
    ensures { length ram.new ≡ length ram.old }
{
    let mut at = from;
    for word in words {
        assert_eq!(rt; ram.store32(at, *word), Ok(()));
        at = at.wrapping_add(4);
    }
}

const SYSMEM: [u32; 10] = [
    0x41E0_0000,
    0,
    0x0000_0101,
    0x6D73_7973,
    0x0000_6D65,
    0x03E0_0008,
    0x2400_000E,
    0,
    0,
    0x03E0_8021,
];

#[test]
fn import_tables(rt: HostRuntime) -> Result<(), Fail> {
    let mut ram = Ram::new(rt.alloc(), 0x20_0000)?;
    put(&rt, &mut ram, TEXT, &SYSMEM);
    let sysmem = Import {
        at: TEXT,
        name: *b"sysmem\0\0",
        version: 0x0101,
        stubs: 1,
        end: 0x1_0024,
    };
    assert_eq!(rt; imports(&ram, TEXT, 40, TEXT), Next::Table(sysmem));
    assert_eq!(rt; stub(&ram, &sysmem, 0), (0x1_0014, 14));
    assert_eq!(rt; imports(&ram, TEXT, 40, 0x1_0024), Next::End);
    assert_eq!(rt; imports(&ram, TEXT, 8, TEXT), Next::Bad(TEXT));
    put(&rt, &mut ram, TEXT, &[0x41E0_0000, 1]);
    assert_eq!(rt; imports(&ram, TEXT, 40, TEXT), Next::End);
    Ok(())
}

#[test]
fn export_tables(rt: HostRuntime) -> Result<(), Fail> {
    let mut ram = Ram::new(rt.alloc(), 0x20_0000)?;
    put(
        &rt,
        &mut ram,
        0x1200,
        &[0x41C0_0000, 7, 0x0000_0102, 0x6D73_7973, 0x0000_6D65],
    );
    assert_eq!(rt; header(&ram, 0x1200), Some((*b"sysmem\0\0", 0x0102)));
    assert_eq!(rt; header(&ram, TEXT), None);
    put(&rt, &mut ram, 0x1214, &[0x80; 64]);
    put(&rt, &mut ram, TEXT + 20, &[0x90; 1030]);
    for (table, count) in [(0x1200, 64), (0x1F_FFEC, 0), (0x1FFF_FFFC, 0), (TEXT, 1024)] {
        assert_eq!(rt; exports_count(&ram, table), count);
        assert_eq!(rt; export_word(&ram, table, count), None);
    }
    assert_eq!(rt; export_word(&ram, 0x1200, 63), Some(0x80));
    assert_eq!(rt; export_word(&ram, TEXT, 1023), Some(0x90));
    Ok(())
}
