use iop_base::Code;
use iop_sysmem::{Block, Blocks, KERNEL};
use std::test::Fail;

#[test]
fn blocks_are_given_and_freed(rt: HostRuntime) -> Result<(), Fail> {
    let mut blocks = Blocks::new(rt.alloc(), 0x20_0000)?;
    let rows = [
        (0, 8, 0, 0x1_0000),
        (0, 1, 0, 0x1_0100),
        (1, 0x200, 0, 0x1F_FE00),
        (2, 256, 0x1_0100, 0),
    ];
    for (mode, size, at, wanted) in rows {
        assert_eq!(rt; blocks.alloc(mode, size, at), wanted);
    }
    for (at, code) in [(0x1_0100, Code::OK), (0x1_0100, Code(-1)), (0, Code(-1))] {
        assert_eq!(rt; blocks.free(at), code);
    }
    assert_eq!(rt; blocks.total_free(), 0x1E_FD00);
    assert_eq!(rt; blocks.max_free(), 0x1E_FD00);
    assert_eq!(rt; blocks.top(0x1_0050), 0x1_0000);
    assert_eq!(rt; blocks.block_size(0x1_0050), 0x100);
    assert_eq!(rt; blocks.top(0x2_0000), 0xFFFF_FFFF);
    assert_eq!(rt; blocks.size(), 0x20_0000);
    Ok(())
}

#[test]
fn blocks_are_put_back(rt: HostRuntime) -> Result<(), Fail> {
    let mut blocks = Blocks::new(rt.alloc(), 0x20_0000)?;
    let rows = [
        (0xFF00, 0x100, false),
        (0x1_0080, 0x100, false),
        (0x1_0000, 0x80, false),
        (0x1_0000, 0, false),
        (0x1_0000, 0x200, true),
        (0x1_0100, 0x100, false),
        (0x1F_FF00, 0x200, false),
        (0xFFFF_FF00, 0x100, false),
        (0x1F_FF00, 0x100, true),
    ];
    for (start, size, accepted) in rows {
        assert_eq!(rt; blocks.put_back(Block { start, size }), accepted);
    }
    let used = [
        KERNEL,
        Block {
            start: 0x1_0000,
            size: 0x200,
        },
        Block {
            start: 0x1F_FF00,
            size: 0x100,
        },
    ];
    assert_eq!(rt; blocks.used(), used.as_slice());
    Ok(())
}
