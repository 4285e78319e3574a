ghost use Rattle.std.specs.Prelude.{◌≡◌, length};

use crate::plain::PLAIN;
use iop_base::{Code, Kept, Line, Lines};
use iop_modload::{ImagePlace, Loaded, finish, load};
use iop_registry::Registry;
use iop_stubs::Guest;
use iop_sysmem::{Blocks, NOWHERE};
use std::process::Abort;
use std::test::Fail;

/// Gives no lines to anyone.
#[derive(Drop)]
struct Silent;

impl Lines for Silent {
    ghost use Rattle.std.specs.Prelude.{None, false, []};

    ghost output = { λ silent. record {
      console = None;
      trace = None;
      failed = false;
      console_faults = 0;
      trace_faults = 0;
      names = [];
    } };

    fn line(&mut self, _t: u64, _line: Line) {}

    fn text(&mut self, _bytes: &[u8]) {}
}

/// Gives where the image of the plain module stands at this place.
const fn place_at(base: u32) -> ImagePlace {
    ImagePlace { base, len: 8 }
}

/// Gives the plain module as it is loaded at this place.
const fn plain_at(base: u32) -> Loaded {
    Loaded {
        place: place_at(base),
        entry: 0,
        gp: 0,
    }
}

#[test]
fn loaded_one_behind_the_other(rt: HostRuntime) -> Result<(), Fail> {
    let registry = Registry::new(rt.alloc())?;
    let mut guest = Guest::new(rt.alloc(), 0x20_0000)?;
    let mut blocks = Blocks::new(rt.alloc(), 0x20_0000)?;
    let cut = load(
        &PLAIN[..151],
        &mut guest,
        &mut blocks,
        &registry,
        0,
        &mut Silent,
    );
    assert_eq!(rt; cut, Err(Code(-201)));
    assert_eq!(rt; blocks.total_free(), 0x1F_0000);
    assert_eq!(rt; guest.ram().load32(0x1_0000), Ok(0));
    let first = load(&PLAIN, &mut guest, &mut blocks, &registry, 0, &mut Silent);
    assert_eq!(rt; first, Ok(plain_at(0x1_0000)));
    let second = load(&PLAIN, &mut guest, &mut blocks, &registry, 0, &mut Silent);
    assert_eq!(rt; second, Ok(plain_at(0x1_0100)));
    assert_eq!(rt; guest.ram().load32(0x1_0000), Ok(0x03E0_0008));
    assert_eq!(rt; guest.ram().load32(0x1_0104), Ok(0x0000_1021));
    Ok(())
}

#[test]
fn refused_without_room(rt: HostRuntime) -> Result<(), Fail> {
    let registry = Registry::new(rt.alloc())?;
    let mut guest = Guest::new(rt.alloc(), 0x20_0000)?;
    let mut blocks = Blocks::new(rt.alloc(), 0x20_0000)?;
    assert_eq!(rt; blocks.alloc(0, 0x1F_0000, 0), 0x1_0000);
    let answer = load(&PLAIN, &mut guest, &mut blocks, &registry, 0, &mut Silent);
    assert_eq!(rt; answer, Err(Code(-400)));
    Ok(())
}

/// Finishes the plain module at 0x10000 with this value, and compares what becomes of it, and
/// what stands there then.
fn finishes(
    rt: &impl Abort,
    guest: &mut Guest,
    blocks: &mut Blocks,
    registry: &mut Registry,
    row: (u32, Kept, u32, u32),
)
    requires { blocks.old.size ≡ length guest.old.ram }
    ensures { blocks.new.size ≡ length guest.new.ram }
{
    let (value, kept, start, word) = row;
    let place = place_at(0x1_0000);
    assert_eq!(rt;
        finish(1, &place, value, guest, blocks, registry, 5, &mut Silent),
        kept
    );
    assert_eq!(rt; blocks.top(0x1_0000), start);
    assert_eq!(rt; guest.ram().load32(0x1_0000), Ok(word));
}

#[test]
fn removed_by_its_result(rt: HostRuntime) -> Result<(), Fail> {
    let mut registry = Registry::new(rt.alloc())?;
    let mut guest = Guest::new(rt.alloc(), 0x20_0000)?;
    let mut blocks = Blocks::new(rt.alloc(), 0x20_0000)?;
    let first = load(&PLAIN, &mut guest, &mut blocks, &registry, 0, &mut Silent);
    assert_eq!(rt; first, Ok(plain_at(0x1_0000)));
    for row in [
        (0, Kept::Resident, 0x1_0000, 0x03E0_0008),
        (2, Kept::Removable, 0x1_0000, 0x03E0_0008),
        (1, Kept::Removed, NOWHERE, 0),
        (1, Kept::Removed, NOWHERE, 0),
    ] {
        finishes(&rt, &mut guest, &mut blocks, &mut registry, row);
    }
    Ok(())
}
