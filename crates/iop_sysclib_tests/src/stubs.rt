ghost use Rattle.std.specs.Prelude.{◌≡◌, ◌+◌, ◌%◌, ◌^◌, ◌<◌, ◌≤◌};

use crate::rows::{lay, processor};
use crate::told::Told;
use iop_base::Width;
use iop_services::SysclibService;
use iop_stubs::{Guest, Stub};
use iop_sysclib::serve_sysclib;
use std::process::Abort;
use std::test::Fail;

/// The import of number 14 of `sysmem`, bound to a function at 0x44E0.
const STUB: Stub = Stub {
    at: 0x1_0014,
    name: *b"sysmem\0\0",
    major: 1,
    index: 14,
    target: 0x44E0,
};

/// Binds a stub where none is live and its two words stand.
fn bind_first(rt: &impl Abort, guest: &mut Guest, stub: Stub)
    requires aligned { stub.at % 4 ≡ 0 }
    requires inside { stub.at + 8 ≤ 0x200000 }
    requires target_aligned { stub.target % 4 ≡ 0 }
    requires target_near { stub.target < 2 ^ 28 }
{
    assert_eq!(rt; guest.ram().size(), 0x20_0000);
    assert_eq!(rt; guest.room(), 65_536);
    assert_eq!(rt; guest.ram().load32(stub.at), Ok(0x03E0_0008));
    assert_eq!(rt;
        guest.ram().load32(stub.at + 4),
        Ok(0x2400_0000 + u32::from(stub.index))
    );
    guest.bind(stub);
}

#[test]
fn a_string_ends_a_stub(rt: HostRuntime) -> Result<(), Fail> {
    let mut told = Told {
        stubs: Vec::new(rt.alloc()),
    };
    let mut guest = Guest::new(rt.alloc(), 0x20_0000)?;
    lay(&rt, &mut guest, &mut told);
    for (at, word) in [(0x1_0014, 0x03E0_0008), (0x1_0018, 0x2400_000E)] {
        assert_eq!(rt; guest.store(at, Width::Word, word, 0, &mut told), Ok(()));
    }
    bind_first(&rt, &mut guest, STUB);
    let cpu = processor([0x1_0018, 0x2_0000, 0, 0]);
    let answer = serve_sysclib(SysclibService::Strcpy, &cpu, &mut guest, 7, &mut told);
    assert_eq!(rt; answer, Ok(0x1_0018));
    assert_eq!(rt; told.stubs.as_slice(), [(7, 0x1_0014)].as_slice());
    Ok(())
}
