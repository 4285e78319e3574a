use iop_base::{GuestFault, Line, Lines, Width};
use iop_exec::Cpu;
use iop_libs::{serve_loadcore, serve_stdio, serve_sysmem};
use iop_registry::Registry;
use iop_services::{LoadcoreService, StdioService, SysmemService};
use iop_stubs::{Guest, Stub};
use iop_sysmem::Blocks;
use std::alloc::Global;
use std::process::Abort;
use std::test::Fail;

/// Keeps the last text that it is told.
#[derive(Drop)]
struct LastText {
    bytes: Vec<u8>,
}

impl Lines for LastText {
    ghost use Rattle.std.specs.Prelude.{None, false, []};

    ghost output = { λ _. record {
      console = None;
      trace = None;
      failed = false;
      console_faults = 0;
      trace_faults = 0;
      names = [];
    } };

    fn line(&mut self, _t: u64, _line: Line) {}

    fn text(&mut self, bytes: &[u8]) {
        self.bytes.clear();
        let _ = self.bytes.extend_from_slice(bytes);
    }
}

/// What the services work on.
#[derive(Drop)]
struct World {
    guest: Guest,
    blocks: Blocks,
    registry: Registry,
    lines: LastText,
}

impl World {
    fn new(alloc: Global) -> Result<Self, Fail> {
        Ok(World {
            guest: Guest::new(alloc, 0x20_0000)?,
            blocks: Blocks::new(alloc, 0x20_0000)?,
            registry: Registry::new(alloc)?,
            lines: LastText {
                bytes: Vec::new(alloc),
            },
        })
    }

    /// Stores words from a place on.
    fn put(&mut self, rt: &impl Abort, from: u32, words: &[u32]) {
        let mut at = from;
        for word in words {
            let stored = self.guest.store(at, Width::Word, *word, 0, &mut self.lines);
            assert_eq!(rt; stored, Ok(()));
            at = at.wrapping_add(4);
        }
    }

    /// Calls a service of `loadcore`.
    fn loadcore(&mut self, service: LoadcoreService, a0: u32) -> Result<u32, GuestFault> {
        let cpu = processor(a0, 0, 0);
        serve_loadcore(service, &cpu, &self.guest, &mut self.registry)
    }

    /// Calls a service of `sysmem`.
    fn sysmem(&mut self, service: SysmemService, a0: u32, a1: u32, a2: u32) -> u32 {
        let cpu = processor(a0, a1, a2);
        serve_sysmem(
            service,
            &cpu,
            &self.guest,
            &mut self.blocks,
            &mut self.lines,
        )
    }
}

/// Makes a processor with the arguments of a call.
fn processor(a0: u32, a1: u32, a2: u32) -> Cpu {
    let mut regs = [0; 32];
    regs[4] = a0;
    regs[5] = a1;
    regs[6] = a2;
    Cpu {
        regs,
        hi: 0,
        lo: 0,
        pc: 0,
        next: 4,
        in_slot: false,
        pending: None,
    }
}

/// Makes the word of a negative code.
fn refusal(code: i32) -> u32 {
    code.cast_unsigned()
}

#[test]
fn blocks(rt: HostRuntime) -> Result<(), Fail> {
    let mut world = World::new(rt.alloc())?;
    assert_eq!(rt;
        world.sysmem(SysmemService::AllocSysMemory, 0, 8, 0),
        0x1_0000
    );
    assert_eq!(rt;
        world.sysmem(SysmemService::AllocSysMemory, 0, 1, 0),
        0x1_0100
    );
    assert_eq!(rt;
        world.sysmem(SysmemService::AllocSysMemory, 1, 0x200, 0),
        0x1F_FE00
    );
    assert_eq!(rt;
        world.sysmem(SysmemService::AllocSysMemory, 2, 256, 0x1_0100),
        0
    );
    assert_eq!(rt;
        world.sysmem(SysmemService::FreeSysMemory, 0x1_0100, 0, 0),
        0
    );
    assert_eq!(rt;
        world.sysmem(SysmemService::FreeSysMemory, 0x1_0100, 0, 0),
        refusal(-1)
    );
    assert_eq!(rt;
        world.sysmem(SysmemService::FreeSysMemory, 0, 0, 0),
        refusal(-1)
    );
    assert_eq!(rt;
        world.sysmem(SysmemService::QueryMemSize, 0, 0, 0),
        0x20_0000
    );
    assert_eq!(rt;
        world.sysmem(SysmemService::QueryMaxFreeMemSize, 0, 0, 0),
        0x1E_FD00
    );
    assert_eq!(rt;
        world.sysmem(SysmemService::QueryTotalFreeMemSize, 0, 0, 0),
        0x1E_FD00
    );
    assert_eq!(rt;
        world.sysmem(SysmemService::QueryBlockTopAddress, 0x1_0050, 0, 0),
        0x1_0000
    );
    assert_eq!(rt;
        world.sysmem(SysmemService::QueryBlockSize, 0x1_0050, 0, 0),
        0x100
    );
    assert_eq!(rt;
        world.sysmem(SysmemService::QueryBlockTopAddress, 0x2_0000, 0, 0),
        0xFFFF_FFFF
    );
    Ok(())
}

/// An import of `sysmem`, bound to a service.
const STUB: Stub = Stub {
    at: 0x1_0014,
    name: *b"sysmem\0\0",
    major: 1,
    index: 14,
    target: 0x44E0,
};

/// Binds the stub where none is live.
fn bind_stub(rt: &impl Abort, world: &mut World) {
    world.put(rt, STUB.at, &[0x03E0_0008, 0x2400_000E]);
    assert_eq!(rt; world.guest.ram().size(), 0x20_0000);
    assert_eq!(rt; world.guest.room(), 65_536);
    assert_eq!(rt; world.guest.ram().load32(STUB.at), Ok(0x03E0_0008));
    assert_eq!(rt; world.guest.ram().load32(STUB.at + 4), Ok(0x2400_000E));
    world.guest.bind(STUB);
}

#[test]
fn libraries(rt: HostRuntime) -> Result<(), Fail> {
    let mut world = World::new(rt.alloc())?;
    world.put(
        &rt,
        0x1E00,
        &[0x41C0_0000, 0, 0x0101, 0x6964_7473, 0x0000_006F],
    );
    bind_stub(&rt, &mut world);
    assert_eq!(rt;
        world.loadcore(LoadcoreService::ReleaseLibraryEntries, 0x1200),
        Ok(refusal(-215))
    );
    assert_eq!(rt;
        world.loadcore(LoadcoreService::ReleaseLibraryEntries, 0x1E00),
        Ok(0)
    );
    assert_eq!(rt;
        world.loadcore(LoadcoreService::ReleaseLibraryEntries, 0x1E00),
        Ok(refusal(-213))
    );
    assert_eq!(rt;
        world.loadcore(LoadcoreService::RegisterLibraryEntries, 0x1E00),
        Ok(0)
    );
    assert_eq!(rt;
        world.loadcore(LoadcoreService::RegisterLibraryEntries, 0x1E00),
        Ok(refusal(-212))
    );
    assert_eq!(rt;
        world.loadcore(LoadcoreService::RegisterLibraryEntries, 0x2_0000),
        Ok(refusal(-214))
    );
    assert_eq!(rt;
        world.loadcore(LoadcoreService::RegisterLibraryEntries, 0x1E02),
        Err(GuestFault::Address)
    );
    assert_eq!(rt;
        world.loadcore(LoadcoreService::RegisterLibraryEntries, 0x1F_FFF0),
        Err(GuestFault::Address)
    );
    Ok(())
}

#[test]
fn texts_and_numbers(rt: HostRuntime) -> Result<(), Fail> {
    let mut world = World::new(rt.alloc())?;
    world.put(&rt, 0x2_0000, &[0x000A_6968]);
    assert_eq!(rt; world.sysmem(SysmemService::Kprintf, 0x2_0000, 0, 0), 3);
    assert_eq!(rt; world.lines.bytes.as_slice(), b"hi\n".as_slice());
    world.put(&rt, 0x2_0000, &[0x7825_6425, 0x0000_6425]);
    let cpu = processor(0x2_0000, 0x1F, 100);
    let printed = serve_stdio(StdioService::Printf, &cpu, &world.guest, &mut world.lines);
    assert_eq!(rt; printed, 5);
    assert_eq!(rt; world.lines.bytes.as_slice(), b"31640".as_slice());
    assert_eq!(rt; world.loadcore(LoadcoreService::FlushIcache, 0), Ok(0));
    Ok(())
}
