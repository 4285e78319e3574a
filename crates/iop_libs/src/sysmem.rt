//! The services of `sysmem`.

ghost use Rattle.std.specs.Prelude.{◌≡◌};
ghost use Rattle.iop_base.specs.Output.{Gives};
ghost use Rattle.iop_libs.specs.Calls.{Sight, serves_sysmem, sysmem_pieces};

use crate::stdio::print;
use iop_base::Lines;
use iop_exec::Cpu;
use iop_services::SysmemService;
use iop_stubs::Guest;
use iop_sysmem::Blocks;

/// Does what a service of `sysmem` does, and answers the word of `$v0`: an address, a size, or a
/// code as two's complement. Its arguments stand in `$a0` to `$a3` of the processor; those of a
/// format go on in the words from 16(`$sp`) on.
#[tactic(auto, using(iop_base::proofs::Giving::gives_none))]
pub fn serve_sysmem<L: Lines>(
    service: SysmemService,
    cpu: &Cpu,
    guest: &Guest,
    blocks: &mut Blocks,
    lines: &mut L,
) -> u32
    ensures answer { let s : Sight = record { memory = guest.now; cpu = cpu.now } in
        result ≡ (serves_sysmem s blocks.old service).0 }
    ensures blocks { let s : Sight = record { memory = guest.now; cpu = cpu.now } in
        blocks.new ≡ (serves_sysmem s blocks.old service).1 }
    ensures lines { let s : Sight = record { memory = guest.now; cpu = cpu.now } in
        Gives (L.output lines.old) (L.output lines.new) (sysmem_pieces s service) }
{
    let [a0, a1, a2] = [cpu.regs[4], cpu.regs[5], cpu.regs[6]];
    match service {
        SysmemService::AllocSysMemory => blocks.alloc(a0, a1, a2),
        SysmemService::FreeSysMemory => blocks.free(a0).0.cast_unsigned(),
        SysmemService::QueryMemSize => blocks.size(),
        SysmemService::QueryMaxFreeMemSize => blocks.max_free(),
        SysmemService::QueryTotalFreeMemSize => blocks.total_free(),
        SysmemService::QueryBlockTopAddress => blocks.top(a0),
        SysmemService::QueryBlockSize => blocks.block_size(a0),
        SysmemService::Kprintf => print(cpu, guest, lines),
    }
}
