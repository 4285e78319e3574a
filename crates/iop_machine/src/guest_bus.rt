//! Memory as the processor reaches it, and the execution of one instruction.

ghost use Rattle.iop_exec.specs.Processors.{cpu_of};
ghost use Rattle.iop_exec.specs.Row.{row};
ghost use Rattle.iop_machine.specs.Storing.{Performs};

use iop_base::{Bad, Lines, Width};
use iop_exec::{Bus, Event, Position, Registers, step_apart};
use iop_stubs::Guest;

/// Memory at one moment, with what takes the lines of the stores into live stubs.
#[derive(Drop)]
struct GuestBus<'a, L> {
    guest: &'a mut Guest,
    clock: u64,
    lines: &'a mut L,
}

impl<'a, L: Lines> Bus for GuestBus<'a, L> {
    ghost use Rattle.iop_machine.specs.Storing.{Stores, ram_of};

    ghost bytes = { ram_of };

    ghost stores = { Stores L.output };

    fn fetch(&self, at: u32) -> Result<u32, Bad> {
        self.guest.ram().load32(at)
    }

    fn load(&self, at: u32, width: Width) -> Result<u32, Bad> {
        let ram = self.guest.ram();
        Ok(match width {
            Width::Byte => u32::from(ram.load8(at)?),
            Width::Half => u32::from(ram.load16(at)?),
            Width::Word => ram.load32(at)?,
        })
    }

    fn store(&mut self, at: u32, width: Width, value: u32) -> Result<(), Bad> {
        self.guest.store(at, width, value, self.clock, self.lines)
    }
}

/// Executes one instruction at a moment.
pub(crate) fn perform<L: Lines>(
    registers: &mut Registers,
    position: &mut Position,
    guest: &mut Guest,
    clock: u64,
    lines: &mut L,
) -> Event
    ensures { Performs (row guest.old.ram (cpu_of registers.old position.old)) result clock
        (cpu_of registers.old position.old) guest.old (L.output lines.old)
        (cpu_of registers.new position.new) guest.new (L.output lines.new) }
{
    let mut bus = GuestBus {
        guest,
        clock,
        lines,
    };
    step_apart(registers, position, &mut bus)
}
