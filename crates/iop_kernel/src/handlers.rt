//! The handlers of interrupt lines and of alarms: how they begin and return.

ghost use Rattle.std.specs.Prelude.{◌≡◌};
ghost use Rattle.iop_kernel.specs.Handlers.{handler_registers, begins_handler, gives_result, return_handler};
ghost use Rattle.iop_kernel.specs.Standing.{Holds, IsHeld, IsCause, TakesCore, core};
ghost use Rattle.iop_kernel.specs.System.{Kernel as State};

use crate::active_handler::{ActiveHandler, Cause, HANDLER_RETURN, HANDLER_STACK};
use crate::after::After;
use crate::kernel::Kernel;
use iop_base::GuestFault;
use iop_exec::Cpu;
use iop_intr::Handler;
use iop_ready::Ready;
use iop_thread::registers_at;

/// Makes the registers with which a handler begins: all zero but `$a0` its argument, `$gp` that of
/// who registered it, `$sp` in the handlers' stack, `$ra` where a handler returns to.
fn handler_registers(handler: Handler) -> Cpu
    ensures { result ≡ handler_registers handler }
{
    let mut registers = registers_at(handler.address);
    registers.regs[4] = handler.arg;
    registers.regs[28] = handler.gp;
    registers.regs[29] = HANDLER_STACK;
    registers.regs[31] = HANDLER_RETURN;
    registers
}

impl<R: Ready> Kernel<R> {
    /// Lets a handler begin. The processor's registers are kept.
    pub(crate) fn begin_handler(&mut self, cause: Cause, handler: Handler, cpu: &mut Cpu)
        requires cause { IsCause cause }
        ensures kernel { (k : State) → Holds R.stands self.old k
            → let c = core k cpu.old in
            Holds R.stands self.new (begins_handler c cause handler).kernel }
        ensures processor { cpu.new ≡ handler_registers handler }
    {
        self.handler = Some(ActiveHandler { cause, kept: *cpu });
        *cpu = handler_registers(handler);
    }

    /// Does what a handler's result does to its line or its alarm.
    fn give_result(&mut self, cause: Cause, value: u32)
        requires cause { IsCause cause }
        ensures { (k : State) → Holds R.stands self.old k
            → Holds R.stands self.new (gives_result k cause value) }
    {
        match cause {
            Cause::Line(line) => self.irqs.finish(line, value),
            Cause::Alarm(number) if value == 0 => self.timers.remove(number),
            Cause::Alarm(number) => self.timers.set_again(number, value),
        }
    }

    /// Ends the handler that runs, with the word in `$v0` as its result: 0 disables its line or
    /// removes its alarm; another enables its line where it still has a handler, or sets its alarm
    /// again, so many ticks after its old moment. Interrupts are then on, and the thread that it
    /// interrupted goes on. Where no handler runs the call faults.
    pub(crate) fn return_handler(&mut self, cpu: &mut Cpu) -> After
        requires sound { IsHeld R.stands self.old }
        ensures { (k : State) → Holds R.stands self.old k
            → TakesCore R.stands (return_handler (core k cpu.old)) result self.new cpu.new }
    {
        let Some(handler) = self.handler else {
            return After::Fault(GuestFault::Service);
        };
        self.give_result(handler.cause, cpu.regs[2]);
        self.handler = None;
        self.interrupts = true;
        *cpu = handler.kept;
        After::Switch
    }
}
