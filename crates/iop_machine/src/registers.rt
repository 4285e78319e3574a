//! Registers that nobody has, and the end of a call.

ghost use Rattle.std.specs.Prelude.{◌+◌, ◌^◌, ◌<◌};
ghost use Rattle.iop_machine.specs.Iop.{Iop as State};
ghost use Rattle.iop_machine.specs.Registers.{forgotten, ends_call};
ghost use Rattle.iop_machine.specs.Standing.{Stands, IsSound};

use crate::iop::Iop;
use iop_kernel::ActiveHandler;
use iop_thread::registers_at;

impl Iop {
    /// Makes the registers zero that nobody has: those of the processor where no thread runs and no
    /// handler is active, and those that a handler keeps where no thread runs.
    pub(crate) fn forget_registers(&mut self)
        ensures { (s : State) → Stands self.old s → Stands self.new (forgotten s) }
    {
        if self.kernel.threads.running().is_some() {
            return;
        }
        match self.kernel.handler {
            Some(handler) => {
                self.kernel.handler = Some(ActiveHandler {
                    kept: registers_at(0),
                    ..handler
                });
            }
            None => self.cpu = registers_at(0),
        }
    }

    /// Ends a call: goes on to the next moment, with no registers that nobody has.
    pub(crate) fn end_call(&mut self)
        requires sound { IsSound self.old }
        requires time { self.old.kernel.clock + 1 < 2 ^ 64 }
        ensures { (s : State) → Stands self.old s → Stands self.new (ends_call s) }
    {
        self.forget_registers();
        let now = self.kernel.now();
        self.kernel.advance(now + 1);
    }
}
