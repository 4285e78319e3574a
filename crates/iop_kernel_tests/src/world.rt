ghost use Rattle.std.specs.Prelude.{◌+◌, ◌<◌, ◌≤◌, IfOk};
ghost use Rattle.iop_intr.specs.declared.irqs.TheConstants.{IRQ_LINES};
ghost use Rattle.iop_ready.specs.KernelReady.{KernelStands};
ghost use Rattle.iop_kernel.specs.Standing.{IsSound};

use crate::codes::{CREATE, CREATE_SEMA};
use iop_base::{Line, Lines, Width};
use iop_exec::Cpu;
use iop_kernel::{After, Kernel};
use iop_ready::KernelReady;
use iop_registry::Registry;
use iop_stubs::Guest;
use iop_sysmem::Blocks;
use std::alloc::Global;
use std::process::Abort;
use std::test::Fail;

/// Where the words of a new thread or semaphore stand.
const PARAM: u32 = 0x2_0000;

/// A kernel and what its services work on, and how many of them were called.
#[derive(Drop)]
pub(crate) struct World {
    calls: u64,
    kernel: Kernel<KernelReady>,
    pub cpu: Cpu,
    pub guest: Guest,
    blocks: Blocks,
    registry: Registry,
    pub lines: LastLine,
}

impl World {
    /// Makes a world whose loader's thread is ready.
    pub fn new(alloc: Global) -> Result<Self, Fail>
        ensures sound { IfOk result (λ world. IsSound KernelStands world.kernel) }
        ensures few { IfOk result (λ world. world.kernel.timers.next ≤ world.calls + 1) }
    {
        let cpu = Cpu {
            regs: [0; 32],
            hi: 0,
            lo: 0,
            pc: 0,
            next: 4,
            in_slot: false,
            pending: None,
        };
        let mut kernel = Kernel::new(alloc, KernelReady::new(alloc)?)?;
        kernel.begin(&cpu);
        Ok(World {
            calls: 0,
            kernel,
            cpu,
            guest: Guest::new(alloc, 0x20_0000)?,
            blocks: Blocks::new(alloc, 0x20_0000)?,
            registry: Registry::new(alloc)?,
            lines: LastLine { line: None },
        })
    }

    /// Dispatches, and answers whether it was made, and the last line of the trace.
    pub fn dispatch(&mut self) -> (bool, Option<Line>)
        requires sound { IsSound KernelStands self.old.kernel }
        requires few { self.old.kernel.timers.next ≤ self.old.calls + 1 }
        ensures sound { IsSound KernelStands self.new.kernel }
        ensures few { self.new.kernel.timers.next ≤ self.new.calls + 1 }
    {
        let taken = self.kernel.dispatch(&mut self.cpu, &mut self.lines);
        (taken, self.lines.line)
    }

    /// Raises an interrupt line and delivers, and answers whether something was delivered, and the
    /// last line of the trace.
    pub fn deliver(&mut self, line: u8) -> (bool, Option<Line>)
        requires sound { IsSound KernelStands self.old.kernel }
        requires line { line < IRQ_LINES }
    {
        self.kernel.raise(line);
        let delivered = self.kernel.deliver(&mut self.cpu, &mut self.lines);
        (delivered, self.lines.line)
    }

    /// Makes the `syscall` of a code, and answers what becomes of its caller, and `$v0` then.
    pub fn call(&mut self, rt: &impl Abort, code: u32, a0: u32, a1: u32) -> (After, i32)
        requires sound { IsSound KernelStands self.old.kernel }
        requires few { self.old.kernel.timers.next ≤ self.old.calls + 1 }
        ensures sound { IsSound KernelStands self.new.kernel }
        ensures few { self.new.kernel.timers.next ≤ self.new.calls + 1 }
    {
        assert_eq!(rt; self.blocks.size(), self.guest.ram().size());
        assert!(rt; self.kernel.active());
        // Each service takes one number at most for an alarm or a delay.
        assert!(rt; self.calls < 1000);
        self.calls += 1;
        self.cpu.regs[4] = a0;
        self.cpu.regs[5] = a1;
        let after = self.kernel.service(
            code,
            &mut self.cpu,
            &mut self.guest,
            &mut self.blocks,
            &mut self.registry,
            &mut self.lines,
        );
        (after, self.cpu.regs[2].cast_signed())
    }

    /// Asks for a thread: attributes, option, entry, stack size, priority.
    pub fn create(&mut self, rt: &impl Abort, words: [u32; 5]) -> (After, i32)
        requires sound { IsSound KernelStands self.old.kernel }
        requires few { self.old.kernel.timers.next ≤ self.old.calls + 1 }
        ensures sound { IsSound KernelStands self.new.kernel }
        ensures few { self.new.kernel.timers.next ≤ self.new.calls + 1 }
    {
        put(rt, &mut self.guest, &mut self.lines, words);
        self.call(rt, CREATE, PARAM, 0)
    }

    /// Asks for a semaphore: attribute, option, first count, most.
    pub fn create_sema(&mut self, rt: &impl Abort, words: [u32; 4]) -> (After, i32)
        requires sound { IsSound KernelStands self.old.kernel }
        requires few { self.old.kernel.timers.next ≤ self.old.calls + 1 }
        ensures sound { IsSound KernelStands self.new.kernel }
        ensures few { self.new.kernel.timers.next ≤ self.new.calls + 1 }
    {
        let [attr, option, initial, max] = words;
        let words = [attr, option, initial, max, 0];
        put(rt, &mut self.guest, &mut self.lines, words);
        self.call(rt, CREATE_SEMA, PARAM, 0)
    }
}

/// Keeps the last line that it is told.
#[derive(Drop)]
pub(crate) struct LastLine {
    pub line: Option<Line>,
}

impl Lines for LastLine {
    ghost use Rattle.std.specs.Prelude.{None, false, []};

    ghost output = { λ _. record {
      console = None;
      trace = None;
      failed = false;
      console_faults = 0;
      trace_faults = 0;
      names = [];
    } };

    fn line(&mut self, _t: u64, line: Line) {
        self.line = Some(line);
    }

    fn text(&mut self, _bytes: &[u8]) {}
}

/// Stores the words of a new thread or semaphore.
fn put(rt: &impl Abort, guest: &mut Guest, lines: &mut LastLine, words: [u32; 5]) {
    let mut at = PARAM;
    for word in words {
        assert_eq!(rt; guest.store(at, Width::Word, word, 0, lines), Ok(()));
        at = at.wrapping_add(4);
    }
}
