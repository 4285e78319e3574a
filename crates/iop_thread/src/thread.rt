ghost use Rattle.std.specs.Prelude.{◌≡◌, ◌+◌, ◌<◌, ◌≤◌, ◌^◌};
ghost use Rattle.iop_thread.specs.States.{zeroed_at, first_registers};
ghost use Rattle.iop_thread.specs.Operations.{dormant_thread, loader_param};
ghost use Rattle.iop_thread.specs.ThreadTable.{as_at_first};

use crate::param::Param;
use crate::state::State;
use iop_exec::Cpu;
use iop_ready::Priority;

/// The id of the loader's thread.
pub const LOADER: u32 = 1;

/// The most wakeups that a thread can have.
pub const MOST_WAKEUPS: u32 = 0x7FFF_FFFF;

/// The attributes of the loader's thread.
pub const LOADER_ATTRIBUTE: u32 = 0x0200_0000;

/// The priority of the loader's thread.
pub const LOADER_PRIORITY: u8 = 8;

/// Where the stack of the loader's thread begins: a physical place.
pub const LOADER_STACK: u32 = 0xC000;

/// How many bytes the stack of the loader's thread has.
pub const LOADER_STACK_SIZE: u32 = 0x4000;

/// Where a thread returns to: there it ends.
pub const THREAD_RETURN: u32 = 0x3000;

/// A live thread.
#[derive(Clone, Copy, Debug, PartialEq, Eq)]
pub struct Thread {
    /// Its id: 1 to `LAST_ID`.
    pub id: u32,
    /// What it was made with.
    pub param: Param,
    /// Where its stack begins: a physical place.
    pub stack: u32,
    /// The `$gp` with which it starts: its maker's.
    pub gp: u32,
    /// Its priority now.
    pub priority: Priority,
    /// How often it was woken while it did not sleep: at most `MOST_WAKEUPS`.
    pub wakeups: u32,
    /// Its state.
    pub state: State,
}

impl Thread {
    /// Makes a dormant thread, which starts with the priority that it is made with.
    pub(crate) fn dormant(id: u32, param: Param, stack: u32, gp: u32) -> Self
        ensures { result ≡ dormant_thread id param stack gp }
    {
        Thread {
            id,
            param,
            stack,
            gp,
            priority: param.priority,
            wakeups: 0,
            state: State::Dormant,
        }
    }

    /// Makes the loader's thread: dormant.
    pub(crate) fn loader() -> Self
        ensures { result ≡ dormant_thread LOADER loader_param LOADER_STACK 0 }
    {
        let param = Param {
            attr: LOADER_ATTRIBUTE,
            option: 0,
            entry: 0,
            stack_size: LOADER_STACK_SIZE,
            priority: Priority::new(LOADER_PRIORITY),
        };
        Thread::dormant(LOADER, param, LOADER_STACK, 0)
    }

    /// Makes the thread that has its first priority and no wakeups, and is otherwise the same.
    pub(crate) fn as_at_first(&self) -> Self
        ensures { result ≡ as_at_first self.now }
    {
        Thread {
            priority: self.param.priority,
            wakeups: 0,
            ..*self
        }
    }

    /// Makes the registers with which it starts: an argument in `$a0`, its `$gp`, `$sp` 16 bytes below
    /// the end of its stack, `$ra` where it returns to.
    pub(crate) fn first_registers(&self, argument: u32) -> Cpu
        ensures { result ≡ first_registers self.now argument }
    {
        let end = self.stack.wrapping_add(self.param.stack_size);
        let mut registers = registers_at(self.param.entry);
        registers.regs[4] = argument;
        registers.regs[28] = self.gp;
        registers.regs[29] = end.wrapping_sub(16);
        registers.regs[31] = THREAD_RETURN;
        registers
    }
}

/// Makes registers that are all zero, at an address.
pub fn registers_at(pc: u32) -> Cpu
    ensures { result ≡ zeroed_at pc }
{
    Cpu {
        regs: [0; 32],
        hi: 0,
        lo: 0,
        pc,
        next: pc.wrapping_add(4),
        in_slot: false,
        pending: None,
    }
}
