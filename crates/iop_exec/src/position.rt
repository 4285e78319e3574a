ghost use Rattle.std.specs.Prelude.{◌≡◌};
ghost use Rattle.iop_exec.specs.Processors.{position_of, next_position, position_after_jump, position_after_branch};

use crate::cpu::{Cpu, Event};
use iop_isa::branch_target;

/// Where a processor stands: at which instruction, and at which one after it.
#[derive(Clone, Copy, Debug, PartialEq, Eq)]
pub struct Position {
    /// The address of the instruction to be executed.
    pub pc: u32,
    /// The address of the instruction after it.
    pub next: u32,
    /// Whether the instruction to be executed stands in a delay slot.
    pub in_slot: bool,
}

impl Position {
    /// Reads where a processor stands.
    pub fn of(cpu: &Cpu) -> Self
        ensures { result ≡ position_of cpu.now }
    {
        Position {
            pc: cpu.pc,
            next: cpu.next,
            in_slot: cpu.in_slot,
        }
    }

    /// Moves on to the next instruction, after one that is no branch or jump.
    pub(crate) fn advance(&mut self)
        ensures { self.new ≡ next_position self.old }
    {
        self.pc = self.next;
        self.next = self.next.wrapping_add(4);
        self.in_slot = false;
    }

    /// Jumps: the instruction at `next` stands in the delay slot, and the one at the target comes
    /// after it.
    pub(crate) fn jump(&mut self, target: u32) -> Event
        ensures position { self.new ≡ position_after_jump self.old target }
        ensures event { result ≡ Event.Plain }
    {
        self.pc = self.next;
        self.next = target;
        self.in_slot = true;
        Event::Plain
    }

    /// Branches, or not: the delay slot comes first either way.
    pub(crate) fn branch(&mut self, taken: bool, imm: u16) -> Event
        ensures position { self.new ≡ position_after_branch self.old taken imm }
        ensures event { result ≡ Event.Plain }
    {
        let target = if taken {
            branch_target(self.pc, imm)
        } else {
            self.next.wrapping_add(4)
        };
        self.jump(target)
    }
}
