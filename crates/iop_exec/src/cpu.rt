ghost use Rattle.std.specs.Prelude.{◌≡◌};
ghost use Rattle.iop_exec.specs.Row.{behind_syscall};

use crate::position::Position;
use crate::registers::Registers;
use iop_base::GuestFault;
use iop_isa::Reg;

/// The processor: its registers, and where it stands.
///
/// `pc` is the address of the instruction to be executed and `next` that of the one after it, which
/// a branch or a jump has set where `pc` stands in its delay slot. Register 0 is in `regs`, but it
/// reads zero whatever is there. What a load brings is pending while the instruction behind it is
/// executed (MIPS I: load delay slots), which still reads the old value (this project's profile).
#[derive(Clone, Copy, Debug, PartialEq, Eq)]
pub struct Cpu {
    /// The general registers, by their numbers.
    pub regs: [u32; 32],
    /// The upper half of a product, or a remainder.
    pub hi: u32,
    /// The lower half of a product, or a quotient.
    pub lo: u32,
    /// The address of the instruction to be executed.
    pub pc: u32,
    /// The address of the instruction after it.
    pub next: u32,
    /// Whether the instruction to be executed stands in a delay slot.
    pub in_slot: bool,
    /// What the instruction before has loaded, if it was a load to another register than 0.
    pub pending: Option<Pending>,
}

impl Cpu {
    /// Moves on from a `syscall`, at which it stands: what is pending is written before.
    pub fn move_on(&mut self)
        ensures { self.new ≡ behind_syscall self.old }
    {
        let mut registers = Registers::of(self);
        let mut position = Position::of(self);
        registers.write_back();
        position.advance();
        *self = registers.standing_at(position);
    }
}

/// A loaded value that is not in its register yet.
#[derive(Clone, Copy, Debug, PartialEq, Eq)]
pub struct Pending {
    /// The register, from 1 to 31.
    pub reg: Reg,
    /// The value.
    pub value: u32,
}

/// What became of an instruction.
#[derive(Clone, Copy, Debug, PartialEq, Eq)]
pub enum Event {
    /// It was executed.
    Plain,
    /// It calls the service of this code.
    Service(u32),
    /// It faulted, and changed nothing.
    Fault(GuestFault),
}
