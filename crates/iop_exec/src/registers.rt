ghost use Rattle.std.specs.Prelude.{◌≡◌, ◌/◌, ◌%◌, ◌^◌, MatchOption};
ghost use Rattle.iop_exec.specs.Processors.{registers_of, cpu_of};
ghost use Rattle.iop_exec.specs.Row.{reg, reg_in, with_reg, with_link, with_pending, after_write_back, at_next, after_jump, after_branch, place_from};

use crate::cpu::{Cpu, Event, Pending};
use crate::position::Position;
use iop_base::GuestFault;
use iop_isa::{Reg, signed_immediate};

/// The registers of a processor, apart from the [`Position`] where it stands.
#[derive(Clone, Copy, Debug, PartialEq, Eq)]
pub struct Registers {
    /// The general registers, by their numbers. Register 0 reads zero whatever is here.
    pub regs: [u32; 32],
    /// The upper half of a product, or a remainder.
    pub hi: u32,
    /// The lower half of a product, or a quotient.
    pub lo: u32,
    /// What the instruction before has loaded, if it was a load to another register than 0.
    pub pending: Option<Pending>,
}

impl Registers {
    /// Reads the registers of a processor.
    pub fn of(cpu: &Cpu) -> Self
        ensures { result ≡ registers_of cpu.now }
    {
        let regs = cpu.regs;
        Registers {
            regs,
            hi: cpu.hi,
            lo: cpu.lo,
            pending: cpu.pending,
        }
    }

    /// Makes the processor of these registers that stands at a position.
    pub fn standing_at(self, position: Position) -> Cpu
        ensures { result ≡ cpu_of self position }
    {
        let regs = self.regs;
        Cpu {
            regs,
            hi: self.hi,
            lo: self.lo,
            pc: position.pc,
            next: position.next,
            in_slot: position.in_slot,
            pending: self.pending,
        }
    }

    /// Reads a register.
    pub(crate) fn reg(&self, register: Reg) -> u32
        ensures { result ≡ reg_in self.now.regs register }
    {
        match register.number() {
            0 => 0,
            number => self.regs[number as usize],
        }
    }

    /// Reads a register as it is once what is pending is written.
    pub(crate) fn latest(&self, register: Reg) -> u32
        ensures { (p : Position) → result ≡ reg (after_write_back (cpu_of self.now p)) register }
    {
        let number = register.number();
        match self.pending {
            Some(load) if number != 0 && load.reg.number() == number => load.value,
            _ => self.reg(register),
        }
    }

    /// Computes the address of a load or a store: a register plus a signed immediate.
    pub(crate) fn place(&self, register: Reg, imm: u16) -> u32
        ensures { result ≡ place_from (reg_in self.now.regs register) imm }
    {
        self.reg(register).wrapping_add(signed_immediate(imm))
    }

    /// Ends an instruction: its result goes into a register.
    pub(crate) fn complete(&mut self, position: &mut Position, register: Reg, value: u32) -> Event
        ensures state { cpu_of self.new position.new
            ≡ at_next (with_reg (after_write_back (cpu_of self.old position.old)) register value) }
        ensures event { result ≡ Event.Plain }
    {
        self.write_back();
        self.write(register, value);
        position.advance();
        Event::Plain
    }

    /// Ends a load: the number is pending for a register. `Address` where there is none.
    pub(crate) fn load(
        &mut self,
        position: &mut Position,
        register: Reg,
        number: Option<u32>,
    ) -> Event
        ensures { MatchOption number
            ((result ≡ Event.Fault GuestFault.Address) × (cpu_of self.new position.new
            ≡ cpu_of self.old position.old))
            (λ n. (result ≡ Event.Plain) × (cpu_of self.new position.new
            ≡ at_next (with_pending (after_write_back (cpu_of self.old position.old)) register n))) }
    {
        match number {
            Some(number) => {
                self.write_back();
                self.make_pending(register, number);
                position.advance();
                Event::Plain
            }
            None => Event::Fault(GuestFault::Address),
        }
    }

    /// Ends a sum or a difference: it goes into a register. `Overflow` where none fits.
    pub(crate) fn complete_sum(
        &mut self,
        position: &mut Position,
        register: Reg,
        sum: Option<u32>,
    ) -> Event
        ensures { MatchOption sum
            ((result ≡ Event.Fault GuestFault.Overflow) × (cpu_of self.new position.new
            ≡ cpu_of self.old position.old))
            (λ n. (result ≡ Event.Plain) × (cpu_of self.new position.new
            ≡ at_next (with_reg (after_write_back (cpu_of self.old position.old)) register n))) }
    {
        match sum {
            Some(sum) => self.complete(position, register, sum),
            None => Event::Fault(GuestFault::Overflow),
        }
    }

    /// Ends an instruction that writes HI and LO.
    pub(crate) fn complete_pair(&mut self, position: &mut Position, hi: u32, lo: u32) -> Event
        ensures state { cpu_of self.new position.new
            ≡ at_next (record (after_write_back (cpu_of self.old position.old)) { hi = hi; lo = lo }) }
        ensures event { result ≡ Event.Plain }
    {
        self.write_back();
        self.hi = hi;
        self.lo = lo;
        position.advance();
        Event::Plain
    }

    /// Ends a multiplication: the upper half of the product goes into HI, the lower into LO.
    pub(crate) fn complete_product(&mut self, position: &mut Position, product: u64) -> Event
        ensures state { let old = after_write_back (cpu_of self.old position.old) in
            cpu_of self.new position.new ≡ at_next (record old {
              hi = product / 2 ^ 32;
              lo = product % 2 ^ 32;
            }) }
        ensures event { result ≡ Event.Plain }
    {
        self.complete_pair(
            position,
            (product >> 32) as u32,
            (product % (1 << 32)) as u32,
        )
    }

    /// Jumps.
    pub(crate) fn jump(&mut self, position: &mut Position, target: u32) -> Event
        ensures state { cpu_of self.new position.new
            ≡ after_jump (after_write_back (cpu_of self.old position.old)) target }
        ensures event { result ≡ Event.Plain }
    {
        self.write_back();
        position.jump(target)
    }

    /// Branches, or not.
    pub(crate) fn branch(&mut self, position: &mut Position, taken: bool, imm: u16) -> Event
        ensures state { cpu_of self.new position.new
            ≡ after_branch (after_write_back (cpu_of self.old position.old)) taken imm }
        ensures event { result ≡ Event.Plain }
    {
        self.write_back();
        position.branch(taken, imm)
    }

    /// Jumps, with the address behind the delay slot in a register.
    pub(crate) fn jump_and_link(
        &mut self,
        position: &mut Position,
        register: Reg,
        target: u32,
    ) -> Event
        ensures state { cpu_of self.new position.new
            ≡ after_jump (with_link (after_write_back (cpu_of self.old position.old)) register) target }
        ensures event { result ≡ Event.Plain }
    {
        self.write_back();
        self.link(position, register);
        position.jump(target)
    }

    /// Branches, or not, with the address behind the delay slot in register 31 either way.
    pub(crate) fn branch_and_link(
        &mut self,
        position: &mut Position,
        taken: bool,
        imm: u16,
    ) -> Event
        ensures state { cpu_of self.new position.new
            ≡ after_branch (with_link (after_write_back (cpu_of self.old position.old)) 31) taken imm }
        ensures event { result ≡ Event.Plain }
    {
        self.write_back();
        self.link(position, Reg::new(31));
        position.branch(taken, imm)
    }

    /// Writes what is pending to its register.
    pub(crate) fn write_back(&mut self)
        ensures { (p : Position) → cpu_of self.new p ≡ after_write_back (cpu_of self.old p) }
    {
        if let Some(load) = self.pending {
            self.write(load.reg, load.value);
            self.pending = None;
        }
    }

    /// Lets a value be pending for a register, unless it is register 0.
    fn make_pending(&mut self, register: Reg, value: u32)
        ensures { (p : Position) → cpu_of self.new p
            ≡ with_pending (cpu_of self.old p) register value }
    {
        if register.number() != 0 {
            self.pending = Some(Pending {
                reg: register,
                value,
            });
        }
    }

    /// Writes the address behind the delay slot to a register.
    fn link(&mut self, position: &Position, register: Reg)
        ensures { (p : Position) → p.pc ≡ position.now.pc
            → cpu_of self.new p ≡ with_link (cpu_of self.old p) register }
    {
        self.write(register, position.pc.wrapping_add(8));
    }

    /// Writes a register, unless it is register 0.
    fn write(&mut self, register: Reg, value: u32)
        ensures { (p : Position) → cpu_of self.new p ≡ with_reg (cpu_of self.old p) register value }
    {
        let number = register.number();
        if number != 0 {
            self.regs[number as usize] = value;
        }
    }
}
