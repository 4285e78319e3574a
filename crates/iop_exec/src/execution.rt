ghost use Rattle.iop_exec.specs.Processors.{cpu_of};
ghost use Rattle.iop_exec.specs.Row.{effect_of, inst_row, row, word_row};
ghost use Rattle.iop_exec.specs.Stepping.{Does, DoesUpToCall};
ghost use Rattle.std.specs.Prelude.{Some};

use crate::arithmetic::{
    difference, is_less, is_negative, quotient, remainder, signed_product, signed_quotient,
    signed_remainder, signed_shift, sum,
};
use crate::bus::Bus;
use crate::cpu::{Cpu, Event};
use crate::memory::{
    load_at, lower_part, signed_byte, signed_half, store, store_lower_part, store_upper_part,
    upper_part,
};
use crate::position::Position;
use crate::registers::Registers;
use iop_base::{GuestFault, Width};
use iop_isa::{Fields, Inst, Reg, jump_target, select_row, signed_immediate, table};

/// Executes the instruction at `pc`.
///
/// Its faults come in this order: `Address` where `pc` is not a multiple of 4 or not in RAM,
/// `Reserved` where its word is no instruction, `BranchInSlot` where it is a branch or a jump in a
/// delay slot, then those of the instruction. One that faults changes nothing.
pub fn step<B: Bus>(cpu: &mut Cpu, bus: &mut B) -> Event
    ensures { Does B.bytes B.stores (row (B.bytes bus.old) cpu.old)
        result cpu.old bus.old cpu.new bus.new }
{
    let mut regs = Registers::of(cpu);
    let mut position = Position::of(cpu);
    let event = step_apart(&mut regs, &mut position, bus);
    *cpu = regs.standing_at(position);
    if let Event::Service(_) = event {
        cpu.move_on();
    }
    event
}

/// Executes the instruction at `pc` as [`step`] does, over registers and a position that are kept
/// apart, up to the call of a service: there the processor still stands at the `syscall`, from which
/// [`Cpu::move_on`] moves it on.
#[tactic(auto, unfolding(crate::specs::Row::row))]
pub fn step_apart<B: Bus>(regs: &mut Registers, position: &mut Position, bus: &mut B) -> Event
    ensures { DoesUpToCall B.bytes B.stores (row (B.bytes bus.old) (cpu_of regs.old position.old))
        result (cpu_of regs.old position.old) bus.old (cpu_of regs.new position.new) bus.new }
{
    match bus.fetch(position.pc) {
        Ok(word) => execute_word(word, regs, position, bus),
        Err(_) => Event::Fault(GuestFault::Address),
    }
}

/// Executes the instruction of a row, with the operands that fields hold.
macro_rules! execute_row {
    (
        ($fields:ident, $regs:ident, $position:ident, $bus:ident)
        ($name:literal $inst:ident { $($field:ident: $operand:ident),* })
    ) => {
        execute_as(Inst::$inst { $($field: $fields.$field),* }, $regs, $position, $bus)
    };
}

/// Executes the instruction that a word holds: `Reserved` where it holds none.
///
/// Each arm of the table executes its own instruction, so the word is looked at only once.
#[tactic(auto, unfolding(crate::specs::Row::word_row, iop_isa::specs::Instructions::inst_of, iop_isa::specs::Table::row_of))]
fn execute_word<B: Bus>(
    word: u32,
    regs: &mut Registers,
    position: &mut Position,
    bus: &mut B,
) -> Event
    ensures { DoesUpToCall B.bytes B.stores
        (word_row word (B.bytes bus.old) (cpu_of regs.old position.old))
        result (cpu_of regs.old position.old) bus.old (cpu_of regs.new position.new) bus.new }
{
    let fields = Fields::of(word);
    table!(select_row!(
        word,
        execute_row!(fields, regs, position, bus),
        Event::Fault(GuestFault::Reserved)
    ))
}

/// Executes an instruction: `BranchInSlot` where it is a branch or a jump in a delay slot.
#[inline(always)]
fn execute_as<B: Bus>(
    inst: Inst,
    regs: &mut Registers,
    position: &mut Position,
    bus: &mut B,
) -> Event
    ensures { DoesUpToCall B.bytes B.stores
        (inst_row (Some inst) (B.bytes bus.old) (cpu_of regs.old position.old))
        result (cpu_of regs.old position.old) bus.old (cpu_of regs.new position.new) bus.new }
{
    if position.in_slot && inst.is_jump() {
        Event::Fault(GuestFault::BranchInSlot)
    } else {
        execute(inst, regs, position, bus)
    }
}

/// Executes an instruction that may stand where it does.
#[inline(always)]
#[tactic(auto, unfolding(crate::specs::Row::effect_of))]
fn execute<B: Bus>(inst: Inst, regs: &mut Registers, position: &mut Position, bus: &mut B) -> Event
    ensures { DoesUpToCall B.bytes B.stores
        (effect_of inst (B.bytes bus.old) (cpu_of regs.old position.old))
        result (cpu_of regs.old position.old) bus.old (cpu_of regs.new position.new) bus.new }
{
    match inst {
        Inst::Sll { rd, rt, sa } => regs.complete(position, rd, regs.reg(rt) << sa.number()),
        Inst::Srl { rd, rt, sa } => regs.complete(position, rd, regs.reg(rt) >> sa.number()),
        Inst::Sra { rd, rt, sa } => regs.complete(
            position,
            rd,
            signed_shift(regs.reg(rt), sa.number().into()),
        ),
        Inst::Sllv { rd, rt, rs } => regs.complete(
            position,
            rd,
            regs.reg(rt) << (regs.reg(rs) % 32),
        ),
        Inst::Srlv { rd, rt, rs } => regs.complete(
            position,
            rd,
            regs.reg(rt) >> (regs.reg(rs) % 32),
        ),
        Inst::Srav { rd, rt, rs } => regs.complete(
            position,
            rd,
            signed_shift(regs.reg(rt), regs.reg(rs) % 32),
        ),
        Inst::Jr { rs } => regs.jump(position, regs.reg(rs)),
        Inst::Jalr { rd, rs } => regs.jump_and_link(position, rd, regs.reg(rs)),
        Inst::Syscall { n } => Event::Service(n.number()),
        Inst::Break { .. } => Event::Fault(GuestFault::Break),
        Inst::Mfhi { rd } => regs.complete(position, rd, regs.hi),
        Inst::Mthi { rs } => regs.complete_pair(position, regs.reg(rs), regs.lo),
        Inst::Mflo { rd } => regs.complete(position, rd, regs.lo),
        Inst::Mtlo { rs } => regs.complete_pair(position, regs.hi, regs.reg(rs)),
        Inst::Mult { rs, rt } => regs.complete_product(
            position,
            signed_product(regs.reg(rs), regs.reg(rt)),
        ),
        Inst::Multu { rs, rt } => regs.complete_product(
            position,
            u64::from(regs.reg(rs)) * u64::from(regs.reg(rt)),
        ),
        Inst::Div { rs, rt } => regs.complete_pair(
            position,
            signed_remainder(regs.reg(rs), regs.reg(rt)),
            signed_quotient(regs.reg(rs), regs.reg(rt)),
        ),
        Inst::Divu { rs, rt } => regs.complete_pair(
            position,
            remainder(regs.reg(rs), regs.reg(rt)),
            quotient(regs.reg(rs), regs.reg(rt)),
        ),
        Inst::Add { rd, rs, rt } => regs.complete_sum(
            position,
            rd,
            sum(regs.reg(rs), regs.reg(rt)),
        ),
        Inst::Addu { rd, rs, rt } => regs.complete(
            position,
            rd,
            regs.reg(rs).wrapping_add(regs.reg(rt)),
        ),
        Inst::Sub { rd, rs, rt } => regs.complete_sum(
            position,
            rd,
            difference(regs.reg(rs), regs.reg(rt)),
        ),
        Inst::Subu { rd, rs, rt } => regs.complete(
            position,
            rd,
            regs.reg(rs).wrapping_sub(regs.reg(rt)),
        ),
        Inst::And { rd, rs, rt } => regs.complete(position, rd, regs.reg(rs) & regs.reg(rt)),
        Inst::Or { rd, rs, rt } => regs.complete(position, rd, regs.reg(rs) | regs.reg(rt)),
        Inst::Xor { rd, rs, rt } => regs.complete(position, rd, regs.reg(rs) ^ regs.reg(rt)),
        Inst::Nor { rd, rs, rt } => regs.complete(position, rd, !(regs.reg(rs) | regs.reg(rt))),
        Inst::Slt { rd, rs, rt } => regs.complete(
            position,
            rd,
            u32::from(is_less(regs.reg(rs), regs.reg(rt))),
        ),
        Inst::Sltu { rd, rs, rt } => regs.complete(
            position,
            rd,
            u32::from(regs.reg(rs) < regs.reg(rt)),
        ),
        Inst::Bltz { rs, imm } => regs.branch(position, is_negative(regs.reg(rs)), imm),
        Inst::Bgez { rs, imm } => regs.branch(position, !is_negative(regs.reg(rs)), imm),
        Inst::Bltzal { rs, imm } => regs.branch_and_link(position, is_negative(regs.reg(rs)), imm),
        Inst::Bgezal { rs, imm } => regs.branch_and_link(position, !is_negative(regs.reg(rs)), imm),
        Inst::J { target } => regs.jump(position, jump_target(position.pc, target)),
        Inst::Jal { target } => regs.jump_and_link(
            position,
            Reg::new(31),
            jump_target(position.pc, target),
        ),
        Inst::Beq { rs, rt, imm } => regs.branch(position, regs.reg(rs) == regs.reg(rt), imm),
        Inst::Bne { rs, rt, imm } => regs.branch(position, regs.reg(rs) != regs.reg(rt), imm),
        Inst::Blez { rs, imm } => regs.branch(
            position,
            is_negative(regs.reg(rs)) || regs.reg(rs) == 0,
            imm,
        ),
        Inst::Bgtz { rs, imm } => regs.branch(
            position,
            !(is_negative(regs.reg(rs)) || regs.reg(rs) == 0),
            imm,
        ),
        Inst::Addi { rt, rs, imm } => regs.complete_sum(
            position,
            rt,
            sum(regs.reg(rs), signed_immediate(imm)),
        ),
        Inst::Addiu { rt, rs, imm } => regs.complete(
            position,
            rt,
            regs.reg(rs).wrapping_add(signed_immediate(imm)),
        ),
        Inst::Slti { rt, rs, imm } => regs.complete(
            position,
            rt,
            u32::from(is_less(regs.reg(rs), signed_immediate(imm))),
        ),
        Inst::Sltiu { rt, rs, imm } => regs.complete(
            position,
            rt,
            u32::from(regs.reg(rs) < signed_immediate(imm)),
        ),
        Inst::Andi { rt, rs, imm } => regs.complete(position, rt, regs.reg(rs) & u32::from(imm)),
        Inst::Ori { rt, rs, imm } => regs.complete(position, rt, regs.reg(rs) | u32::from(imm)),
        Inst::Xori { rt, rs, imm } => regs.complete(position, rt, regs.reg(rs) ^ u32::from(imm)),
        Inst::Lui { rt, imm } => regs.complete(position, rt, u32::from(imm) << 16),
        Inst::Lb { rt, imm, rs } => regs.load(position, rt, signed_byte(bus, regs.place(rs, imm))),
        Inst::Lh { rt, imm, rs } => regs.load(position, rt, signed_half(bus, regs.place(rs, imm))),
        Inst::Lwl { rt, imm, rs } => regs.load(
            position,
            rt,
            upper_part(bus, regs.place(rs, imm), regs.latest(rt)),
        ),
        Inst::Lw { rt, imm, rs } => regs.load(
            position,
            rt,
            load_at(bus, regs.place(rs, imm), Width::Word),
        ),
        Inst::Lbu { rt, imm, rs } => regs.load(
            position,
            rt,
            load_at(bus, regs.place(rs, imm), Width::Byte),
        ),
        Inst::Lhu { rt, imm, rs } => regs.load(
            position,
            rt,
            load_at(bus, regs.place(rs, imm), Width::Half),
        ),
        Inst::Lwr { rt, imm, rs } => regs.load(
            position,
            rt,
            lower_part(bus, regs.place(rs, imm), regs.latest(rt)),
        ),
        Inst::Sb { rt, imm, rs } => store(
            regs,
            position,
            bus,
            regs.place(rs, imm),
            Width::Byte,
            regs.reg(rt),
        ),
        Inst::Sh { rt, imm, rs } => store(
            regs,
            position,
            bus,
            regs.place(rs, imm),
            Width::Half,
            regs.reg(rt),
        ),
        Inst::Swl { rt, imm, rs } => store_upper_part(
            regs,
            position,
            bus,
            regs.place(rs, imm),
            regs.reg(rt),
        ),
        Inst::Sw { rt, imm, rs } => store(
            regs,
            position,
            bus,
            regs.place(rs, imm),
            Width::Word,
            regs.reg(rt),
        ),
        Inst::Swr { rt, imm, rs } => store_lower_part(
            regs,
            position,
            bus,
            regs.place(rs, imm),
            regs.reg(rt),
        ),
    }
}
