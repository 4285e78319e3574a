//! Processors.

ghost use Rattle.std.specs.Prelude.{◌≡◌, ◌<◌, ◌^◌, true, take};
ghost use Rattle.iop_snapshot.specs.Items.{fits_item};
ghost use Rattle.iop_snapshot.specs.Reading.{Reads};
ghost use Rattle.iop_snapshot.specs.Writing.{place_of, Writes};
ghost use Rattle.iop_snapshot.specs.declared.widths.TheConstants.{CPU as WIDTHS};
ghost use Rattle.iop_saved_threads.specs.Processors.{pending_register, pending_value, pending_of, cpu_numbers, cpu_of, cpu_form, is_for_register, is_steady, steady_form, is_kept, kept_form};

use iop_base::WriteFault;
use iop_exec::{Cpu, Pending};
use iop_isa::Reg;
use iop_ports::Sink;
use iop_snapshot::widths::CPU;
use iop_snapshot::{Decoder, Encoder, flag_of};

/// Writes a processor.
#[tactic(auto, unfolding(crate::specs::Processors::cpu_form, iop_snapshot::specs::Forms::item))]
pub fn save_cpu<S: Sink>(cpu: &Cpu, encoder: &mut Encoder<'_, S>) -> Result<(), WriteFault>
    ensures written { Writes result (cpu_form.spell cpu.now) (place_of S.told encoder.old)
        (place_of S.told encoder.new) }
    ensures fits { cpu_form.fits cpu.now ≡ true }
{
    encoder.item(&CPU, &numbers_of_cpu(*cpu))
}

/// Reads a processor in which register 0 holds 0, the next instruction is the one behind outside of
/// a delay slot, and what is pending is for one of the other registers. None exactly where the bytes
/// at the front are none.
pub fn restore_cpu(decoder: &mut Decoder<'_>) -> Option<Cpu>
    ensures { Reads steady_form result decoder.old decoder.new }
{
    let cpu = restore_any(decoder)?;
    if is_steady(&cpu) { Some(cpu) } else { None }
}

/// Reads such a processor that stands in no delay slot, as one that does not execute.
pub fn restore_kept(decoder: &mut Decoder<'_>) -> Option<Cpu>
    ensures { Reads kept_form result decoder.old decoder.new }
{
    let cpu = restore_any(decoder)?;
    if is_kept(&cpu) { Some(cpu) } else { None }
}

/// Reads a processor. None exactly where the bytes at the front are none.
#[tactic(auto, unfolding(crate::specs::Processors::cpu_form, iop_snapshot::specs::Forms::item))]
fn restore_any(decoder: &mut Decoder<'_>) -> Option<Cpu>
    ensures { Reads cpu_form result decoder.old decoder.new }
{
    let mut numbers = [0; 39];
    decoder.item(&CPU, &mut numbers)?;
    cpu_of(&numbers)
}

/// Says whether register 0 holds 0, the next instruction is the one behind outside of a delay slot,
/// and what is pending is for one of the other registers.
fn is_steady(cpu: &Cpu) -> bool
    ensures { result ≡ is_steady cpu.now }
{
    cpu.regs[0] == 0
        && (cpu.in_slot || cpu.next == cpu.pc.wrapping_add(4))
        && is_for_register(cpu.pending)
}

/// Says whether what is pending, if something is, is for one of the registers from 1 to 31.
fn is_for_register(pending: Option<Pending>) -> bool
    ensures { result ≡ is_for_register pending }
{
    match pending {
        None => true,
        Some(load) => load.reg.number() != 0,
    }
}

/// Says whether a steady processor stands in no delay slot.
fn is_kept(cpu: &Cpu) -> bool
    ensures { result ≡ is_kept cpu.now }
{
    is_steady(cpu) && !cpu.in_slot
}

/// Tells the numbers of a processor.
fn numbers_of_cpu(cpu: Cpu) -> [u64; 39]
    ensures numbers { result ≡ cpu_numbers cpu }
    ensures fits { fits_item WIDTHS (cpu_numbers cpu) ≡ true }
{
    let mut numbers = [0; 39];
    for index in 0..32_usize {
        numbers[index] = u64::from(cpu.regs[index]);
    }
    numbers[32] = u64::from(cpu.hi);
    numbers[33] = u64::from(cpu.lo);
    numbers[34] = u64::from(cpu.pc);
    numbers[35] = u64::from(cpu.next);
    numbers[36] = u64::from(cpu.in_slot);
    numbers[37] = pending_register(cpu.pending);
    numbers[38] = pending_value(cpu.pending);
    numbers
}

/// Tells for which register something is pending: 0 where nothing is.
fn pending_register(pending: Option<Pending>) -> u64
    ensures register { result ≡ pending_register pending }
    ensures below { result < 32 }
{
    pending.map_or(0, |load| u64::from(load.reg.number()))
}

/// Tells the value that is pending: 0 where nothing is.
fn pending_value(pending: Option<Pending>) -> u64
    ensures value { result ≡ pending_value pending }
    ensures below { result < 2 ^ 32 }
{
    pending.map_or(0, |load| u64::from(load.value))
}

/// Sees numbers as a processor. None exactly where one of them is none of it.
fn cpu_of(numbers: &[u64; 39]) -> Option<Cpu>
    requires { fits_item WIDTHS numbers.now ≡ true }
    ensures { result ≡ cpu_of numbers.now }
{
    let in_slot = flag_of(numbers[36])?;
    let pending = pending_of(numbers[37], numbers[38])?;
    Some(Cpu {
        regs: registers_of(numbers),
        hi: numbers[32] as u32,
        lo: numbers[33] as u32,
        pc: numbers[34] as u32,
        next: numbers[35] as u32,
        in_slot,
        pending,
    })
}

/// Reads the general registers, which are the first numbers.
fn registers_of(numbers: &[u64; 39]) -> [u32; 32]
    requires { fits_item WIDTHS numbers.now ≡ true }
    ensures { result ≡ take 32 numbers.now }
{
    let mut registers = [0; 32];
    for index in 0..32_usize {
        registers[index] = numbers[index] as u32;
    }
    registers
}

/// Sees two numbers as what is pending. None exactly where the first is 0 and the second is not, or
/// no register has the first.
fn pending_of(register: u64, value: u64) -> Option<Option<Pending>>
    requires { value < 2 ^ 32 }
    ensures { result ≡ pending_of register value }
{
    match (register, value) {
        (0, 0) => Some(None),
        (1..32, _) => Some(Some(Pending {
            reg: Reg::new(register as u8),
            value: value as u32,
        })),
        _ => None,
    }
}
