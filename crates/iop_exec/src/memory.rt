//! Loads and stores.

ghost use Rattle.iop_base.specs.Numbers.{sign_extended};
ghost use Rattle.iop_base.specs.Places.{load_at};
ghost use Rattle.iop_exec.specs.Arithmetic.{left_load, right_load, left_store, right_store};
ghost use Rattle.iop_exec.specs.Processors.{cpu_of};
ghost use Rattle.iop_exec.specs.Row.{word_start, word_round, stores, stores_over};
ghost use Rattle.iop_exec.specs.Stepping.{DoesUpToCall};
ghost use Rattle.std.specs.Prelude.{◌≡◌, option_map};

use crate::arithmetic::{left_load, left_store, right_load, right_store};
use crate::bus::Bus;
use crate::cpu::Event;
use crate::position::Position;
use crate::registers::Registers;
use iop_base::{GuestFault, Width, sign_extended};

/// Loads the unsigned number at an address: `None` where there is none.
pub(crate) fn load_at<B: Bus>(bus: &B, at: u32, width: Width) -> Option<u32>
    ensures { result ≡ load_at (B.bytes bus.now) at width }
{
    match bus.load(at, width) {
        Ok(number) => Some(number),
        Err(_) => None,
    }
}

/// Loads the signed byte at an address, as a word: `None` where there is none.
pub(crate) fn signed_byte<B: Bus>(bus: &B, at: u32) -> Option<u32>
    ensures { result ≡ option_map (sign_extended 8) (load_at (B.bytes bus.now) at Width.Byte) }
{
    Some(sign_extended(8, load_at(bus, at, Width::Byte)?))
}

/// Loads the signed half at an address, as a word: `None` where there is none.
pub(crate) fn signed_half<B: Bus>(bus: &B, at: u32) -> Option<u32>
    ensures { result ≡ option_map (sign_extended 16) (load_at (B.bytes bus.now) at Width.Half) }
{
    Some(sign_extended(16, load_at(bus, at, Width::Half)?))
}

/// Loads as `lwl` does over the old value of a register: `None` where there is no word.
pub(crate) fn upper_part<B: Bus>(bus: &B, at: u32, old: u32) -> Option<u32>
    ensures { result
        ≡ option_map (λ word. left_load at word old) (word_round (B.bytes bus.now) at) }
{
    let word = load_at(bus, word_start(at), Width::Word)?;
    Some(left_load(at, word, old))
}

/// Loads as `lwr` does over the old value of a register: `None` where there is no word.
pub(crate) fn lower_part<B: Bus>(bus: &B, at: u32, old: u32) -> Option<u32>
    ensures { result
        ≡ option_map (λ word. right_load at word old) (word_round (B.bytes bus.now) at) }
{
    let word = load_at(bus, word_start(at), Width::Word)?;
    Some(right_load(at, word, old))
}

/// Stores the low bytes of a value: `Address` where they have no place.
pub(crate) fn store<B: Bus>(
    regs: &mut Registers,
    position: &mut Position,
    bus: &mut B,
    at: u32,
    width: Width,
    value: u32,
) -> Event
    ensures { DoesUpToCall B.bytes B.stores
        (stores (cpu_of regs.old position.old) (B.bytes bus.old) at width value)
        result (cpu_of regs.old position.old) bus.old (cpu_of regs.new position.new) bus.new }
{
    match bus.store(at, width, value) {
        Ok(()) => {
            regs.write_back();
            position.advance();
            Event::Plain
        }
        Err(_) => Event::Fault(GuestFault::Address),
    }
}

/// Stores as `swl` does: `Address` where there is no word.
pub(crate) fn store_upper_part<B: Bus>(
    regs: &mut Registers,
    position: &mut Position,
    bus: &mut B,
    at: u32,
    value: u32,
) -> Event
    ensures { DoesUpToCall B.bytes B.stores
        (stores_over (cpu_of regs.old position.old) (B.bytes bus.old) at (left_store at value))
        result (cpu_of regs.old position.old) bus.old (cpu_of regs.new position.new) bus.new }
{
    match load_at(bus, word_start(at), Width::Word) {
        Some(word) => store(
            regs,
            position,
            bus,
            word_start(at),
            Width::Word,
            left_store(at, value, word),
        ),
        None => Event::Fault(GuestFault::Address),
    }
}

/// Stores as `swr` does: `Address` where there is no word.
pub(crate) fn store_lower_part<B: Bus>(
    regs: &mut Registers,
    position: &mut Position,
    bus: &mut B,
    at: u32,
    value: u32,
) -> Event
    ensures { DoesUpToCall B.bytes B.stores
        (stores_over (cpu_of regs.old position.old) (B.bytes bus.old) at (right_store at value))
        result (cpu_of regs.old position.old) bus.old (cpu_of regs.new position.new) bus.new }
{
    match load_at(bus, word_start(at), Width::Word) {
        Some(word) => store(
            regs,
            position,
            bus,
            word_start(at),
            Width::Word,
            right_store(at, value, word),
        ),
        None => Event::Fault(GuestFault::Address),
    }
}

/// Rounds a place down to that of the word in which it stands.
fn word_start(at: u32) -> u32
    ensures { result ≡ word_start at }
{
    at - at % 4
}
