//! Threads.

ghost use Rattle.std.specs.Prelude.{◌≡◌, ◌<◌, ◌^◌, OnOk, true};
ghost use Rattle.iop_snapshot.specs.Forms.{present, spell_where};
ghost use Rattle.iop_snapshot.specs.Items.{fits_item};
ghost use Rattle.iop_snapshot.specs.Reading.{Reads};
ghost use Rattle.iop_snapshot.specs.Writing.{place_of, Writes};
ghost use Rattle.iop_snapshot.specs.declared.widths.TheConstants.{THREAD as WIDTHS};
ghost use Rattle.iop_saved_threads.specs.Processors.{cpu_form, kept_form};
ghost use Rattle.iop_saved_threads.specs.Threads.{HasRoom, cpu_in, keeps_cpu, wait_number, wait_id, kind_of, plain_wait_of, wait_of, state_of, thread_numbers, thread_of, thread_form, read_form};

use crate::cpu::{restore_kept, save_cpu};
use iop_base::WriteFault;
use iop_exec::Cpu;
use iop_ports::Sink;
use iop_ready::Priority;
use iop_snapshot::widths::THREAD;
use iop_snapshot::{Decoder, Encoder};
use iop_thread::{Kind, Param, State, Thread, Wait};

/// Writes a thread, with its registers where its state keeps them.
pub fn save_thread<S: Sink>(thread: &Thread, encoder: &mut Encoder<'_, S>) -> Result<(), WriteFault>
    ensures written { Writes result ((thread_form cpu_form).spell thread.now)
        (place_of S.told encoder.old) (place_of S.told encoder.new) }
    ensures fits { OnOk result ((thread_form cpu_form).fits thread.now ≡ true) }
{
    encoder.item(&THREAD, &numbers_of_thread(*thread))?;
    save_registers(registers_in(&thread.state), encoder)
}

/// Writes registers, where there are any.
fn save_registers<S: Sink>(
    registers: Option<Cpu>,
    encoder: &mut Encoder<'_, S>,
) -> Result<(), WriteFault>
    ensures written { Writes result (spell_where cpu_form registers)
        (place_of S.told encoder.old) (place_of S.told encoder.new) }
    ensures fits { OnOk result (HasRoom registers) }
{
    match registers {
        None => Ok(()),
        Some(cpu) => save_cpu(&cpu, encoder),
    }
}

/// Reads a thread, with its registers where its state keeps them. None exactly where the bytes at
/// the front are none.
#[tactic(auto, unfolding(crate::specs::Threads::thread_form, iop_snapshot::specs::Forms::item))]
pub fn restore_thread(decoder: &mut Decoder<'_>) -> Option<Thread>
    ensures { Reads read_form result decoder.old decoder.new }
{
    let mut numbers = [0; 13];
    decoder.item(&THREAD, &mut numbers)?;
    match restore_registers(numbers[9], decoder) {
        Some(registers) => thread_of(&numbers, registers),
        None => None,
    }
}

/// Reads the registers that a thread keeps in the state of a number, if it does.
fn restore_registers(state: u64, decoder: &mut Decoder<'_>) -> Option<Option<Cpu>>
    ensures { Reads (present (keeps_cpu state) kept_form) result decoder.old decoder.new }
{
    if keeps_cpu(state) {
        Some(Some(restore_kept(decoder)?))
    } else {
        Some(None)
    }
}

/// Tells the numbers of a thread.
fn numbers_of_thread(thread: Thread) -> [u64; 13]
    ensures numbers { result ≡ thread_numbers thread }
    ensures fits { fits_item WIDTHS (thread_numbers thread) ≡ true }
{
    let wait = thread.state.wait();
    [
        u64::from(thread.id),
        u64::from(thread.param.attr),
        u64::from(thread.param.option),
        u64::from(thread.param.entry),
        u64::from(thread.stack),
        u64::from(thread.param.stack_size),
        u64::from(thread.gp),
        u64::from(thread.param.priority.number()),
        u64::from(thread.priority.number()),
        u64::from(thread.state.number()),
        wait_number(wait),
        wait_id(wait),
        u64::from(thread.wakeups),
    ]
}

/// Tells the registers that a thread keeps in its state.
fn registers_in(state: &State) -> Option<Cpu>
    ensures { result ≡ cpu_in state.now }
{
    match state {
        State::Ready(cpu)
        | State::Waiting(_, cpu)
        | State::Suspended(cpu)
        | State::WaitingSuspended(_, cpu) => Some(*cpu),
        State::Dormant | State::Running => None,
    }
}

/// Says whether a thread keeps registers in the state of a number.
fn keeps_cpu(state: u64) -> bool
    ensures { result ≡ keeps_cpu state }
{
    matches!(state, 2 | 4 | 8 | 0xC)
}

/// Tells the number of what a thread waits for: 0 where it does not wait.
fn wait_number(wait: Option<Wait>) -> u64
    ensures number { result ≡ wait_number wait }
    ensures below { result < 2 ^ 32 }
{
    wait.map_or(0, |wait| u64::from(wait.kind()))
}

/// Tells the id of the object that a thread waits for: 0 where it waits for none.
fn wait_id(wait: Option<Wait>) -> u64
    ensures id { result ≡ wait_id wait }
    ensures below { result < 2 ^ 32 }
{
    wait.map_or(0, |wait| u64::from(wait.object()))
}

/// Sees numbers, and registers where there are any, as a thread. None exactly where they are none.
fn thread_of(numbers: &[u64; 13], registers: Option<Cpu>) -> Option<Thread>
    requires { fits_item WIDTHS numbers.now ≡ true }
    ensures { result ≡ thread_of (numbers.now, registers) }
{
    let first = Priority::of(numbers[7] as u32)?;
    let priority = Priority::of(numbers[8] as u32)?;
    let wait = wait_of(numbers[10], numbers[11])?;
    let state = state_of(numbers[9], wait, registers)?;
    Some(Thread {
        id: numbers[0] as u32,
        param: Param {
            attr: numbers[1] as u32,
            option: numbers[2] as u32,
            entry: numbers[3] as u32,
            stack_size: numbers[5] as u32,
            priority: first,
        },
        stack: numbers[4] as u32,
        gp: numbers[6] as u32,
        priority,
        wakeups: numbers[12] as u32,
        state,
    })
}

/// Sees the numbers of a wait as what a thread waits for, if it does. None exactly where no wait
/// has them.
fn wait_of(number: u64, id: u64) -> Option<Option<Wait>>
    requires { id < 2 ^ 32 }
    ensures { result ≡ wait_of number id }
{
    match (kind_of(number), id) {
        (Some(kind), _) => Some(Some(Wait::Object(kind, id as u32))),
        (None, 0) => plain_wait_of(number),
        (None, _) => None,
    }
}

/// Finds the kind of objects of a number.
fn kind_of(number: u64) -> Option<Kind>
    ensures { result ≡ kind_of number }
{
    match number {
        3 => Some(Kind::Semaphore),
        4 => Some(Kind::EventFlag),
        5 => Some(Kind::Mailbox),
        6 => Some(Kind::VariablePool),
        7 => Some(Kind::FixedPool),
        _ => None,
    }
}

/// Sees a number as what a thread waits for that waits for no object, if it waits.
fn plain_wait_of(number: u64) -> Option<Option<Wait>>
    ensures { result ≡ plain_wait_of number }
{
    match number {
        0 => Some(None),
        1 => Some(Some(Wait::Sleep)),
        2 => Some(Some(Wait::Delay)),
        _ => None,
    }
}

/// Finds the state of a number in which a thread waits so and keeps these registers. None exactly
/// where there is none.
fn state_of(number: u64, wait: Option<Wait>, registers: Option<Cpu>) -> Option<State>
    ensures { result ≡ state_of number wait registers }
{
    match (number, wait, registers) {
        (1, None, None) => Some(State::Running),
        (0x10, None, None) => Some(State::Dormant),
        (2, None, Some(cpu)) => Some(State::Ready(cpu)),
        (8, None, Some(cpu)) => Some(State::Suspended(cpu)),
        (4, Some(wait), Some(cpu)) => Some(State::Waiting(wait, cpu)),
        (0xC, Some(wait), Some(cpu)) => Some(State::WaitingSuspended(wait, cpu)),
        _ => None,
    }
}
