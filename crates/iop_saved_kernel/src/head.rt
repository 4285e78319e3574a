//! What the kernel has beside its tables.

ghost use Rattle.std.specs.Prelude.{◌≡◌, ◌<◌, ◌^◌, true, IfSome};
ghost use Rattle.iop_snapshot.specs.Items.{fits_item};
ghost use Rattle.iop_snapshot.specs.Reading.{Reads};
ghost use Rattle.iop_snapshot.specs.Writing.{place_of, Writes};
ghost use Rattle.iop_snapshot.specs.declared.widths.TheConstants.{KERNEL as WIDTHS};
ghost use Rattle.iop_saved_kernel.specs.Heads.{running_number, running_of, cause_kind, cause_number, cause_of, head_numbers, head_of, head_form, has_id, is_cause, is_head, read_head};

use iop_base::WriteFault;
use iop_intr::IRQ_LINES;
use iop_kernel::Cause;
use iop_ports::Sink;
use iop_snapshot::widths::KERNEL;
use iop_snapshot::{Decoder, Encoder, flag_of};

/// What the kernel has beside its tables.
#[derive(Clone, Copy, Debug, PartialEq, Eq)]
pub struct KernelHead {
    /// The moment, in ticks.
    pub clock: u64,
    /// Whether interrupts are on.
    pub interrupts: bool,
    /// Whether dispatch is enabled.
    pub dispatching: bool,
    /// The id of the thread that runs, if one does.
    pub running: Option<u32>,
    /// What the handler that is active was begun for, if one is.
    pub cause: Option<Cause>,
}

/// Writes the head.
#[tactic(auto, unfolding(crate::specs::Heads::head_form, iop_snapshot::specs::Forms::item))]
pub(crate) fn save_head<S: Sink>(
    head: KernelHead,
    encoder: &mut Encoder<'_, S>,
) -> Result<(), WriteFault>
    ensures written { Writes result (head_form.spell head) (place_of S.told encoder.old)
        (place_of S.told encoder.new) }
    ensures fits { head_form.fits head ≡ true }
{
    encoder.item(&KERNEL, &numbers_of_head(head))
}

/// Reads a head in which the thread that runs has an id, and the handler that is active was begun
/// for an alarm or for one of the lines. None exactly where the bytes at the front are none.
pub(crate) fn restore_head(decoder: &mut Decoder<'_>) -> Option<KernelHead>
    ensures read { Reads read_head result decoder.old decoder.new }
    ensures sound { IfSome result (λ head. is_head head ≡ true) }
{
    let head = restore_any(decoder)?;
    if is_head(&head) { Some(head) } else { None }
}

/// Reads a head. None exactly where the bytes at the front are none.
#[tactic(auto, unfolding(crate::specs::Heads::head_form, iop_snapshot::specs::Forms::item))]
fn restore_any(decoder: &mut Decoder<'_>) -> Option<KernelHead>
    ensures { Reads head_form result decoder.old decoder.new }
{
    let mut numbers = [0; 6];
    decoder.item(&KERNEL, &mut numbers)?;
    head_of(&numbers)
}

/// Tells the numbers of a head.
fn numbers_of_head(head: KernelHead) -> [u64; 6]
    ensures numbers { result ≡ head_numbers head }
    ensures fits { fits_item WIDTHS (head_numbers head) ≡ true }
{
    [
        head.clock,
        u64::from(head.interrupts),
        u64::from(head.dispatching),
        running_number(head.running),
        cause_kind(head.cause),
        cause_number(head.cause),
    ]
}

/// Tells the id of the thread that runs: 0 where none does.
fn running_number(running: Option<u32>) -> u64
    ensures number { result ≡ running_number running }
    ensures below { result < 2 ^ 32 }
{
    running.map_or(0, u64::from)
}

/// Tells what a handler was begun for: 0 where none is active, 1 for a line, 2 for an alarm.
fn cause_kind(cause: Option<Cause>) -> u64
    ensures kind { result ≡ cause_kind cause }
    ensures below { result < 3 }
{
    match cause {
        None => 0,
        Some(Cause::Line(_)) => 1,
        Some(Cause::Alarm(_)) => 2,
    }
}

/// Tells the number of the line or alarm that a handler was begun for: 0 where none is active.
fn cause_number(cause: Option<Cause>) -> u64
    ensures number { result ≡ cause_number cause }
    ensures below { result < 2 ^ 64 }
{
    match cause {
        None => 0,
        Some(Cause::Line(line)) => u64::from(line),
        Some(Cause::Alarm(number)) => number,
    }
}

/// Sees numbers as a head. None exactly where one of them is none of it.
fn head_of(numbers: &[u64; 6]) -> Option<KernelHead>
    requires { fits_item WIDTHS numbers.now ≡ true }
    ensures { result ≡ head_of numbers.now }
{
    let interrupts = flag_of(numbers[1])?;
    let dispatching = flag_of(numbers[2])?;
    let cause = cause_of(numbers[4], numbers[5])?;
    Some(KernelHead {
        clock: numbers[0],
        interrupts,
        dispatching,
        running: running_of(numbers[3] as u32),
        cause,
    })
}

/// Sees a number as the id of the thread that runs, if it is one.
fn running_of(id: u32) -> Option<u32>
    ensures { result ≡ running_of id }
{
    if id == 0 { None } else { Some(id) }
}

/// Sees two numbers as what a handler was begun for, if one is active. None exactly where they are
/// nothing of the kind.
fn cause_of(kind: u64, number: u64) -> Option<Option<Cause>>
    ensures { result ≡ cause_of kind number }
{
    match kind {
        0 => { if number == 0 { Some(None) } else { None } }
        1 => {
            if number < IRQ_LINES as u64 {
                Some(Some(Cause::Line(number as u8)))
            } else {
                None
            }
        }
        2 => Some(Some(Cause::Alarm(number))),
        _ => None,
    }
}

/// Says whether the thread that runs has an id other than 0, and the handler that is active was
/// begun for an alarm or for one of the lines.
fn is_head(head: &KernelHead) -> bool
    ensures { result ≡ is_head head.now }
{
    has_id(head.running) && is_cause(head.cause)
}

/// Says whether the thread that runs, if one does, has an id other than 0.
fn has_id(running: Option<u32>) -> bool
    ensures { result ≡ has_id running }
{
    match running {
        None => true,
        Some(id) => id != 0,
    }
}

/// Says whether a handler, if one is active, was begun for an alarm or for one of the lines.
fn is_cause(cause: Option<Cause>) -> bool
    ensures { result ≡ is_cause cause }
{
    match cause {
        Some(Cause::Line(line)) => u64::from(line) < IRQ_LINES as u64,
        _ => true,
    }
}
