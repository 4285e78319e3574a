//! What the kernel has beside its tables, and the processors that somebody has.

ghost use Rattle.std.specs.Prelude.{◌≡◌, true, OnOk, IfSome};
ghost use Rattle.iop_saved_threads.specs.Processors.{cpu_form, steady_form, kept_form};
ghost use Rattle.iop_saved_threads.specs.Threads.{HasRoom};
ghost use Rattle.iop_snapshot.specs.Forms.{present, spell_where};
ghost use Rattle.iop_snapshot.specs.Reading.{Reads};
ghost use Rattle.iop_snapshot.specs.Writing.{place_of, Writes};
ghost use Rattle.iop_saved_kernel.specs.Executing.{executing_form, executing_with, kept_for, handler_of, had};
ghost use Rattle.iop_saved_kernel.specs.Heads.{head_form, read_head, is_head, executes, has_interrupted};

use crate::head::{KernelHead, restore_head, save_head};
use iop_base::WriteFault;
use iop_exec::Cpu;
use iop_kernel::ActiveHandler;
use iop_ports::Sink;
use iop_saved_threads::{restore_cpu, restore_kept, save_cpu};
use iop_snapshot::{Decoder, Encoder};
use iop_thread::registers_at;

/// What the kernel has beside its tables, and the processors that somebody has.
#[derive(Clone, Copy, Debug, PartialEq, Eq)]
pub struct Executing {
    /// What the kernel has beside its tables.
    pub head: KernelHead,
    /// The processor, if a thread or a handler executes.
    pub cpu: Option<Cpu>,
    /// The registers that a handler keeps, if it has interrupted a thread.
    pub kept: Option<Cpu>,
}

impl Executing {
    /// Makes it of a head, the processor, and the handler that is active, if one is.
    pub(crate) fn new(head: KernelHead, cpu: &Cpu, handler: Option<ActiveHandler>) -> Self
        ensures { result ≡ executing_with head cpu.now handler }
    {
        Executing {
            head,
            cpu: if executes(head) { Some(*cpu) } else { None },
            kept: kept_for(head.running, handler),
        }
    }

    /// Writes it.
    #[tactic(auto, using(iop_snapshot::proofs::Sending::writes_then, iop_snapshot::proofs::Sending::writes_exit), unfolding(crate::specs::Executing::executing_form))]
    pub(crate) fn save<S: Sink>(&self, encoder: &mut Encoder<'_, S>) -> Result<(), WriteFault>
        ensures written { Writes result
            ((executing_form head_form cpu_form cpu_form).spell self.now)
            (place_of S.told encoder.old) (place_of S.told encoder.new) }
        ensures fits { OnOk result (head_form.fits self.now.head ≡ true) }
        ensures cpu { OnOk result (HasRoom self.now.cpu × HasRoom self.now.kept) }
    {
        save_head(self.head, encoder)?;
        save_registers(self.cpu, encoder)?;
        save_registers(self.kept, encoder)
    }

    /// Reads it. None exactly where the bytes at the front are none.
    #[tactic(auto, unfolding(crate::specs::Executing::executing_form))]
    pub(crate) fn restore(decoder: &mut Decoder<'_>) -> Option<Self>
        ensures read { Reads (executing_form read_head steady_form kept_form) result decoder.old
            decoder.new }
        ensures sound { IfSome result (λ e. is_head e.head ≡ true) }
    {
        let head = restore_head(decoder)?;
        let cpu = restore_processor(head, decoder)?;
        let kept = restore_interrupted(head, decoder)?;
        Some(Executing { head, cpu, kept })
    }

    /// Tells the handler that is active, if one is, with what it keeps.
    pub(crate) fn handler(&self) -> Option<ActiveHandler>
        ensures { result ≡ handler_of self.now }
    {
        let kept = registers_had(self.kept);
        self.head.cause.map(|cause| ActiveHandler { cause, kept })
    }
}

/// Writes registers, where there are any.
fn save_registers<S: Sink>(
    registers: Option<Cpu>,
    encoder: &mut Encoder<'_, S>,
) -> Result<(), WriteFault>
    ensures written { Writes result (spell_where cpu_form registers)
        (place_of S.told encoder.old) (place_of S.told encoder.new) }
    ensures fits { OnOk result (HasRoom registers) }
{
    match registers {
        None => Ok(()),
        Some(cpu) => save_cpu(&cpu, encoder),
    }
}

/// Says whether a thread or a handler executes.
fn executes(head: KernelHead) -> bool
    ensures { result ≡ executes head }
{
    head.running.is_some() || head.cause.is_some()
}

/// Says whether a handler has interrupted a thread.
fn has_interrupted(head: KernelHead) -> bool
    ensures { result ≡ has_interrupted head }
{
    head.running.is_some() && head.cause.is_some()
}

/// Tells the registers that a handler keeps, where a thread runs.
fn kept_for(running: Option<u32>, handler: Option<ActiveHandler>) -> Option<Cpu>
    ensures { result ≡ kept_for running handler }
{
    match (running, handler) {
        (Some(_), Some(handler)) => Some(handler.kept),
        _ => None,
    }
}

/// Reads the processor, where something executes.
fn restore_processor(head: KernelHead, decoder: &mut Decoder<'_>) -> Option<Option<Cpu>>
    ensures { Reads (present (executes head) steady_form) result decoder.old decoder.new }
{
    if executes(head) {
        Some(Some(restore_cpu(decoder)?))
    } else {
        Some(None)
    }
}

/// Reads the registers that a handler keeps, where it has interrupted a thread.
fn restore_interrupted(head: KernelHead, decoder: &mut Decoder<'_>) -> Option<Option<Cpu>>
    ensures { Reads (present (has_interrupted head) kept_form) result decoder.old decoder.new }
{
    if has_interrupted(head) {
        Some(Some(restore_kept(decoder)?))
    } else {
        Some(None)
    }
}

/// Tells the registers that somebody has, or those that nobody has, which are zero.
pub(crate) fn registers_had(registers: Option<Cpu>) -> Cpu
    ensures { result ≡ had registers }
{
    match registers {
        Some(cpu) => cpu,
        None => registers_at(0),
    }
}
