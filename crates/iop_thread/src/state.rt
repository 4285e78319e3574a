ghost use Rattle.std.specs.Prelude.{◌≡◌};
ghost use Rattle.iop_thread.specs.States.{state_number, wait_in, is_dormant, is_running, is_ready, sleeps, suspended_state, with_answer};
ghost use Rattle.iop_thread.specs.Operations.{ready_registers};

use crate::wait::Wait;
use iop_exec::Cpu;

/// The state of a thread (ps2sdk: thread.h), with its registers where it is to go on with them.
#[derive(Clone, Copy, Debug, PartialEq, Eq)]
pub enum State {
    /// It was not started, or has ended.
    Dormant,
    /// It runs: its registers are those of the processor.
    Running,
    /// It is in the ready list.
    Ready(Cpu),
    /// It waits.
    Waiting(Wait, Cpu),
    /// It is suspended.
    Suspended(Cpu),
    /// It waits, and is suspended.
    WaitingSuspended(Wait, Cpu),
}

impl State {
    /// Tells its number (ps2sdk: thread.h): 1, 2, 4, 8, 0xC or 0x10.
    pub fn number(&self) -> u32
        ensures { result ≡ state_number self.now }
    {
        match self {
            State::Running => 1,
            State::Ready(_) => 2,
            State::Waiting(..) => 4,
            State::Suspended(_) => 8,
            State::WaitingSuspended(..) => 0xC,
            State::Dormant => 0x10,
        }
    }

    /// Tells what the thread waits for. None exactly where it does not wait.
    pub fn wait(&self) -> Option<Wait>
        ensures { result ≡ wait_in self.now }
    {
        match self {
            State::Waiting(wait, _) | State::WaitingSuspended(wait, _) => Some(*wait),
            _ => None,
        }
    }
    /// Says whether the thread was not started, or has ended.
    pub fn is_dormant(&self) -> bool
        ensures { result ≡ is_dormant self.now }
    {
        matches!(self, State::Dormant)
    }

    /// Says whether the thread runs.
    pub(crate) fn is_running(&self) -> bool
        ensures { result ≡ is_running self.now }
    {
        matches!(self, State::Running)
    }

    /// Says whether the thread is ready.
    pub fn is_ready(&self) -> bool
        ensures { result ≡ is_ready self.now }
    {
        matches!(self, State::Ready(_))
    }

    /// Says whether the thread sleeps.
    pub(crate) fn sleeps(&self) -> bool
        ensures { result ≡ sleeps (wait_in self.now) }
    {
        matches!(self.wait(), Some(Wait::Sleep))
    }

    /// Makes the state of such a thread that is suspended. If it runs, it has these registers.
    pub(crate) fn suspended(&self, registers: &Cpu) -> State
        ensures { result ≡ suspended_state registers.now self.now }
    {
        match self {
            State::Running => State::Suspended(*registers),
            State::Ready(own) => State::Suspended(*own),
            State::Waiting(wait, own) => State::WaitingSuspended(*wait, *own),
            other => *other,
        }
    }

    /// Reads the registers of a ready thread; for any other, answers those of the processor.
    pub(crate) fn ready_registers(&self, registers: &Cpu) -> Cpu
        ensures { result ≡ ready_registers self.now registers.now }
    {
        match self {
            State::Ready(own) => *own,
            _ => *registers,
        }
    }
}

/// Puts an answer into `$v0`.
pub(crate) fn with_answer(registers: &Cpu, value: u32) -> Cpu
    ensures { result ≡ with_answer registers.now value }
{
    let mut registers = *registers;
    registers.regs[2] = value;
    registers
}
