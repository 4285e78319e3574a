//! What a call answers in `$v0`, after which its caller goes on.

ghost use Rattle.std.specs.Prelude.{◌≡◌, MatchResult};
ghost use Rattle.iop_exec.specs.Row.{with_reg};
ghost use Rattle.iop_kernel.specs.System.{code_word, result_word};

use crate::after::After;
use iop_base::{Code, GuestFault};
use iop_exec::Cpu;

/// Answers a word.
pub(crate) fn answer_word(cpu: &mut Cpu, word: u32) -> After
    ensures after { result ≡ After.Resume }
    ensures processor { cpu.new ≡ with_reg cpu.old 2 word }
{
    cpu.regs[2] = word;
    After::Resume
}

/// Answers a code, as two's complement.
pub(crate) fn answer(cpu: &mut Cpu, code: Code) -> After
    ensures after { result ≡ After.Resume }
    ensures processor { cpu.new ≡ with_reg cpu.old 2 (code_word code) }
{
    answer_word(cpu, code.0.cast_unsigned())
}

/// Answers a word or a code.
pub(crate) fn answer_result(cpu: &mut Cpu, answered: Result<u32, Code>) -> After
    ensures after { result ≡ After.Resume }
    ensures processor { cpu.new ≡ with_reg cpu.old 2 (result_word answered) }
{
    match answered {
        Ok(word) => answer_word(cpu, word),
        Err(code) => answer(cpu, code),
    }
}

/// Answers a word, or faults.
pub(crate) fn answer_or_fault(cpu: &mut Cpu, answered: Result<u32, GuestFault>) -> After
    ensures { MatchResult answered
        (λ word. (result ≡ After.Resume) × (cpu.new ≡ with_reg cpu.old 2 word))
        (λ fault. (result ≡ After.Fault fault) × (cpu.new ≡ cpu.old)) }
{
    match answered {
        Ok(word) => answer_word(cpu, word),
        Err(fault) => After::Fault(fault),
    }
}
