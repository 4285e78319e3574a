//! The load delay: which registers are read too soon.

ghost use Rattle.std.specs.Prelude.{◌≡◌};
ghost use Rattle.iop_disasm.specs.LoadDelay.{is_read_from, is_store, loaded, read_too_soon, reads, sources_of};

use iop_isa::{Fields, Inst, Operand, Reg, decode, spelling_of};

/// Finds the register that a word loads and the next word reads, which does not see yet what was
/// loaded: that is in the register from the second instruction behind the load on (MIPS I).
///
/// `None` where there is none. What is loaded into register 0 is dropped, and a word that is no
/// instruction loads and reads nothing. `lwl` and `lwr` read their base alone: they merge with what
/// is still on its way to their register. A `syscall` reads nothing: what was loaded before it is in
/// its register when the service acts.
#[tactic(auto, unfolding(crate::specs::LoadDelay::read_too_soon))]
pub fn read_too_soon(word: u32, next: u32) -> Option<Reg>
    ensures { result ≡ read_too_soon word next }
{
    let reg = loaded(word)?;
    let is_read = reg.number() != 0 && reads(next, reg);
    is_read.then_some(reg)
}

/// Finds the register that a word loads.
fn loaded(word: u32) -> Option<Reg>
    ensures { result ≡ loaded word }
{
    match decode(word)? {
        Inst::Lb { rt, .. }
        | Inst::Lh { rt, .. }
        | Inst::Lwl { rt, .. }
        | Inst::Lw { rt, .. }
        | Inst::Lbu { rt, .. }
        | Inst::Lhu { rt, .. }
        | Inst::Lwr { rt, .. } => Some(rt),
        _ => None,
    }
}

/// Tells whether a word reads a register.
fn reads(word: u32, reg: Reg) -> bool
    ensures { result ≡ reads word reg }
{
    let fields = Fields::of(word);
    let operands = sources_of(word);
    operands
        .iter()
        .any(|operand| is_read_from(*operand, &fields, reg))
}

/// Finds the operands that a word reads: all of its instruction, but not an `rt` that stands first,
/// which is written, unless by a store.
fn sources_of(word: u32) -> &'static [Operand]
    ensures { result.now ≡ sources_of word }
{
    let Some(spelling) = spelling_of(word) else {
        return &[];
    };
    match spelling.operands.split_first() {
        Some((Operand::Rt, others)) if !is_store(word) => others,
        _ => spelling.operands,
    }
}

/// Tells whether a word holds a store.
fn is_store(word: u32) -> bool
    ensures { result ≡ is_store word }
{
    matches!(
        decode(word),
        Some(
            Inst::Sb { .. }
                | Inst::Sh { .. }
                | Inst::Swl { .. }
                | Inst::Sw { .. }
                | Inst::Swr { .. }
        )
    )
}

/// Tells whether an operand is a register that is read, and this one.
fn is_read_from(operand: Operand, fields: &Fields, reg: Reg) -> bool
    ensures { result ≡ is_read_from fields.now reg operand }
{
    match operand {
        Operand::Rs | Operand::Base => fields.rs.number() == reg.number(),
        Operand::Rt => fields.rt.number() == reg.number(),
        _ => false,
    }
}
