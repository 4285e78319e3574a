//! The text of a word.

ghost use Rattle.std.specs.Prelude.{◌≡◌, ◌+◌, ◌-◌, ◌*◌, ◌≤◌, ◌<◌, ◌++◌, codes, length};
ghost use Rattle.arrayvec.specs.ArrayVec.{array_vec_len};
ghost use Rattle.iop_base.specs.Text.{hex};
ghost use Rattle.iop_disasm.specs.Spelling.{inst_bytes, operands_text, separator, operand_text, register, bits_half};

use arrayvec::ArrayVec;
use iop_isa::{Fields, Operand, Reg, Spelling, branch_target, jump_target, spelling_of};
use iop_text::{append, append_hex, append_hex_digits, append_number};

/// How many bytes there is room for in a text.
const TEXT_ROOM: usize = 64;

/// A text as far as it is written.
pub(crate) type Text = ArrayVec<u8, TEXT_ROOM>;

/// The text of a word as the instruction at the address `at`: its name, a space, and its operands
/// with a comma between each two. It is no longer than 32 bytes.
///
/// A register is `$` and its number. Signed immediates, amounts to shift by and codes are decimal,
/// the bits of an immediate are `0x` and 4 hexadecimal digits, and the target of a branch or a jump
/// is its address in 8 hexadecimal digits. The place of a load or a store is its offset with the
/// register behind it in parentheses. A word that is no instruction is `.word 0x` and its 8 digits.
pub fn inst_text(word: u32, at: u32) -> ArrayVec<u8, 64>
    ensures bytes { result.items ≡ inst_bytes word at }
    ensures short { array_vec_len result ≤ 32 }
{
    let mut text = ArrayVec::new();
    append_inst(&mut text, word, at);
    text
}

/// Appends the text of a word at an address.
#[tactic(auto, unfolding(crate::specs::Spelling::inst_bytes))]
pub(crate) fn append_inst(text: &mut Text, word: u32, at: u32)
    requires { array_vec_len text.old + 40 ≤ TEXT_ROOM }
    ensures bytes { text.new.items ≡ text.old.items ++ inst_bytes word at }
    ensures short { array_vec_len text.new ≤ array_vec_len text.old + 32 }
{
    match spelling_of(word) {
        Some(Spelling { name, operands }) => {
            append(text, name);
            append(text, b" ");
            append_operands(text, operands, &Fields::of(word), at);
        }
        None => {
            append(text, b".word 0x");
            append_hex(text, word);
        }
    }
}

/// Appends the operands of the instruction at an address.
fn append_operands(text: &mut Text, operands: &[Operand], fields: &Fields, at: u32)
    requires room { array_vec_len text.old + 32 ≤ TEXT_ROOM }
    requires few { length operands.now ≤ 3 }
    ensures bytes { text.new.items ≡ text.old.items ++ operands_text at fields.now operands.now }
    ensures short { array_vec_len text.new
        ≤ array_vec_len text.old + (8 + 9 * (length operands.now - 1)) }
{
    if let Some((first, others)) = operands.split_first() {
        append_operand(text, *first, fields, at);
        for operand in others {
            append_separator(text, *operand);
            append_operand(text, *operand, fields, at);
        }
    }
}

/// Appends what stands before an operand that is not the first.
fn append_separator(text: &mut Text, operand: Operand)
    requires { array_vec_len text.old + 1 ≤ TEXT_ROOM }
    ensures bytes { text.new.items ≡ text.old.items ++ separator operand }
    ensures short { array_vec_len text.new ≤ array_vec_len text.old + 1 }
{
    match operand {
        Operand::Base => {}
        _ => append(text, b","),
    }
}

/// Appends an operand of the instruction at an address.
fn append_operand(text: &mut Text, operand: Operand, fields: &Fields, at: u32)
    requires { array_vec_len text.old + 10 ≤ TEXT_ROOM }
    ensures bytes { text.new.items ≡ text.old.items ++ operand_text at fields.now operand }
    ensures short { array_vec_len text.new ≤ array_vec_len text.old + 8 }
{
    match operand {
        Operand::Rd => append_register(text, fields.rd),
        Operand::Rs => append_register(text, fields.rs),
        Operand::Rt => append_register(text, fields.rt),
        Operand::Sa => append_number(text, fields.sa.number()),
        Operand::Code => append_number(text, fields.n.number()),
        Operand::Signed => append_number(text, fields.imm.cast_signed()),
        Operand::Bits => append_bits(text, fields.imm),
        Operand::Label => append_hex(text, branch_target(at, fields.imm)),
        Operand::Target => append_hex(text, jump_target(at, fields.target)),
        Operand::Base => {
            append(text, b"(");
            append_register(text, fields.rs);
            append(text, b")");
        }
    }
}

/// Appends a register.
fn append_register(text: &mut Text, reg: Reg)
    requires { array_vec_len text.old + 4 ≤ TEXT_ROOM }
    ensures bytes { text.new.items ≡ text.old.items ++ register reg }
    ensures short { array_vec_len text.new ≤ array_vec_len text.old + 4 }
{
    append(text, b"$");
    append_number(text, reg.number());
}

/// Appends the bits of an immediate.
fn append_bits(text: &mut Text, imm: u16)
    requires { array_vec_len text.old + 6 ≤ TEXT_ROOM }
    ensures bytes { text.new.items ≡ text.old.items ++ bits_half imm }
    ensures long { array_vec_len text.new ≡ array_vec_len text.old + 6 }
{
    append(text, b"0x");
    append_hex_digits(text, imm.into(), 4);
}
