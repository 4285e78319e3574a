//! What a module is handed when it begins.

ghost use Rattle.std.specs.Prelude.{◌≡◌, ◌+◌, ◌*◌, ◌^◌, ◌<◌, ◌≤◌, [], ◌∷◌, ◌++◌, suc, length};
ghost use Rattle.arrayvec.specs.ArrayVec.{array_vec_len};
ghost use Rattle.iop_machine.specs.Modules.{addresses, argument_block, module_start, strings};

use arrayvec::ArrayVec;
use iop_exec::Cpu;
use iop_modload::Loaded;
use iop_script::Word;
use iop_text::append;
use iop_thread::{LOADER_STACK, LOADER_STACK_SIZE, registers_at};

/// Where the words are handed to a module.
pub(crate) const ARGUMENTS: u32 = 0x2000;

/// How many bytes the argument block has.
pub(crate) const ARGUMENTS_LEN: usize = 0x1000;

/// How many words a module may be handed, its own among them.
pub const MOST_WORDS: usize = 16;

/// How many bytes they may take, each with the zero byte that ends it: all of the argument block
/// but `MOST_WORDS` addresses and a word 0.
pub const MOST_WORD_BYTES: usize = ARGUMENTS_LEN - 4 * (MOST_WORDS + 1);

/// The instruction to which a module returns.
pub(crate) const MODULE_RETURN: u32 = 0x3020;

/// Where the stack pointer of the loader's thread begins: 16 bytes below the end of its stack.
pub(crate) const LOADER_STACK_TOP: u32 = LOADER_STACK + LOADER_STACK_SIZE - 16;

/// Appends a word and the zero byte that ends it.
fn append_string(block: &mut ArrayVec<u8, ARGUMENTS_LEN>, word: &[u8])
    requires { array_vec_len block.old + length word.now + 1 ≤ ARGUMENTS_LEN }
    ensures bytes { block.new.items ≡ block.old.items ++ word.now ++ 0 ∷ [] }
    ensures long { array_vec_len block.new ≡ array_vec_len block.old + length word.now + 1 }
{
    append(block, word);
    append(block, &[0]);
}

/// Appends words, each with the zero byte that ends it.
fn append_strings(block: &mut ArrayVec<u8, ARGUMENTS_LEN>, words: &[Word])
    requires { array_vec_len block.old + length (strings words.now) ≤ ARGUMENTS_LEN }
    ensures bytes { block.new.items ≡ block.old.items ++ strings words.now }
    ensures long { array_vec_len block.new ≡ array_vec_len block.old + length (strings words.now) }
{
    for word in words {
        append_string(block, &word.bytes);
    }
}

/// Appends the address of each word, the words standing one after the other from an address on.
fn append_addresses(block: &mut ArrayVec<u8, ARGUMENTS_LEN>, mut at: u32, words: &[Word])
    requires room { array_vec_len block.old + 4 * length words.now ≤ ARGUMENTS_LEN }
    requires end { at + length (strings words.now) < 2 ^ 32 }
    ensures bytes { block.new.items ≡ block.old.items ++ addresses at words.now }
    ensures long { array_vec_len block.new ≡ array_vec_len block.old + 4 * length words.now }
{
    for word in words {
        append(block, &at.to_le_bytes());
        at += word.bytes.len() as u32 + 1;
    }
}

/// Makes the argument block of a module that is handed its own word and then these: the words'
/// addresses, a word 0, and the words, each of which a zero byte ends.
#[tactic(auto, unfolding(crate::specs::Modules::argument_block))]
pub(crate) fn argument_block(name: &[u8], words: &[Word]) -> ArrayVec<u8, ARGUMENTS_LEN>
    requires few { suc (length words.now) ≤ MOST_WORDS }
    requires short { length (strings (name.now ∷ words.now)) ≤ MOST_WORD_BYTES }
    ensures block { result.items ≡ argument_block (name.now ∷ words.now) }
    ensures short { array_vec_len result ≤ ARGUMENTS_LEN }
{
    let first = ARGUMENTS + 4 * (words.len() as u32 + 2);
    let mut block = ArrayVec::new();
    append(&mut block, &first.to_le_bytes());
    append_addresses(&mut block, first + name.len() as u32 + 1, words);
    append(&mut block, &[0; 4]);
    append_string(&mut block, name);
    append_strings(&mut block, words);
    block
}

/// Makes the registers of the loader's thread as a module begins that is handed so many words.
#[tactic(auto, unfolding(crate::specs::Modules::module_start))]
pub(crate) fn module_start(loaded: &Loaded, words: u32) -> Cpu
    ensures { result ≡ module_start loaded.now words }
{
    let mut cpu = registers_at(loaded.place.base.wrapping_add(loaded.entry));
    cpu.regs[4] = words;
    cpu.regs[5] = ARGUMENTS;
    cpu.regs[28] = loaded.place.base.wrapping_add(loaded.gp);
    cpu.regs[29] = LOADER_STACK_TOP;
    cpu.regs[31] = MODULE_RETURN;
    cpu
}
