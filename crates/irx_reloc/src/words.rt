//! Words put at places of bytes, lowest byte first.

ghost use Rattle.std.specs.Prelude.{◌≡◌, ◌+◌, ◌≤◌, length};
ghost use Rattle.irx_reloc.specs.Words.{with_word};

/// How many bytes a word has.
const WORD: usize = 4;

/// Puts a word at a place.
#[tactic(auto, unfolding(crate::specs::Words::with_word))]
pub(crate) fn put_word(bytes: &mut [u8], place: usize, word: u32)
    requires { place + 4 ≤ length bytes.old }
    ensures { bytes.new ≡ with_word bytes.old place word }
{
    bytes[place..place + WORD].copy_from_slice(&word.to_le_bytes());
}
