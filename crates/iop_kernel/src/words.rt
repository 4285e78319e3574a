//! Words that services write to memory.

ghost use Rattle.std.specs.Prelude.{◌≡◌, ◌+◌, ◌*◌, ◌<◌, ◌≤◌, Some, IfSome, [], ◌∷◌, length};
ghost use Rattle.iop_base.specs.Numbers.{bytes_of, with_bytes};
ghost use Rattle.iop_base.specs.Output.{Gives};
ghost use Rattle.iop_base.specs.Places.{IsRamSize};
ghost use Rattle.iop_kernel.specs.Boards.{bytes_of_words, writes, writes_with};
ghost use Rattle.iop_kernel.specs.Standing.{Holds, TakesBoard, core};
ghost use Rattle.iop_kernel.specs.System.{Kernel as State};
ghost use Rattle.iop_stubs.specs.Stubs.{after_store, store_lines};
ghost use Rattle.iop_kernel.specs.declared.words.TheConstants.{MOST_WORDS};

use crate::after::After;
use crate::answering::answer;
use crate::kernel::Kernel;
use crate::thread_status::STATUS_WORDS;
use iop_base::{Code, Lines};
use iop_exec::Cpu;
use iop_ready::Ready;
use iop_stubs::Guest;

/// The most words that a service writes at once.
pub(crate) const MOST_WORDS: usize = STATUS_WORDS;

/// Puts a word at a place of bytes, the lowest byte first.
fn put_word(bytes: &mut [u8], place: usize, word: u32)
    requires { place + 4 ≤ length bytes.old }
    ensures { bytes.new ≡ with_bytes bytes.old place (bytes_of 4 word) }
{
    bytes[place..place + 4].copy_from_slice(&word.to_le_bytes());
}

/// Stores one to `MOST_WORDS` words at a physical place at a moment, the lowest byte of each first,
/// and tells of the live stubs that they meet. They lie in RAM.
pub(crate) fn store_words<L: Lines>(
    guest: &mut Guest,
    place: u32,
    words: &[u32],
    moment: u64,
    lines: &mut L,
)
    requires some { 0 < length words.now }
    requires few { length words.now ≤ MOST_WORDS }
    requires inside { place + 4 * length words.now ≤ length guest.old.ram }
    requires sized { IsRamSize (length guest.old.ram) }
    ensures memory { guest.new ≡ after_store guest.old (Some place) (bytes_of_words words.now) }
    ensures lines { Gives (L.output lines.old) (L.output lines.new)
        (store_lines moment guest.old (Some place) (length (bytes_of_words words.now))) }
{
    let mut bytes = [0; 4 * MOST_WORDS];
    for (index, &word) in words.iter().enumerate() {
        put_word(&mut bytes, 4 * index, word);
    }
    // The bytes lie in RAM.
    let _ = guest.store_bytes(place, &bytes[..4 * words.len()], moment, lines);
}

/// Stores a word at a physical place, if there is one, as `store_words` does. It lies in RAM.
#[tactic(auto, using(iop_base::proofs::Giving::gives_none))]
pub(crate) fn store_word<L: Lines>(
    guest: &mut Guest,
    place: Option<u32>,
    word: u32,
    moment: u64,
    lines: &mut L,
)
    requires inside { IfSome place (λ place. place + 4 ≤ length guest.old.ram) }
    requires sized { IsRamSize (length guest.old.ram) }
    ensures memory { guest.new ≡ after_store guest.old place (bytes_of_words (word ∷ [])) }
    ensures lines { Gives (L.output lines.old) (L.output lines.new)
        (store_lines moment guest.old place (length (bytes_of_words (word ∷ [])))) }
{
    if let Some(place) = place {
        store_words(guest, place, &[word], moment, lines);
    }
}

impl<R: Ready> Kernel<R> {
    /// Writes one to `MOST_WORDS` words at a physical place, where they lie in RAM, and answers 0.
    pub(crate) fn answer_words_at<L: Lines>(
        &self,
        place: u32,
        words: &[u32],
        cpu: &mut Cpu,
        guest: &mut Guest,
        lines: &mut L,
    ) -> After
        requires some { 0 < length words.now }
        requires few { length words.now ≤ MOST_WORDS }
        requires inside { place + 4 * length words.now ≤ length guest.old.ram }
        requires sized { IsRamSize (length guest.old.ram) }
        ensures { (k : State) → Holds R.stands self.now k
            → TakesBoard R.stands (writes guest.old (Some place) words.now (core k cpu.old)) result
            self.now cpu.new guest.new (L.output lines.old) (L.output lines.new) }
    {
        store_words(guest, place, words, self.clock, lines);
        answer(cpu, Code::OK)
    }

    /// Writes a word at a physical place, if there is one, where it lies in RAM, and answers a
    /// code.
    pub(crate) fn answer_code_at<L: Lines>(
        &self,
        place: Option<u32>,
        word: u32,
        code: Code,
        cpu: &mut Cpu,
        guest: &mut Guest,
        lines: &mut L,
    ) -> After
        requires inside { IfSome place (λ place. place + 4 ≤ length guest.old.ram) }
        requires sized { IsRamSize (length guest.old.ram) }
        ensures { (k : State) → Holds R.stands self.now k
            → TakesBoard R.stands (writes_with guest.old place (word ∷ []) (core k cpu.old) code)
            result self.now cpu.new guest.new (L.output lines.old) (L.output lines.new) }
    {
        store_word(guest, place, word, self.clock, lines);
        answer(cpu, code)
    }

    /// Writes a word at a physical place, if there is one, where it lies in RAM, and answers 0.
    pub(crate) fn answer_word_at<L: Lines>(
        &self,
        place: Option<u32>,
        word: u32,
        cpu: &mut Cpu,
        guest: &mut Guest,
        lines: &mut L,
    ) -> After
        requires inside { IfSome place (λ place. place + 4 ≤ length guest.old.ram) }
        requires sized { IsRamSize (length guest.old.ram) }
        ensures { (k : State) → Holds R.stands self.now k
            → TakesBoard R.stands (writes guest.old place (word ∷ []) (core k cpu.old)) result
            self.now cpu.new guest.new (L.output lines.old) (L.output lines.new) }
    {
        self.answer_code_at(place, word, Code::OK, cpu, guest, lines)
    }
}
