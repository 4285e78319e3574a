ghost use Rattle.std.specs.Prelude.{◌≡◌, ℕ, ◌*◌, ◌%◌, true, false, IfOk, length};
ghost use Rattle.iop_stubs.specs.WordSets.{has, HasRoom, ChangesOnly};
ghost use Rattle.iop_stubs.specs.declared.word_set.TheConstants.{WORDS, WORD_BYTES};

use std::alloc::{AllocError, Global};

/// How many words an element of the set tells of.
const WORDS: u32 = 64;

/// How many bytes a word has.
const WORD_BYTES: u32 = 4;

/// A set of the words of RAM, each by its place / 4.
#[derive(Drop)]
pub(crate) struct WordSet {
    /// Bit n % `WORDS` of element n / `WORDS` is 1 where word n is in the set.
    bits: Vec<u64>,
}

impl WordSet {
    /// Makes the set of no word, with room for the words of so many bytes.
    pub(crate) fn new(alloc: Global, bytes: u32) -> Result<Self, AllocError>
        requires { bytes % (WORD_BYTES * WORDS) ≡ 0 }
        ensures none { IfOk result (λ set. (n : ℕ) → has set.bits.items n ≡ false) }
        ensures room { IfOk result (λ set.
            length set.bits.items * (WORD_BYTES * WORDS) ≡ bytes) }
    {
        let count = bytes / WORD_BYTES / WORDS;
        Ok(WordSet {
            bits: vec![in alloc; 0; count as usize]?,
        })
    }

    /// Tells whether a word is in the set.
    pub(crate) fn has(&self, word: u32) -> bool
        requires { HasRoom self.now.bits.items word }
        ensures { result ≡ has self.now.bits.items word }
    {
        self.bits[(word / WORDS) as usize] >> (word % WORDS) & 1 == 1
    }

    /// Puts a word into the set.
    pub(crate) fn insert(&mut self, word: u32)
        requires { HasRoom self.old.bits.items word }
        ensures { ChangesOnly self.old.bits.items self.new.bits.items word true }
    {
        self.bits[(word / WORDS) as usize] |= 1 << (word % WORDS);
    }

    /// Takes a word out of the set, if it is there.
    pub(crate) fn remove(&mut self, word: u32)
        requires { HasRoom self.old.bits.items word }
        ensures { ChangesOnly self.old.bits.items self.new.bits.items word false }
    {
        self.bits[(word / WORDS) as usize] &= !(1 << (word % WORDS));
    }
}
