//! A list of words in memory, as a table that is saved and restored has one.

ghost use Rattle.std.specs.Prelude.{◌≡◌, ◌<◌, ℕ, Some, [], ◌∷◌, ◌++◌, length, slice_get, true, OnOk, MatchBool, MatchResult};
ghost use Rattle.iop_snapshot.specs.Reading.{GivesNone};
ghost use Rattle.iop_snapshot.specs.Writing.{place_of, Writes};
ghost use Rattle.iop_snapshot_tests.specs.Words.{word_form, next_word, grown_none};

use iop_base::WriteFault;
use iop_ports::Sink;
use iop_snapshot::widths::COUNT;
use iop_snapshot::{Decoder, Encoder, RestoreItems, SaveItems, SnapFault, save_list};
use std::alloc::{AllocError, Global};
use std::marker::Model;

/// How many words a list has at most.
pub const MOST_WORDS: usize = 3;

/// Words, in order.
#[derive(Drop)]
pub struct Words {
    words: Vec<u32>,
}

impl Model for Words {
    ghost use Rattle.std.specs.Prelude.{ℕ, List, ◌≤◌, length};
    ghost use Rattle.iop_snapshot_tests.specs.declared.words.TheConstants.{MOST_WORDS};

    ghost Value = { List ℕ };

    ghost view = { λ w. w.words.items };

    ghost invariant = { λ w. length w.words.items ≤ MOST_WORDS };
}

impl Words {
    /// No word.
    pub fn new(alloc: Global) -> Self
        ensures { result ≡ [] }
    {
        Words {
            words: Vec::new(alloc),
        }
    }

    /// Puts a word behind the others.
    pub fn push(&mut self, word: u32) -> Result<(), AllocError>
        requires { length self.old < MOST_WORDS }
        ensures { OnOk result (self.new ≡ self.old ++ word ∷ []) }
    {
        Ok(self.words.push(word)?)
    }

    /// Whether no further word has room.
    pub fn is_full(&self) -> bool
        ensures { MatchBool result (length self.now ≡ MOST_WORDS) (length self.now < MOST_WORDS) }
    {
        self.words.len() == MOST_WORDS
    }

    /// The word at a place.
    pub fn nth(&self, place: usize) -> Option<u32>
        ensures { result ≡ slice_get self.now place }
    {
        self.words.get(place).copied()
    }
}

/// Writes a list of words.
pub fn save_words<S: Sink>(words: &Words, encoder: &mut Encoder<'_, S>) -> Result<(), WriteFault> {
    let count = words.words.len() as u32;
    let mut unwritten = Unwritten {
        words: &words.words,
    };
    save_list::<u32, Unwritten<'_>, S>(count, &mut unwritten, encoder)
}

#[tactic(auto, unfolding(iop_snapshot::specs::Forms::item))]
fn save_word<S: Sink>(word: u32, encoder: &mut Encoder<'_, S>) -> Result<(), WriteFault>
    ensures written { Writes result (word_form.spell word) (place_of S.told encoder.old)
        (place_of S.told encoder.new) }
    ensures fits { word_form.fits word ≡ true }
{
    encoder.item(&COUNT, &[u64::from(word)])
}

#[tactic(auto, unfolding(iop_snapshot::specs::Forms::item))]
fn take_word(words: &mut Words, decoder: &mut Decoder<'_>) -> Result<(), SnapFault>
    ensures { MatchResult result
        (λ _. (x : ℕ) × (words.new ≡ words.old ++ x ∷ [])
        × ((next_word words.old).read decoder.old ≡ Some (x, decoder.new)))
        (GivesNone ((next_word words.old).read decoder.old)) }
{
    let mut numbers = [0; 1];
    let Some(()) = decoder.item(&COUNT, &mut numbers) else {
        return Err(SnapFault::Bad);
    };
    if words.is_full() {
        return Err(SnapFault::Bad);
    }
    words.push(numbers[0] as u32)?;
    Ok(())
}

/// The words of a list that are still to be written.
#[derive(Drop)]
pub struct Unwritten<'a> {
    words: &'a [u32],
}

impl SaveItems<u32> for Unwritten<'_> {
    ghost ahead = { λ unwritten xs. unwritten.words.now ≡ xs };

    ghost form = { word_form };

    fn save_next<S: Sink>(&mut self, encoder: &mut Encoder<'_, S>) -> Result<(), WriteFault> {
        let Some((word, rest)) = self.words.split_first() else {
            return Ok(());
        };
        save_word(*word, encoder)?;
        self.words = rest;
        Ok(())
    }
}

impl RestoreItems<u32> for Words {
    ghost starts = { λ _. Unit {0} };

    ghost grows = { λ base now xs. now ≡ base ++ xs };

    ghost next_form = { λ base xs. next_word (base ++ xs) };

    fn restore_next(&mut self, decoder: &mut Decoder<'_>) -> Result<(), SnapFault> {
        take_word(self, decoder)
    }

    ghost begins = { grown_none };
}
