//! Comments, words and names in a line of source.

ghost use Rattle.std.specs.Prelude.{◌≡◌, ◌∷◌, [], IfOk, MatchOption, drop, length, map, option_map, position, take_while};
ghost use Rattle.std.specs.List.{before_first, list_all, position_or_len, slice_split};
ghost use Rattle.std.specs.Option.{option_copied};
ghost use Rattle.iop_asm.specs.Texts.{is_blank, is_comma, is_name_byte, is_name, symbol_of, behind, before, before_comment, after_blanks, words, only, pair, triple, parts_behind, all_of, comma_words};

use crate::quoting::Quoting;
use std::alloc::{AllocError, Global};

/// Says whether a byte is a space or a tab.
pub(crate) fn is_blank(byte: u8) -> bool
    ensures { result ≡ is_blank byte }
{
    byte == b' ' || byte == b'\t'
}

/// Says whether a text has no byte but blanks.
pub(crate) fn is_all_blank(text: &[u8]) -> bool
    ensures { result ≡ list_all is_blank text.now }
{
    text.iter().all(|byte| is_blank(*byte))
}

/// Gives the bytes before a comment, which a semicolon outside quotes begins.
#[tactic(auto, using(crate::proofs::TextLemmas::comments))]
pub(crate) fn before_comment(line: &[u8]) -> &[u8]
    ensures { result.now ≡ before_comment Quoting.Outside line.now }
{
    let mut quoting = Quoting::Outside;
    for (index, byte) in line.iter().enumerate() {
        if quoting.begins_comment(*byte) {
            return &line[..index];
        }
        quoting = quoting.behind(*byte);
    }
    line
}

/// Counts the blanks that a text begins with.
fn blanks_len(text: &[u8]) -> usize
    ensures { result ≡ length (take_while is_blank text.now) }
{
    text.iter().take_while(|byte| is_blank(**byte)).count()
}

/// Drops the blanks that a text begins with.
pub(crate) fn after_blanks(text: &[u8]) -> &[u8]
    ensures { result.now ≡ after_blanks text.now }
{
    &text[blanks_len(text)..]
}

/// Counts the bytes before the first blank of a text.
fn word_len(text: &[u8]) -> usize
    ensures { result ≡ length (before_first is_blank text.now) }
{
    text.iter().take_while(|byte| !is_blank(**byte)).count()
}

/// Splits a text before its first blank, or at its end where it has none.
pub(crate) fn split_word(text: &[u8]) -> (&[u8], &[u8])
    ensures front { result.0.now ≡ before_first is_blank text.now }
    ensures back { result.1.now ≡ drop (position_or_len is_blank text.now) text.now }
{
    text.split_at(word_len(text))
}

/// Takes a text's first word off. None where the text has no word.
#[tactic(auto, using(crate::proofs::TextLemmas::first_words))]
pub(crate) fn next_word(text: &[u8]) -> Option<(&[u8], &[u8])>
    ensures { MatchOption result (words text.now ≡ [])
        (λ split. words text.now ≡ split.0.now ∷ words split.1.now) }
{
    let rest = after_blanks(text);
    if rest.is_empty() {
        None
    } else {
        Some(split_word(rest))
    }
}

/// Gives the word of a text that has one word. None where it has more or none.
pub(crate) fn one_word(text: &[u8]) -> Option<&[u8]>
    ensures { option_copied result ≡ only (words text.now) }
{
    let (word, rest) = next_word(text)?;
    match next_word(rest) {
        None => Some(word),
        Some(_) => None,
    }
}

/// Gives the words of a text that has two words. None where it has more or fewer.
pub(crate) fn two_words(text: &[u8]) -> Option<(&[u8], &[u8])>
    ensures { option_map (λ found. (found.0.now, found.1.now)) result ≡ pair (words text.now) }
{
    let (first, rest) = next_word(text)?;
    let second = one_word(rest)?;
    Some((first, second))
}

/// Gives the words of a text that has three words. None where it has more or fewer.
pub(crate) fn three_words(text: &[u8]) -> Option<(&[u8], &[u8], &[u8])>
    ensures { option_map (λ found. (found.0.now, found.1.now, found.2.now)) result
        ≡ triple (words text.now) }
{
    let (first, rest) = next_word(text)?;
    let (second, third) = two_words(rest)?;
    Some((first, second, third))
}

/// Finds the first comma of a text.
fn first_comma(text: &[u8]) -> Option<usize>
    ensures { result ≡ position is_comma text.now }
{
    text.iter().position(|byte| *byte == b',')
}

/// Splits a text at its first comma: what stands before it, and what stands behind it. Without a
/// comma all stands before it.
#[tactic(auto, using(crate::proofs::TextLemmas::parts))]
pub(crate) fn split_comma(text: &[u8]) -> (&[u8], Option<&[u8]>)
    ensures { slice_split is_comma text.now ≡ result.0.now ∷ parts_behind (option_copied result.1) }
{
    match first_comma(text) {
        None => (text, None),
        Some(comma) => (&text[..comma], Some(&text[comma + 1..])),
    }
}

/// Gives the word of each part between commas. None where a part has more than one word or none.
#[tactic(auto, using(crate::proofs::CommaLemmas::commas))]
fn part_words<'a>(alloc: Global, text: &'a [u8]) -> Result<Option<Vec<&'a [u8]>>, AllocError>
    ensures { IfOk result (λ found. option_map (λ list. map (λ word. word.now) list.items) found
        ≡ all_of (map (λ part. only (words part)) (slice_split is_comma text.now))) }
{
    let mut found = Vec::new(alloc);
    let mut left = Some(text);
    while let Some(parts) = left {
        let (part, rest) = split_comma(parts);
        let Some(word) = one_word(part) else {
            return Ok(None);
        };
        found.push(word)?;
        left = rest;
    }
    Ok(Some(found))
}

/// Gives the words between commas, one between each two; none where the text has no word. None
/// where another number of words stands between two commas.
#[tactic(auto, unfolding(crate::specs::Texts::comma_words))]
pub(crate) fn comma_words<'a>(
    alloc: Global,
    text: &'a [u8],
) -> Result<Option<Vec<&'a [u8]>>, AllocError>
    ensures { IfOk result (λ words. option_map (λ list. map (λ word. word.now) list.items) words
        ≡ comma_words text.now) }
{
    if after_blanks(text).is_empty() {
        Ok(Some(Vec::new(alloc)))
    } else {
        part_words(alloc, text)
    }
}

/// Says whether a byte is a letter, a digit or `_`.
fn is_name_byte(byte: u8) -> bool
    ensures { result ≡ is_name_byte byte }
{
    byte.is_ascii_alphanumeric() || byte == b'_'
}

/// Says whether a word has no byte but letters, digits and `_`.
fn has_name_bytes(word: &[u8]) -> bool
    ensures { result ≡ list_all is_name_byte word.now }
{
    word.iter().all(|byte| is_name_byte(*byte))
}

/// Says whether a word is a name: letters, digits and `_`, and no digit first.
#[tactic(auto, unfolding(crate::specs::Texts::is_name))]
pub(crate) fn is_name(word: &[u8]) -> bool
    ensures { result ≡ is_name word.now }
{
    match word.first() {
        None => false,
        Some(first) => !first.is_ascii_digit() && has_name_bytes(word),
    }
}

/// Gives a word that is a name.
pub(crate) fn symbol_of(word: &[u8]) -> Option<&[u8]>
    ensures { option_copied result ≡ symbol_of word.now }
{
    is_name(word).then_some(word)
}

/// Gives what stands in a word behind what it begins with. None where it begins with something else.
pub(crate) fn behind<'a>(prefix: &[u8], word: &'a [u8]) -> Option<&'a [u8]>
    ensures { option_copied result ≡ behind prefix.now word.now }
{
    word.strip_prefix(prefix)
}

/// Gives what stands in a word before what it ends with. None where it ends with something else.
pub(crate) fn before<'a>(suffix: &[u8], word: &'a [u8]) -> Option<&'a [u8]>
    ensures { option_copied result ≡ before suffix.now word.now }
{
    word.strip_suffix(suffix)
}
