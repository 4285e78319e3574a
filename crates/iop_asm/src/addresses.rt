//! Addresses of words, and what becomes of them in the words that name them.

ghost use Rattle.std.specs.Prelude.{◌≡◌, ◌+◌};
ghost use Rattle.iop_asm.specs.Assembly.{word_address, word_number, is_near, branch_field, field_by, relocation_type};

use crate::place::Place;
use crate::reference::ReferenceKind;
use crate::section::Section;
use iop_base::{R_MIPS_26, R_MIPS_32, R_MIPS_HI16, R_MIPS_LO16, high_half};

/// Gives the address of the word of a number. Addresses count modulo 2^32.
fn word_address(number: usize) -> u32
    ensures { result ≡ word_address number }
{
    (number % 0x4000_0000) as u32 * 4
}

/// Gives the address of the word of this number behind so many others.
pub(crate) fn address_behind(words: usize, number: usize) -> u32
    ensures { result ≡ word_address (words + number) }
{
    word_address(words).wrapping_add(word_address(number))
}

/// Gives the address of a place: the data follows so many words of text.
pub(crate) fn place_address(text_words: usize, place: Place) -> u32
    ensures { result ≡ word_address (word_number text_words place) }
{
    match place.section {
        Section::Text => word_address(place.words),
        Section::Data => address_behind(text_words, place.words),
    }
}

/// Says whether a branch at a site reaches an address: its way is counted in words from the one
/// behind it, up to 2^15 back and 2^15 - 1 ahead.
pub(crate) fn is_near(site: u32, address: u32) -> bool
    ensures { result ≡ is_near site address }
{
    let from = u64::from(site) + 4;
    let to = u64::from(address);
    from <= to + 4 * 0x8000 && to < from + 4 * 0x8000
}

/// Gives the immediate of a branch at a site to an address.
fn branch_field(site: u32, address: u32) -> u32
    ensures { result ≡ branch_field site address }
{
    let way = (u64::from(address) + 4 * 0x1_0000).saturating_sub(u64::from(site) + 4);
    (way / 4 % 0x1_0000) as u32
}

/// Gives what an address adds to the word at a site.
pub(crate) fn field_by(kind: ReferenceKind, site: u32, address: u32) -> u32
    ensures { result ≡ field_by kind site address }
{
    match kind {
        ReferenceKind::Address => address,
        ReferenceKind::Jump => address / 4 % 0x0400_0000,
        ReferenceKind::High => high_half(address),
        ReferenceKind::Low => address % 0x1_0000,
        ReferenceKind::Branch => branch_field(site, address),
    }
}

/// Gives the type of the relocation entry that a reference makes. A branch makes none.
pub(crate) fn relocation_type(kind: ReferenceKind) -> Option<u8>
    ensures { result ≡ relocation_type kind }
{
    match kind {
        ReferenceKind::Address => Some(R_MIPS_32),
        ReferenceKind::Jump => Some(R_MIPS_26),
        ReferenceKind::High => Some(R_MIPS_HI16),
        ReferenceKind::Low => Some(R_MIPS_LO16),
        ReferenceKind::Branch => None,
    }
}
