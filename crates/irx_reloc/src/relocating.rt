ghost use Rattle.std.specs.Prelude.{◌≡◌, ◌<◌, true, None, length};
ghost use Rattle.std.specs.List.{slice_get};
ghost use Rattle.iop_base.specs.Numbers.{word_at};
ghost use Rattle.irx_reloc.specs.Entries.{entries_of, all_entries};
ghost use Rattle.irx_reloc.specs.Fitting.{section_misfit, misfit};
ghost use Rattle.irx_reloc.specs.Relocating.{moved_word, half_of, after_entry, after_section, relocated_image};
ghost use Rattle.irx_reloc.specs.Kinds.{type_of};
ghost use Rattle.irx_reloc.specs.Walking.{pair_of, is_low_at, EntryFits};

use crate::entry::Entry;
use crate::fitting::Checked;
use crate::kind::Kind;
use crate::low_halves::low_behind;
use crate::moving::{high_moved, jump_moved, low_moved, word_moved};
use crate::words::put_word;
use iop_base::word_at;
use irx_elf::Relocations;

/// Makes the word that an entry leaves at its site, unless it leaves it as it is. `low` is the low
/// half that a HI16 takes.
#[tactic(auto, unfolding(crate::specs::Relocating::moved_word))]
fn new_word(image: &[u8], entry: Entry, low: u16, base: u32) -> Option<u32>
    requires { EntryFits (length image.now) entry }
    ensures { result ≡ moved_word (type_of entry.kind) (word_at image.now entry.site) low base }
{
    let site = entry.site as usize;
    match entry.kind {
        Kind::Nothing | Kind::Other(_) => None,
        Kind::Word => Some(word_moved(word_at(image, site), base)),
        Kind::Jump => Some(jump_moved(word_at(image, site), base)),
        Kind::High => Some(high_moved(word_at(image, site), low, base)),
        Kind::Low => Some(low_moved(word_at(image, site), base)),
    }
}

/// Applies an entry to the image. `low` is the low half that a HI16 takes.
#[tactic(auto, unfolding(crate::specs::Relocating::after_entry))]
fn apply(image: &mut [u8], entry: Entry, low: u16, base: u32)
    requires { EntryFits (length image.old) entry }
    ensures { image.new ≡ after_entry image.old (pair_of entry) low base }
{
    if let Some(word) = new_word(image, entry, low, base) {
        put_word(image, entry.site as usize, word);
    }
}

/// Reads the low half of the word at the site of the LO16 entry of an index; 0 past the entries.
fn low_half(image: &[u8], section: &[u8], index: usize) -> u16
    requires fits { section_misfit (length image.now) (entries_of section.now) ≡ None }
    requires low { let entries = entries_of section.now in
        index < length entries → is_low_at entries index ≡ true }
    ensures { result ≡ half_of image.now (slice_get (entries_of section.now) index) }
{
    if index < Entry::count(section) {
        let site = Entry::read(section, index).site as usize;
        (word_at(image, site) % 0x1_0000) as u16
    } else {
        0
    }
}

/// Applies the entries of a section to the image, in order.
fn relocate_section(image: &mut [u8], section: &[u8], base: u32)
    requires { section_misfit (length image.old) (entries_of section.now) ≡ None }
    ensures { image.new ≡ after_section image.old (entries_of section.now) base }
{
    let mut next_low = 0;
    for index in 0..Entry::count(section) {
        next_low = low_behind(section, index, next_low);
        let low = low_half(image, section, next_low);
        apply(image, Entry::read(section, index), low, base);
    }
}

/// Applies the sections to the image, in order.
fn relocate_sections(image: &mut [u8], relocations: &Relocations<'_>, base: u32)
    requires { misfit (length image.old) (all_entries relocations.now) ≡ None }
    ensures { image.new ≡ relocated_image image.old (all_entries relocations.now) base }
{
    let mut lists = relocations.lists();
    while let Some(section) = lists.next() {
        relocate_section(image, section, base);
    }
}

/// Relocates an image of the checked length in place, to the address `base`.
///
/// The entries are applied in order of section and of entry, each to the image as it then stands,
/// and each symbol counts as the base (this project's profile). What an entry does to the word at
/// its site follows from its type (System V ABI, MIPS supplement):
/// - R_MIPS_32: the base is added to the word.
/// - R_MIPS_26: a quarter of the base is added to the low 26 bits.
/// - R_MIPS_HI16: the low half is the high half of an address. The low half of that address, which
///   is signed, is the low half of the word at the site of the first LO16 behind the entry in its
///   section. The base is added to the address, and the low half becomes (address + 0x8000) /
///   65536.
/// - R_MIPS_LO16: the base is added to the low half.
///
/// Other bits of the word stay. Sums are taken modulo 2^32, 2^26 and 2^16. It costs three looks at
/// each entry at most, however many HI16 there are.
pub fn relocate(image: &mut [u8], checked: &Checked<'_>, base: u32)
    requires { length image.old ≡ checked.now.image_length }
    ensures { image.new ≡ relocated_image image.old checked.now.sections base }
{
    relocate_sections(image, checked.relocations(), base);
}
