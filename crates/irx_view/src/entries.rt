//! The relocation entries of a module: how many there are of each type, and at which words.

ghost use Rattle.std.specs.Prelude.{◌≡◌, ◌-◌, ◌^◌, ◌<◌, min, length, slice_index_or};
ghost use Rattle.irx_reloc.specs.Entries.{entries_of, all_entries};
ghost use Rattle.irx_view.specs.Types.{number_of, count_of, count_of_all};

use crate::relocation_type::RelocationType;
use iop_base::word_at;
use irx_elf::Relocations;
use irx_elf::format::ENTRY_SIZE;
use std::alloc::{AllocError, Global};

/// A relocation entry of a module.
#[derive(Clone, Copy)]
struct Entry {
    /// The place in the image of the word that it changes.
    site: u32,
    /// The number of its type.
    number: u8,
}

impl Entry {
    /// Counts the entries of a section.
    fn count(section: &[u8]) -> usize
        ensures { result ≡ length (entries_of section.now) }
    {
        section.len() / ENTRY_SIZE as usize
    }

    /// Reads the entry of this index in a section.
    fn read(section: &[u8], index: usize) -> Self
        requires { index < length (entries_of section.now) }
        ensures site { result.site ≡ (slice_index_or (entries_of section.now) index (0, 0)).0 }
        ensures number { result.number ≡ (slice_index_or (entries_of section.now) index (0, 0)).1 }
    {
        let place = ENTRY_SIZE as usize * index;
        let info = word_at(section, place + 4);
        Entry {
            site: word_at(section, place),
            number: (info % 0x100) as u8,
        }
    }
}

/// Counts the entries of a type; the count stands still at 2^64 - 1.
pub(crate) fn count_entries(relocations: &Relocations<'_>, kind: RelocationType) -> u64
    ensures { let count = count_of_all (number_of kind) (all_entries relocations.now) in
        result ≡ min count (2 ^ 64 - 1) }
{
    let mut count = 0u64;
    let mut lists = relocations.lists();
    while let Some(section) = lists.next() {
        count = count.saturating_add(count_in_section(section, kind));
    }
    count
}

/// Counts the entries of a type in a section.
fn count_in_section(section: &[u8], kind: RelocationType) -> u64
    ensures { result ≡ count_of (number_of kind) (entries_of section.now) }
{
    let number = kind.number();
    let mut count = 0u64;
    for index in 0..Entry::count(section) {
        if Entry::read(section, index).number == number {
            count += 1;
        }
    }
    count
}

/// The types of the entries at the words of an image.
#[derive(Drop)]
pub(crate) struct Marks {
    kinds: Vec<Option<RelocationType>>,
}

impl Marks {
    /// Takes the entries at the first so many words of an image. Where more than one changes a
    /// word, the last counts.
    pub fn new(
        alloc: Global,
        relocations: &Relocations<'_>,
        words: usize,
    ) -> Result<Self, AllocError> {
        let mut marks = Marks {
            kinds: vec![in alloc; None; words]?,
        };
        let mut lists = relocations.lists();
        while let Some(section) = lists.next() {
            marks.take_section(section);
        }
        Ok(marks)
    }

    /// Takes the entries of a section.
    fn take_section(&mut self, section: &[u8]) {
        for index in 0..Entry::count(section) {
            self.take(Entry::read(section, index));
        }
    }

    /// Takes an entry, unless it changes nothing.
    fn take(&mut self, entry: Entry) {
        let kind = RelocationType::of_number(entry.number);
        if kind == Some(RelocationType::Nothing) {
            return;
        }
        if let Some(mark) = self.kinds.get_mut(entry.site as usize / 4) {
            *mark = kind;
        }
    }

    /// Tells the type of the entry at the word of a place, in bytes.
    pub fn at(&self, place: u32) -> Option<RelocationType> {
        self.kinds.get(place as usize / 4).copied().flatten()
    }
}
