ghost use Rattle.std.specs.Prelude.{◌≡◌, ◌+◌, ◌*◌, ◌/◌, ◌<◌, ◌≤◌, length, slice_index_or};
ghost use Rattle.irx_reloc.specs.Entries.{entries_of};
ghost use Rattle.irx_reloc.specs.Fitting.{is_type};
ghost use Rattle.irx_reloc.specs.Kinds.{type_of, is_named};

use crate::kind::Kind;
use iop_base::word_at;
use irx_elf::format::ENTRY_SIZE;

/// A relocation entry.
#[derive(Clone, Copy)]
pub(crate) struct Entry {
    /// The place in the image of the word that it changes, in bytes.
    pub site: u32,
    /// What it changes.
    pub kind: Kind,
    ghost named: { is_named kind ≡ is_type (type_of kind) },
}

impl Entry {
    ghost use Rattle.irx_reloc.specs.Walking.{pair_of};

    /// Counts the entries of a section.
    pub fn count(section: &[u8]) -> usize
        ensures { result ≡ length (entries_of section.now) }
    {
        section.len() / ENTRY_SIZE as usize
    }

    /// Reads the entry of this index in a section.
    pub fn read(section: &[u8], index: usize) -> Self
        requires { index < length (entries_of section.now) }
        ensures { pair_of result ≡ slice_index_or (entries_of section.now) index (0, 0) }
    {
        let place = ENTRY_SIZE as usize * index;
        let info = word_at(section, place + 4);
        Entry {
            site: word_at(section, place),
            kind: Kind::of_type((info % 0x100) as u8),
        }
    }
}
