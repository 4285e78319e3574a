//! Which LO16 entry is the first behind another.

ghost use Rattle.std.specs.Prelude.{◌≡◌, ◌+◌, ◌<◌, ◌≤◌, length};
ghost use Rattle.irx_reloc.specs.Entries.{entries_of};
ghost use Rattle.irx_reloc.specs.Walking.{IsNextLow};

use crate::entry::Entry;
use crate::kind::Kind;

/// Finds the index of the first LO16 from an index on, or the number of entries where none is one.
fn first_low(section: &[u8], from: usize) -> usize
    requires { from ≤ length (entries_of section.now) }
    ensures { IsNextLow (entries_of section.now) from result }
{
    let count = Entry::count(section);
    for index in from..count {
        if let Kind::Low = Entry::read(section, index).kind {
            return index;
        }
    }
    count
}

/// Finds the index of the first LO16 behind an entry, or the number of entries where none is one.
///
/// `known` is 0, or the answer for the entry before. The next one is looked for only once a walk
/// has come to it, so over a whole walk the search looks at each entry once at most, however many
/// HI16 there are.
pub(crate) fn low_behind(section: &[u8], index: usize, known: usize) -> usize
    requires inside { index < length (entries_of section.now) }
    requires known { index < known → IsNextLow (entries_of section.now) index known }
    ensures { IsNextLow (entries_of section.now) (index + 1) result }
{
    if index < known {
        known
    } else {
        first_low(section, index + 1)
    }
}
