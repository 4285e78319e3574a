//! The parts of a text, one after another.

ghost use Rattle.std.specs.Prelude.{◌≡◌, ◌+◌, ◌-◌, ◌%◌, ◌<◌, ◌≤◌};
ghost use Rattle.irx_view.specs.declared.limits.TheConstants.{MOST_IMAGE};

use crate::tables::{ExportTable, ImportTable};
use crate::text::Text;

/// What stands at a place of a text.
#[derive(Clone, Copy)]
pub(crate) enum Part<'a> {
    /// An import table.
    Import(ImportTable<'a>),
    /// The start of an import table that is bad: two words 0 do not follow its stubs.
    BadImport,
    /// An export table.
    Export(ExportTable<'a>),
    /// A word that is of no table, and the one behind it, if the text has one.
    Word { word: u32, next: Option<u32> },
}

/// The parts of a text that are still to come, with their places.
#[derive(Drop)]
pub(crate) struct Parts<'a> {
    text: &'a Text,
    at: u32,
    ghost aligned: { at % 4 ≡ 0 },
    ghost inside: { at ≤ MOST_IMAGE },
}

impl<'a> Parts<'a> {
    /// Gives all parts of a text, in order. Together they have all its words.
    pub fn new(text: &'a Text) -> Self {
        Parts { text, at: 0 }
    }
}

impl<'a> Iterator for Parts<'a> {
    type Item = (u32, Part<'a>);

    ghost use Rattle.std.specs.Iterator.{at_most};

    ghost remaining = { λ parts. at_most (parts.text.now.size - parts.at) };

    fn next(&mut self) -> Option<(u32, Part<'a>)> {
        let at = self.at;
        if at + 4 > self.text.size {
            return None;
        }
        let (part, end) = part_at(self.text, at);
        self.at = end;
        Some((at, part))
    }
}

/// Reads the part at a place of a text, and gives the place behind it.
fn part_at<'a>(text: &'a Text, at: u32) -> (Part<'a>, u32)
    requires aligned { at % 4 ≡ 0 }
    requires inside { at + 4 ≤ text.now.size }
    ensures aligned { result.1 % 4 ≡ 0 }
    ensures after { at < result.1 }
    ensures inside { result.1 ≤ MOST_IMAGE }
{
    if text.starts_import(at) {
        return match ImportTable::read(text, at) {
            Some(table) => (Part::Import(table), table.import.end),
            None => (Part::BadImport, at + 4),
        };
    }
    match ExportTable::read(text, at) {
        Some(table) => (Part::Export(table), table.end()),
        None => {
            let word = text.word(at);
            let next = text.word_behind(at);
            (Part::Word { word, next }, at + 4)
        }
    }
}
