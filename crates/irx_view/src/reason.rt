//! Why a file is no module.

ghost use Rattle.std.specs.Prelude.{◌≡◌};
ghost use Rattle.irx_view.specs.Rules.{rule_text, is_of_file};

use iop_base::Illegal;
use std::fmt;

/// The last rule whose place is one of the file. That of a later rule is one of the image.
const LAST_FILE_RULE: u8 = 12;

/// Tells what does not hold of a file that breaks the rule of this number (`docs/FORMATS.md`, "IRX
/// files").
pub fn rule_text(rule: u8) -> &'static str
    ensures { result.now ≡ rule_text rule }
{
    match rule {
        1 => "it has fewer than 52 bytes",
        2 => "it does not begin with 7F 45 4C 46 01 01",
        3 => "its type is not 0xFF80",
        4 => "its machine is not 8",
        5 => "its program headers are not of 32 bytes, or not in the file",
        6 => "it has no program header of type 0x70000080",
        7 => "it has no program header of type 1",
        8 => "its module information is not in the file, or not whole",
        9 => "its image is not in the file",
        10 => "the sizes of its text and its image do not fit",
        11 => "its section headers are not of 40 bytes, or not in the file",
        12 => "a section of relocation entries is not in the file, not whole, or names no section",
        13 => "the site of a relocation entry is no word of the image",
        14 => "a relocation entry has none of the types 0, 2, 4, 5, 6",
        15 => "a relocation entry of type 5 has no later one of type 6 in its section",
        _ => "this is no rule",
    }
}

/// Tells whether the place of a rule is one of the file, and not one of the image.
fn is_of_file(rule: u8) -> bool
    ensures { result ≡ is_of_file rule }
{
    rule <= LAST_FILE_RULE
}

/// Why a file is no module, in words: which rule it breaks, at which place.
#[derive(Clone, Copy, Debug, PartialEq, Eq)]
pub struct Reason(pub Illegal);

impl fmt::Display for Reason {
    fn fmt<W: fmt::Write>(&self, f: &mut fmt::Formatter<W>) -> fmt::Result {
        let Illegal { rule, at } = self.0;
        let text = rule_text(rule);
        if is_of_file(rule) {
            write!(f, "breaks rule {rule} at byte {at}: {text}")
        } else {
            write!(f, "breaks rule {rule} at {at:08x} of the image: {text}")
        }
    }
}
