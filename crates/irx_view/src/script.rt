//! Why a text is no script.

ghost use Rattle.std.specs.Prelude.{◌≡◌, Some, slice_get};
ghost use Rattle.std.specs.Option.{option_map};
ghost use Rattle.std.specs.Result.{IsOk};
ghost use Rattle.iop_script.specs.Reading.{script_of};
ghost use Rattle.iop_script.specs.Texts.{line_feed, parts};
ghost use Rattle.iop_script.specs.Versions.{version_of};
ghost use Rattle.irx_view.specs.Scripts.{line_rule_text, line_of};

use crate::names::write_byte;
use iop_script::{Rule, Version};
use std::fmt;

/// How many bytes of a bad line are shown.
const SHOWN_BYTES: usize = 100;

/// Tells what does not hold of a line that breaks a rule (`docs/FORMATS.md`, "The tool for module
/// files").
pub fn line_rule_text(rule: Rule) -> &'static str
    ensures { result.now ≡ line_rule_text rule }
{
    match rule {
        Rule::FirstLine => "it is neither script 1 nor script 2",
        Rule::Keyword => "its first field is not at, args, or in version 2 for",
        Rule::FieldCount => "it has not four fields",
        Rule::Tick =>
            "its second field is no tick, 0 to 9223372036854775807 without a leading zero",
        Rule::Change => "its third field is not line, or in version 2 release",
        Rule::InterruptLine =>
            "its fourth field is no interrupt line, 0 to 63 without a leading zero",
        Rule::TickOrder => "its tick is less than that of the at line before",
        Rule::LineLength => "it has more than 2048 bytes",
        Rule::Module => "its second field is no module, 1 to 64 without a leading zero",
        Rule::Name => "its second field is no name, bytes from 0x21 to 0x7e",
        Rule::WordCount => "it has more than 15 words",
        Rule::WordBytes => "a word of it is empty, or has a byte below 0x21 or above 0x7e",
        Rule::ModuleOnce => "an args line before has the same module",
        Rule::NameOnce => "a for line before has the same name",
    }
}

/// Finds the line behind so many others.
fn line_behind(text: &[u8], others: usize) -> Option<&[u8]>
    ensures { option_map (λ line. line.now) result ≡ slice_get (parts line_feed text.now) others }
{
    text.split(|byte| *byte == b'\n').nth(others)
}

/// Finds the line of a number in a text, from 1 on, without the line feed that ends it. It is empty
/// where the text has fewer lines.
pub fn line_of(text: &[u8], number: u32) -> &[u8]
    ensures { result.now ≡ line_of text.now number }
{
    match line_behind(text, (number as usize).saturating_sub(1)) {
        Some(line) => line,
        None => &[],
    }
}

/// Tells the version of a script, of which this is the text.
#[tactic(auto, using(crate::proofs::ScriptLemmas::versioned))]
pub fn version_of(text: &[u8]) -> Version
    requires { IsOk (script_of text.now) }
    ensures { version_of (line_of text.now 1) ≡ Some result }
{
    Version::of_line(line_of(text, 1)).unwrap()
}

/// Why a text is no script, in words: which line is bad, which rule it breaks, and what it is.
#[derive(Clone, Copy)]
pub struct BadLine<'a> {
    /// The number of the line, from 1 on.
    pub number: u32,
    /// The rule.
    pub rule: Rule,
    /// The bytes of the line. At most `SHOWN_BYTES` of them are shown.
    pub line: &'a [u8],
}

impl fmt::Display for BadLine<'_> {
    fn fmt<W: fmt::Write>(&self, f: &mut fmt::Formatter<W>) -> fmt::Result {
        let number = self.number;
        let text = line_rule_text(self.rule);
        write!(f, "breaks a rule at line {number}: {text}: ")?;
        write_line(self.line, f)
    }
}

/// Writes a line as the text of a name, but a space as it is: its first `SHOWN_BYTES` bytes, and
/// two dots where it has more.
fn write_line<W: fmt::Write>(line: &[u8], f: &mut fmt::Formatter<W>) -> fmt::Result {
    if line.is_empty() {
        return f.write_str("\"\"");
    }
    for byte in line.iter().take(SHOWN_BYTES) {
        if *byte == b' ' {
            f.write_char(' ')?;
        } else {
            write_byte(*byte, f)?;
        }
    }
    if line.len() > SHOWN_BYTES {
        f.write_str("..")?;
    }
    Ok(())
}
