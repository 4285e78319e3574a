//! Facts about the definitions that no call computes. Each is the contract of a function that does
//! nothing.

ghost use Rattle.iop_script.specs.RuleLists.{FirstBrokenRulesAreTold};
ghost use Rattle.iop_script.specs.Laws.{ScriptsCanRun, VersionsBound, ScriptsCanBeWritten, WrittenScriptsAreRead, GoodLinesAreWritten, FirstBadLinesAreTold, BadLinesDecide};

/// The script of a text is one that a machine can run: its events are in the order of their ticks,
/// all below 2^63, and their lines below 64; no module and no name has words twice, and those of
/// each are at most 15 and take less than 2,048 bytes, each with a zero byte behind it.
pub fn scripts_can_run()
    ensures { ScriptsCanRun }
{}

/// The script of a text of version 1 lowers no line, and has no words for a name.
pub fn versions_bound()
    ensures { VersionsBound }
{}

/// The script of a text can be written in the version that the text tells: besides, its modules are
/// 1 to 64, its names and words have bytes from 0x21 to 0x7E alone, one at least, and no line of
/// words is longer than 2,048 bytes.
pub fn scripts_can_be_written()
    ensures { ScriptsCanBeWritten }
{}

/// The text written of a script that can be written says this script.
pub fn written_scripts_are_read()
    ensures { WrittenScriptsAreRead }
{}

/// Of a text that is a script each line behind the first is empty, begins with `#`, or is one of
/// the lines that the script is written with. So none of these is read of another line, as one with
/// a zero before a number, with two spaces between fields or with more fields behind the last, and
/// `release` is never read as a line that is raised.
pub fn good_lines_are_written()
    ensures { GoodLinesAreWritten }
{}

/// A text is refused with a line and a rule exactly where the text of the lines before this line is
/// good, and the text with it breaks the rule there.
pub fn first_bad_lines_are_told()
    ensures { FirstBadLinesAreTold }
{}

/// What stands behind a bad line changes nothing.
pub fn bad_lines_decide()
    ensures { BadLinesDecide }
{}

/// The rule that is told of a line behind the first is the first that the line breaks, in the order
/// of `Rule`.
pub fn first_broken_rules_are_told()
    ensures { FirstBrokenRulesAreTold }
{}
