//! The way from a text to the script that it is.

ghost use Rattle.std.specs.Prelude.{IfOk};
ghost use Rattle.iop_script.specs.Answers.{Gives, Takes};
ghost use Rattle.iop_script.specs.Laws.{CanRun};
ghost use Rattle.iop_script.specs.Reading.{after_line, script_of};

use crate::fault::ScriptFault;
use crate::line_fault::LineFault;
use crate::rule::Rule;
use crate::script::Script;
use crate::statements::{args_of, demand_short, event_of, is_remark, named_of};
use crate::texts::split_first;
use crate::version::Version;
use std::alloc::Global;

/// Takes a line into the script.
#[tactic(auto, unfolding(crate::specs::Reading::after_line))]
fn take_line(
    alloc: Global,
    version: Version,
    script: &mut Script,
    line: &[u8],
) -> Result<(), LineFault>
    ensures { Takes result (after_line version script.old line.now) script.new }
{
    if is_remark(line) {
        return Ok(());
    }
    let (keyword, fields) = split_first(line, b' ');
    if keyword == b"at".as_slice() {
        script.take_event(event_of(version, fields)?)
    } else if keyword == b"args".as_slice() {
        demand_short(line)?;
        script.take_args(args_of(alloc, fields)?)
    } else if keyword == b"for".as_slice() && version.allows_more() {
        demand_short(line)?;
        script.take_named(named_of(alloc, fields)?)
    } else {
        Err(LineFault::Broken(Rule::Keyword))
    }
}

/// Reads the text of a script. Its lines end with a line feed, which the last may lack. The first
/// is `script 1` or `script 2`, which tells the version. Every other line is empty, begins with
/// `#`, or is one of
///
/// - `at T line N`: interrupt line N, 0 to 63, is raised at tick T, at most 2^63 - 1 and not less
///   than in the `at` line before;
/// - `at T release N`, in version 2: interrupt line N is lowered at tick T, in one order with the
///   lines that are raised;
/// - `args K W W ..`: module K, 1 to 64, is handed these words, at most 15 of bytes from 0x21 to
///   0x7E. The line has at most 2,048 bytes, and K stands in no other one;
/// - `for NAME W W ..`, in version 2: a module of this name, of bytes from 0x21 to 0x7E, is handed
///   such words. The line has at most 2,048 bytes, and NAME stands in no other one.
///
/// One space separates fields. Numbers are decimal digits without a leading zero.
///
/// The script is one that a machine can run.
///
/// Answers `Line` exactly where a line is bad, with the number of the first such line and the first
/// `Rule` that it breaks. Or it answers `Memory`, which stands for want of host memory.
#[tactic(auto, using(crate::proofs::LineLemmas::lines))]
pub fn parse(alloc: Global, bytes: &[u8]) -> Result<Script, ScriptFault>
    ensures script { Gives result (script_of bytes.now) }
    ensures runs { IfOk result CanRun }
{
    let (first, mut left) = split_first(bytes, b'\n');
    let Some(version) = Version::of_line(first) else {
        return Err(ScriptFault::Line {
            number: 1,
            rule: Rule::FirstLine,
        });
    };
    let mut script = Script::new(alloc);
    let mut number: u32 = 1;
    while let Some(lines) = left {
        let (line, rest) = split_first(lines, b'\n');
        number = number.saturating_add(1);
        if let Err(fault) = take_line(alloc, version, &mut script, line) {
            return Err(fault.in_line(number));
        }
        left = rest;
    }
    Ok(script)
}
