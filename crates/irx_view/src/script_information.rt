//! What a script says.

ghost use Rattle.std.specs.Prelude.{◌≡◌, ◌==◌, ◌&&◌, count_by};
ghost use Rattle.std.specs.List.{list_any};
ghost use Rattle.irx_view.specs.Scripts.{version_number};

use iop_script::{Args, Named, Raise, Script, Version, Word};
use iop_time::micros_of;
use std::io;
use std::io::Write;

/// How many interrupt lines there are.
const LINES: u8 = 64;

/// Writes what a script says: its version, how many events it has, when the first and the last of
/// them come, which interrupt lines are raised, and the words of modules.
pub fn write_script<W: Write>(version: Version, script: &Script, out: &mut W) -> io::Result<()> {
    writeln!(out, "version  {}", version_number(version))?;
    write_events(&script.events, out)?;
    write_lines(&script.events, out)?;
    for args in &script.args {
        write_args(args, out)?;
    }
    for named in &script.named {
        write_named(named, out)?;
    }
    Ok(())
}

/// Tells the number of a version.
fn version_number(version: Version) -> u32
    ensures { result ≡ version_number version }
{
    match version {
        Version::One => 1,
        Version::Two => 2,
    }
}

/// Writes how many lines are raised and released, and when the first and the last event come.
fn write_events<W: Write>(events: &[Raise], out: &mut W) -> io::Result<()> {
    let count = events.len();
    let raised = count_raised(events);
    let released = count - raised;
    writeln!(
        out,
        "events   {count}, raised {raised}, released {released}"
    )?;
    if let (Some(first), Some(last)) = (events.first(), events.last()) {
        write_moment("first", first.at, out)?;
        write_moment("last ", last.at, out)?;
    }
    Ok(())
}

/// Counts the events that raise a line.
fn count_raised(events: &[Raise]) -> usize
    ensures { result ≡ count_by (λ e. e.up) events.now }
{
    events.iter().filter(|event| event.up).count()
}

/// Writes a moment in ticks and in milliseconds, whose three decimals are rounded down.
fn write_moment<W: Write>(name: &str, ticks: u64, out: &mut W) -> io::Result<()> {
    let micros = micros_of(ticks);
    let whole = micros / 1_000;
    let decimals = micros % 1_000;
    writeln!(out, "{name}    tick {ticks}, {whole}.{decimals:03} ms")
}

/// Writes the interrupt lines that are raised, in the order of their numbers.
fn write_lines<W: Write>(events: &[Raise], out: &mut W) -> io::Result<()> {
    if count_raised(events) == 0 {
        return Ok(());
    }
    out.write_all(b"lines   ")?;
    for line in 0..LINES {
        if is_raised(events, line) {
            write!(out, " {line}")?;
        }
    }
    out.write_all(b"\n")
}

/// Tells whether a line is raised.
fn is_raised(events: &[Raise], line: u8) -> bool
    ensures { result ≡ list_any (λ e. e.up && e.line == line) events.now }
{
    events.iter().any(|event| event.up && event.line == line)
}

/// Writes the words of a module that has a number.
fn write_args<W: Write>(args: &Args, out: &mut W) -> io::Result<()> {
    write!(out, "args     {}", args.module)?;
    write_words(&args.words, out)
}

/// Writes the words for a name.
fn write_named<W: Write>(named: &Named, out: &mut W) -> io::Result<()> {
    out.write_all(b"for      ")?;
    out.write_all(&named.name)?;
    write_words(&named.words, out)
}

/// Writes words, each behind a blank, and ends the line.
fn write_words<W: Write>(words: &[Word], out: &mut W) -> io::Result<()> {
    for word in words {
        out.write_all(b" ")?;
        out.write_all(&word.bytes)?;
    }
    out.write_all(b"\n")
}
