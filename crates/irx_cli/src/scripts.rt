//! What is told of a script.

use crate::files::read_file;
use anyhow::{Result, bail};
use iop_modload::LONGEST_FILE;
use iop_script::{Script, ScriptFault, Version, parse};
use irx_view::{BadLine, line_of, version_of, write_script};
use std::io::{BufWriter, Write};
use std::process::ExitCode;

/// The status where a file is no script.
const NO_SCRIPT: u8 = 2;

/// Tells what a script says, or which line of the file is bad. A script has as many bytes as a
/// module's file at most.
pub(crate) fn check_script(rt: &HostRuntime, name: &str) -> Result<ExitCode> {
    let text = read_file(rt, name, LONGEST_FILE)?;
    match parse(rt.alloc(), &text) {
        Ok(script) => {
            tell_script(rt, version_of(&text), &script)?;
            Ok(ExitCode::SUCCESS)
        }
        Err(ScriptFault::Line { number, rule }) => {
            let line = line_of(&text, number);
            let reason = BadLine { number, rule, line };
            println!(rt; "{name} {reason}")?;
            Ok(ExitCode::from(NO_SCRIPT))
        }
        Err(fault) => bail!("{name}: {fault}"),
    }
}

/// Writes what a script says.
fn tell_script(rt: &HostRuntime, version: Version, script: &Script) -> Result<()> {
    let mut out = BufWriter::new(rt.alloc(), rt.stdout())?;
    write_script(version, script, &mut out)?;
    out.flush()?;
    Ok(())
}
