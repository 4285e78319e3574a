//! The files that are read and written.

ghost use Rattle.std.specs.Prelude.{◌≤◌, IfOk, length};

use anyhow::{Result, bail, ensure};
use std::fs;
use std::io::{Read, Write};

/// Reads the bytes of a file, of which there may be no more than `most`.
pub(crate) fn read_file(rt: &HostRuntime, name: &str, most: u32) -> Result<Vec<u8>>
    ensures { IfOk result (λ bytes. length bytes.items ≤ most) }
{
    let mut bytes = Vec::new(rt.alloc());
    let Ok(file) = fs::open(rt, name) else {
        bail!("{name} cannot be opened");
    };
    let is_read = file
        .take(u64::from(most) + 1)
        .read_to_end(&mut bytes)
        .is_ok();
    ensure!(is_read, "{name} cannot be read");
    ensure!(bytes.len() <= most as usize, "{name} is over {most} bytes");
    Ok(bytes)
}

/// Writes bytes to the file of a name, which is made or emptied before, or to standard output.
pub(crate) fn write_output(rt: &HostRuntime, name: Option<&str>, bytes: &[u8]) -> Result<()> {
    match name {
        Some(name) => {
            let is_written = fs::write(rt, name, bytes).is_ok();
            ensure!(is_written, "{name} cannot be written");
        }
        None => rt.stdout().write_all(bytes)?,
    }
    Ok(())
}
