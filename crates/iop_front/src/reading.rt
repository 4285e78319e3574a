//! Reading one file.

ghost use Rattle.std.specs.Prelude.{◌≡◌, ◌≤◌, [], ◌∷◌, length, take, IfOk, OnOk, OnErr, MatchResult};
ghost use Rattle.iop_modload.specs.declared.limits.TheConstants.{LONGEST_FILE};
ghost use Rattle.iop_ports.specs.Counts.{HasCause};
ghost use Rattle.iop_front.specs.Inputs.{seen, HasTaken, HasStopped};
ghost use Rattle.iop_front.specs.Outcome.{read_limit};
ghost use Rattle.iop_front.specs.Reading.{HasRead};
ghost use Rattle.iop_front.specs.Named.{FileKind};

use crate::unread::Unread;
use iop_modload::LONGEST_FILE;
use iop_ports::{Failed, Files};

/// Opens a file and reads it into `buf` until its end or until the buffer is full. Answers how many
/// bytes it read. `Failed` comes where the opening or a read fails.
pub(crate) fn read_file<F: Files>(
    files: &mut F,
    name: &str,
    buf: &mut [u8],
) -> Result<usize, Failed>
    ensures within { IfOk result (λ len. len ≤ length buf.old) }
    ensures told { HasRead name.now (length buf.old) (F.faults files.old) result buf.new
        (F.told files.old) (F.told files.new) }
    ensures no_fault { OnOk result (F.faults files.new ≡ F.faults files.old) }
    ensures cause { OnErr result (HasCause (F.faults files.old) (F.faults files.new)) }
{
    files.open_file(name)?;
    let mut len = 0;
    while len < buf.len() {
        let n = files.read(&mut buf[len..])?;
        if n == 0 {
            break;
        }
        len += n;
    }
    Ok(len)
}

/// Reads a file through a buffer of `READ_LIMIT` bytes. Answers how many bytes the file has.
pub(crate) fn read_whole<'a, F: Files>(
    name: &'a str,
    buffer: &mut [u8],
    files: &mut F,
) -> Result<usize, Unread<'a>>
    requires { length buffer.old ≡ read_limit }
    ensures read { (kind : FileKind) → MatchResult result
        (λ len. HasTaken kind (name.now ∷ [])
        (record { name = name.now; file = take len buffer.new } ∷ [])
        (seen F.told F.faults files.old) (seen F.told F.faults files.new))
        (λ unread. HasStopped kind (name.now ∷ []) unread
        (seen F.told F.faults files.old) (seen F.told F.faults files.new)) }
    ensures short { IfOk result (λ len. len ≤ LONGEST_FILE) }
    ensures buffer { length buffer.new ≡ read_limit }
{
    match read_file(files, name, buffer) {
        Ok(len) if len > LONGEST_FILE as usize => Err(Unread::TooLong(name)),
        Ok(len) => Ok(len),
        Err(_) => Err(Unread::Unreadable(name)),
    }
}
