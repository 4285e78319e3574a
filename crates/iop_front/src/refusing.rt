//! The lines of refusals.

ghost use Rattle.std.specs.Prelude.{◌≡◌, ◌++◌, Bool};
ghost use Rattle.iop_modload.specs.declared.limits.TheConstants.{LONGEST_FILE};
ghost use Rattle.iop_front.specs.Named.{AsSnapshot, longest};
ghost use Rattle.iop_ports.specs.Sinks.{Sends};
ghost use Rattle.iop_front.specs.Outcome.{bad_script_line, bad_snapshot_line, cannot_read_line, too_long_line};

use crate::status::Status;
use arrayvec::ArrayVec;
use iop_ports::{Sink, send};
use iop_text::{append, append_number};

/// How many bytes the line of a bad script has at most: 17, the ten decimal digits of a number of
/// 32 bits, and a line feed.
const LONGEST_SCRIPT_LINE: usize = 28;

/// Writes the line of a refusal to the trace. Where the write fails the status stays.
pub(crate) fn refuse<T: Sink>(status: Status, line: &[u8], trace: &mut T) -> Status
    ensures status { result ≡ status }
    ensures sent { (whole : Bool) × Sends whole line.now (T.told trace.old) (T.told trace.new) }
{
    let _ = send(trace, line);
    status
}

/// Writes two texts to the trace: the second where the first is whole. Answers whether both are.
fn send_both<T: Sink>(trace: &mut T, first: &[u8], second: &[u8]) -> bool
    ensures { Sends result (first.now ++ second.now) (T.told trace.old) (T.told trace.new) }
{
    send(trace, first) && send(trace, second)
}

/// Writes a line that has a name in it: what stands before the name, the name, which may have any
/// length, and what stands behind it. Answers whether it is whole.
fn send_named<T: Sink>(trace: &mut T, before: &[u8], name: &str, behind: &[u8]) -> bool
    ensures { Sends result (before.now ++ name.now ++ behind.now)
        (T.told trace.old) (T.told trace.new) }
{
    send_both(trace, before, name.as_bytes()) && send(trace, behind)
}

/// Refuses a file that cannot be read.
pub(crate) fn refuse_unread<T: Sink>(name: &str, trace: &mut T) -> Status
    ensures status { result ≡ Status.CannotRead }
    ensures sent { (whole : Bool) × Sends whole (cannot_read_line name.now)
        (T.told trace.old) (T.told trace.new) }
{
    let _ = send_named(trace, b"iop: cannot read ", name, b"\n");
    Status::CannotRead
}

/// Refuses a file that is too long.
pub(crate) fn refuse_too_long<T: Sink>(name: &str, trace: &mut T) -> Status
    ensures status { result ≡ Status.TooLong }
    ensures sent { (whole : Bool) × Sends whole (too_long_line LONGEST_FILE name.now)
        (T.told trace.old) (T.told trace.new) }
{
    let _ = send_named(trace, b"iop: ", name, b" is over 4194304 bytes\n");
    Status::TooLong
}

/// Refuses a snapshot's file that is too long.
pub(crate) fn refuse_too_long_snapshot<T: Sink>(name: &str, trace: &mut T) -> Status
    ensures status { result ≡ Status.TooLong }
    ensures sent { (whole : Bool) × Sends whole (too_long_line (longest AsSnapshot) name.now)
        (T.told trace.old) (T.told trace.new) }
{
    let _ = send_named(trace, b"iop: ", name, b" is over 301989888 bytes\n");
    Status::TooLong
}

/// Refuses a file that is no snapshot.
pub(crate) fn refuse_bad_snapshot<T: Sink>(name: &str, trace: &mut T) -> Status
    ensures status { result ≡ Status.BadSnapshot }
    ensures sent { (whole : Bool) × Sends whole (bad_snapshot_line name.now)
        (T.told trace.old) (T.told trace.new) }
{
    let _ = send_named(trace, b"iop: bad snapshot ", name, b"\n");
    Status::BadSnapshot
}

/// Makes the line for a script whose first bad line has this number.
fn bad_script(number: u32) -> ArrayVec<u8, LONGEST_SCRIPT_LINE>
    ensures { result.items ≡ bad_script_line number }
{
    let mut line = ArrayVec::new();
    append(&mut line, b"iop: script line ");
    append_number(&mut line, number);
    append(&mut line, b"\n");
    line
}

/// Refuses a script whose first bad line has this number.
pub(crate) fn refuse_bad_script<T: Sink>(number: u32, trace: &mut T) -> Status
    ensures status { result ≡ Status.BadScript }
    ensures sent { (whole : Bool) × Sends whole (bad_script_line number)
        (T.told trace.old) (T.told trace.new) }
{
    refuse(Status::BadScript, &bad_script(number), trace)
}
