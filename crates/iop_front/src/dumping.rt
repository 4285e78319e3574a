//! The dump behind a run.

ghost use Rattle.std.specs.Prelude.{◌+◌, ◌<◌, ◌^◌, map, length};
ghost use Rattle.iop_base.specs.Piece.{Traced};
ghost use Rattle.iop_machine.specs.Standing.{StandsForWorld, IsSoundMachine};
ghost use Rattle.iop_machine.specs.World.{World};
ghost use Rattle.iop_trace.specs.Dumps.{dump_lines};
ghost use Rattle.iop_front.specs.Outcome.{TraceLeaves, dump_pieces};

use iop_machine::Machine;
use iop_options::DumpRange;
use iop_ports::{Sink, send};
use iop_trace::{BYTES_IN_LINE, dump_line};

/// Writes the lines of a dump of bytes that begin at an address. Answers whether all are whole.
fn send_dump<T: Sink>(from: u32, bytes: &[u8], trace: &mut T) -> bool
    requires { from + length bytes.now < 2 ^ 32 }
    ensures { TraceLeaves result (T.told trace.old) (T.told trace.new)
        (map Traced (dump_lines from bytes.now)) }
{
    let mut left = bytes;
    while !left.is_empty() {
        let at = from + (bytes.len() - left.len()) as u32;
        let (line, rest) = left.split_at(BYTES_IN_LINE.min(left.len()));
        if !send(trace, &dump_line(at, line)) {
            return false;
        }
        left = rest;
    }
    true
}

/// Writes the dump of a machine's memory, if one is asked for. Answers whether it is whole.
pub(crate) fn write_dump<T: Sink>(machine: &Machine, dump: Option<DumpRange>, trace: &mut T) -> bool
    requires { IsSoundMachine machine.now }
    ensures { (w : World) → StandsForWorld machine.now w
        → TraceLeaves result (T.told trace.old) (T.told trace.new)
        (dump_pieces w.iop.memory.ram dump) }
{
    let Some(range) = dump else {
        return true;
    };
    match machine.window(range.from, range.len) {
        Some(bytes) => send_dump(range.from, bytes, trace),
        // The range of a command lies in RAM; another has no lines.
        None => true,
    }
}
