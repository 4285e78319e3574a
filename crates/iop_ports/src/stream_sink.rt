ghost use Rattle.std.specs.Prelude.{◌≡◌, ◌<◌, ◌≤◌, None, IfSome, length};
ghost use Rattle.iop_ports.specs.Sinks.{plain_sink};

use crate::ports::{Failed, Sink};
use std::io::Write;

/// A stream of the host, as its standard output.
///
/// It tells nothing of itself, and does not flush: the writer is one that keeps no bytes back.
#[derive(Drop)]
pub struct StreamSink<W: Write + Drop> {
    writer: W,
    faults: u64,
}

impl<W: Write + Drop> StreamSink<W> {
    /// A sink that gives its bytes to the writer.
    pub fn new(writer: W) -> Self
        ensures writer { result.writer ≡ writer }
        ensures faults { result.faults ≡ 0 }
    {
        StreamSink { writer, faults: 0 }
    }
}

impl<W: Write + Drop> Sink for StreamSink<W> {
    ghost told = { λ sink. plain_sink None sink.faults };

    /// Writes once. It fails with each error of the writer, and where the writer takes nothing. The
    /// write of an empty piece does not reach the writer.
    fn write(&mut self, piece: &[u8]) -> Result<usize, Failed> {
        if piece.is_empty() {
            return Ok(0);
        }
        match write_some(&mut self.writer, piece) {
            Some(count) => Ok(count),
            None => {
                self.faults = self.faults.saturating_add(1);
                Err(Failed)
            }
        }
    }
}

/// Writes once and answers how many bytes were taken: none where the writer fails or takes nothing.
pub(crate) fn write_some<W: Write>(writer: &mut W, piece: &[u8]) -> Option<usize>
    ensures { IfSome result (λ n. (0 < n) × (n ≤ length piece.now)) }
{
    match writer.write(piece) {
        Ok(count) if count > 0 => Some(count),
        _ => None,
    }
}
