//! Whole pieces into a sink.

ghost use Rattle.iop_ports.specs.Sinks.{Sends};

use crate::ports::Sink;

/// Writes a piece until it is whole or a write fails, and answers whether it is whole. An empty
/// piece is not written at all.
pub fn send<S: Sink>(sink: &mut S, piece: &[u8]) -> bool
    ensures { Sends result piece.now (S.told sink.old) (S.told sink.new) }
{
    let mut at = 0;
    while at < piece.len() {
        match sink.write(&piece[at..]) {
            Ok(n) => at += n,
            Err(_) => return false,
        }
    }
    true
}
