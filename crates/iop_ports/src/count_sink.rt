ghost use Rattle.std.specs.Prelude.{◌≡◌, ◌+◌, ◌-◌, ◌^◌, None, Ok, length, min};
ghost use Rattle.iop_ports.specs.Sinks.{plain_sink};

use crate::ports::{Failed, Sink};

/// A sink that counts the bytes that it is given and keeps none.
#[derive(Debug, Drop)]
pub struct CountSink {
    /// How many bytes it was given; it stands still at 2^64 - 1.
    pub count: u64,
}

impl CountSink {
    /// A sink that has counted nothing.
    pub fn new() -> Self
        ensures { result.count ≡ 0 }
    {
        CountSink { count: 0 }
    }
}

impl Sink for CountSink {
    ghost told = { λ _. plain_sink None 0 };

    /// Counts the whole piece. It never fails.
    fn write(&mut self, piece: &[u8]) -> Result<usize, Failed>
        ensures whole { result ≡ Ok (length piece.now) }
        ensures count { self.new.count ≡ min (self.old.count + length piece.now) (2 ^ 64 - 1) }
    {
        self.count = self.count.saturating_add(piece.len() as u64);
        Ok(piece.len())
    }
}
