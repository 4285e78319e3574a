ghost use Rattle.std.specs.Prelude.{◌≡◌, ◌≤◌, Some, IfOk, is_err, take};
ghost use Rattle.iop_ports.specs.MemSink.{empty_sink, write_fails, taken_count, after_write};
ghost use Rattle.iop_ports.specs.Sinks.{plain_sink};

use crate::mem_sink::MemSink;
use crate::ports::{Failed, Sink};
use std::alloc::{AllocError, Global};
use std::marker::Model;

/// A sink in memory that takes one byte at a time: a `MemSink` that is given the first byte of each
/// piece alone.
///
/// Each write of a piece that is not empty is a call. It tells its bytes.
#[derive(Drop)]
pub struct TrickleSink {
    sink: MemSink,
}

impl Model for TrickleSink {
    ghost use Rattle.iop_ports.specs.MemSink.{MemSink};

    ghost Value = { MemSink };

    ghost view = { λ s. s.sink };
}

impl TrickleSink {
    /// A sink with room for `room` bytes, for which it takes memory. `fail` lists the numbers of
    /// the calls that fail, from 1 on.
    pub fn new(alloc: Global, room: u32, fail: Vec<u64>) -> Result<Self, AllocError>
        ensures { IfOk result (λ sink. sink ≡ empty_sink room fail.items) }
    {
        Ok(TrickleSink {
            sink: MemSink::new(alloc, room, fail)?,
        })
    }

    /// The bytes that it has taken.
    pub fn bytes(&self) -> &[u8]
        ensures { result.now ≡ self.now.bytes }
    {
        self.sink.bytes()
    }

    /// How many calls were made; it stands still at 2^64 - 1.
    pub fn calls(&self) -> u64
        ensures { result ≡ self.now.calls.made }
    {
        self.sink.calls()
    }

    /// How many calls failed; it stands still at 2^64 - 1.
    pub fn faults(&self) -> u64
        ensures { result ≡ self.now.calls.faults }
    {
        self.sink.faults()
    }
}

impl Sink for TrickleSink {
    ghost told = { λ sink. plain_sink (Some sink.bytes) sink.calls.faults };

    /// Takes the first byte of `piece`. It fails where the call's number is listed or no room is
    /// left.
    fn write(&mut self, piece: &[u8]) -> Result<usize, Failed>
        ensures fails { is_err result ≡ write_fails (take 1 piece.now) self.old }
        ensures count { IfOk result (λ n. n ≡ taken_count (take 1 piece.now) self.old) }
        ensures exact { self.new ≡ after_write (take 1 piece.now) self.old }
        ensures never_falls { self.old.calls.faults ≤ self.new.calls.faults }
    {
        if piece.is_empty() {
            return Ok(0);
        }
        self.sink.write(&piece[..1])
    }
}
