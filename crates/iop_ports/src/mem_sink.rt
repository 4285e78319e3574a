ghost use Rattle.std.specs.Prelude.{◌≡◌, ◌≤◌, false, Some, IfOk, is_err, []};
ghost use Rattle.iop_base.specs.Counts.{risen};
ghost use Rattle.iop_ports.specs.Calls.{is_listed, with_call};
ghost use Rattle.iop_ports.specs.MemSink.{empty_sink, write_fails, taken_count, after_write};
ghost use Rattle.iop_ports.specs.Sinks.{plain_sink};

use crate::calls::Calls;
use crate::ports::{Failed, Sink};
use std::alloc::{AllocError, Global};
use std::marker::Model;

/// A sink in memory with room for a number of bytes, of whose writes those with a listed number
/// fail.
///
/// Each write of a piece that is not empty is a call. It tells its bytes.
#[derive(Drop)]
pub struct MemSink {
    bytes: Vec<u8>,
    room: usize,
    calls: Calls,
}

impl Model for MemSink {
    ghost use Rattle.std.specs.Prelude.{◌≤◌, vec_len, vec_capacity};
    ghost use Rattle.iop_ports.specs.MemSink.{MemSink};

    ghost Value = { MemSink };

    ghost view = { λ s. record { bytes = s.bytes.items; room = s.room; calls = s.calls } };

    ghost invariant = { λ s. (vec_len s.bytes ≤ s.room) × (s.room ≤ vec_capacity s.bytes) };
}

impl MemSink {
    /// A sink with room for `room` bytes, for which it takes memory. `fail` lists the numbers of
    /// the calls that fail, from 1 on.
    pub fn new(alloc: Global, room: u32, fail: Vec<u64>) -> Result<Self, AllocError>
        ensures { IfOk result (λ sink. sink ≡ empty_sink room fail.items) }
    {
        let room = room as usize;
        Ok(MemSink {
            bytes: Vec::with_capacity(alloc, room)?,
            room,
            calls: Calls::new(fail),
        })
    }

    /// The bytes that it has taken.
    pub fn bytes(&self) -> &[u8]
        ensures { result.now ≡ self.now.bytes }
    {
        &self.bytes
    }

    /// How many calls were made; it stands still at 2^64 - 1.
    pub fn calls(&self) -> u64
        ensures { result ≡ self.now.calls.made }
    {
        self.calls.made()
    }

    /// How many calls failed; it stands still at 2^64 - 1.
    pub fn faults(&self) -> u64
        ensures { result ≡ self.now.calls.faults }
    {
        self.calls.faults()
    }

    /// Counts a call that is no write, and answers whether its number is listed.
    pub(crate) fn begin_call(&mut self) -> bool
        ensures listed { result ≡ is_listed self.old.calls }
        ensures counted { self.new ≡ record self.old { calls = with_call false self.old.calls } }
    {
        self.calls.begin()
    }

    /// Counts the failure of the call that was begun last.
    pub(crate) fn fail_call(&mut self)
        ensures counted { self.new ≡ record self.old {
          calls = record self.old.calls { faults = risen self.old.calls.faults };
        } }
        ensures never_falls { self.old.calls.faults ≤ self.new.calls.faults }
    {
        self.calls.fail();
    }

    /// Drops its bytes.
    pub(crate) fn clear(&mut self)
        ensures { self.new ≡ record self.old { bytes = [] } }
    {
        self.bytes.clear();
    }
}

impl Sink for MemSink {
    ghost told = { λ sink. plain_sink (Some sink.bytes) sink.calls.faults };

    /// Takes as much of the front of `piece` as the room that is left holds. It fails where the
    /// call's number is listed or no room is left.
    fn write(&mut self, piece: &[u8]) -> Result<usize, Failed>
        ensures fails { is_err result ≡ write_fails piece.now self.old }
        ensures count { IfOk result (λ n. n ≡ taken_count piece.now self.old) }
        ensures exact { self.new ≡ after_write piece.now self.old }
        ensures never_falls { self.old.calls.faults ≤ self.new.calls.faults }
    {
        if piece.is_empty() {
            return Ok(0);
        }
        let is_listed = self.calls.begin();
        let count = piece.len().min(self.room - self.bytes.len());
        if is_listed || count == 0 {
            self.calls.fail();
            return Err(Failed);
        }
        self.bytes.extend_from_slice(&piece[..count]).unwrap();
        Ok(count)
    }
}
