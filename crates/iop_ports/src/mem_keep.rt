ghost use Rattle.std.specs.Prelude.{◌≡◌, ◌≤◌, IfOk, is_err};
ghost use Rattle.std.specs.Option.{option_copied};
ghost use Rattle.iop_ports.specs.MemSink.{taken_count};
ghost use Rattle.iop_ports.specs.MemKeep.{empty_keep, create_fails, after_create, write_fails, after_write, told_of};

use crate::mem_sink::MemSink;
use crate::ports::{Failed, Keep, Sink};
use arrayvec::ArrayString;
use std::alloc::{AllocError, Global};
use std::marker::Model;

/// How many bytes the name of a file in memory has at most.
pub(crate) const LONGEST_NAME: usize = 255;

/// A keep in memory: a `MemSink` that takes bytes while the last creation is one that succeeded.
///
/// Each creation, and each write of a piece that is not empty, is a call. It tells everything of
/// itself, but for a name that is too long.
#[derive(Drop)]
pub struct MemKeep {
    sink: MemSink,
    name: Option<ArrayString<LONGEST_NAME>>,
    is_open: bool,
    creates: u64,
    faults_before: u64,
}

impl Model for MemKeep {
    ghost use Rattle.std.specs.Prelude.{option_map};
    ghost use Rattle.iop_ports.specs.MemKeep.{MemKeep};

    ghost Value = { MemKeep };

    ghost view = { λ k. record {
      sink = k.sink;
      name = option_map (λ name. name.bytes) k.name;
      is_open = k.is_open;
      creates = k.creates;
      faults_before = k.faults_before;
    } };
}

impl MemKeep {
    /// A keep with room for `room` bytes, for which it takes memory. `fail` lists the numbers of
    /// the calls that fail, from 1 on.
    pub fn new(alloc: Global, room: u32, fail: Vec<u64>) -> Result<Self, AllocError>
        ensures { IfOk result (λ keep. keep ≡ empty_keep room fail.items) }
    {
        Ok(MemKeep {
            sink: MemSink::new(alloc, room, fail)?,
            name: None,
            is_open: false,
            creates: 0,
            faults_before: 0,
        })
    }

    /// The bytes that it has taken since the last creation that succeeded.
    pub fn bytes(&self) -> &[u8]
        ensures { result.now ≡ self.now.sink.bytes }
    {
        self.sink.bytes()
    }

    /// How many calls were made, creations and writes; it stands still at 2^64 - 1.
    pub fn calls(&self) -> u64
        ensures { result ≡ self.now.sink.calls.made }
    {
        self.sink.calls()
    }

    /// How many of them failed; it stands still at 2^64 - 1.
    pub fn faults(&self) -> u64
        ensures { result ≡ self.now.sink.calls.faults }
    {
        self.sink.faults()
    }

    /// The name last asked for: none before any creation, and after one of a name that is longer
    /// than 255 bytes.
    pub fn name(&self) -> Option<&str>
        ensures { option_copied result ≡ self.now.name }
    {
        match &self.name {
            Some(name) => Some(name.as_str()),
            None => None,
        }
    }

    /// How many creations were asked for, failed ones among them; it stands still at 2^64 - 1.
    pub fn creates(&self) -> u64
        ensures { result ≡ self.now.creates }
    {
        self.creates
    }

    /// The count of faults that stood before the last creation, and 0 before any.
    pub fn faults_before(&self) -> u64
        ensures { result ≡ self.now.faults_before }
    {
        self.faults_before
    }
}

impl Sink for MemKeep {
    ghost told = { λ keep. told_of keep };

    /// Takes as much of the front of `piece` as the room that is left holds. It fails where the
    /// call's number is listed, no room is left, the last creation failed or none was asked for.
    fn write(&mut self, piece: &[u8]) -> Result<usize, Failed>
        ensures fails { is_err result ≡ write_fails piece.now self.old }
        ensures count { IfOk result (λ n. n ≡ taken_count piece.now self.old.sink) }
        ensures exact { self.new ≡ after_write piece.now self.old }
        ensures never_falls { self.old.sink.calls.faults ≤ self.new.sink.calls.faults }
    {
        if self.is_open {
            return self.sink.write(piece);
        }
        if piece.is_empty() {
            return Ok(0);
        }
        self.sink.begin_call();
        self.sink.fail_call();
        Err(Failed)
    }
}

impl Keep for MemKeep {
    /// Drops the bytes. It fails where the call's number is listed or the name is longer than 255
    /// bytes, and then it leaves them.
    fn create(&mut self, name: &str) -> Result<(), Failed>
        ensures fails { is_err result ≡ create_fails name.now self.old }
        ensures exact { self.new ≡ after_create name.now self.old }
        ensures never_falls { self.old.sink.calls.faults ≤ self.new.sink.calls.faults }
    {
        self.faults_before = self.sink.faults();
        self.creates = self.creates.saturating_add(1);
        self.name = ArrayString::from(name).ok();
        let is_listed = self.sink.begin_call();
        self.is_open = !is_listed && self.name.is_some();
        if !self.is_open {
            self.sink.fail_call();
            return Err(Failed);
        }
        self.sink.clear();
        Ok(())
    }
}
