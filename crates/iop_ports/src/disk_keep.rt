ghost use Rattle.std.specs.Prelude.{◌≡◌, ◌≤◌, ◌<◌, None, IfOk, OnOk, OnErr, IsOk, IsErr, IsNone, is_some, is_ok, length};
ghost use Rattle.iop_base.specs.Counts.{risen, HasCause};
ghost use Rattle.iop_ports.specs.Sinks.{plain_sink};

use crate::ports::{Failed, Keep, Sink};
use crate::stream_sink::write_some;
use std::fs;
use std::rt::Files as HostFiles;

/// Files of the host, the last of which is written.
///
/// It tells nothing of itself: what a file holds is the host's.
#[derive(Drop)]
pub struct DiskKeep<R: HostFiles + Drop> {
    rt: R,
    file: Option<R::File>,
    faults: u64,
}

impl<R: HostFiles + Drop> DiskKeep<R> {
    /// The files that the runtime reaches. None is open.
    pub fn new(rt: R) -> Self
        ensures faults { result.faults ≡ 0 }
        ensures none_open { IsNone result.file }
    {
        DiskKeep {
            rt,
            file: None,
            faults: 0,
        }
    }

    /// Counts an error of the host.
    fn fault(&mut self) -> Failed
        ensures counted { self.new ≡ record self.old { faults = risen self.old.faults } }
        ensures never_falls { self.old.faults ≤ self.new.faults }
    {
        self.faults = self.faults.saturating_add(1);
        Failed
    }
}

impl<R: HostFiles + Drop> Sink for DiskKeep<R> {
    ghost told = { λ keep. plain_sink None keep.faults };

    /// Writes once to the file that was created last. It fails with each error of the host, where
    /// the host takes nothing, and where the last creation failed or none was asked for. The write
    /// of an empty piece does not reach the host.
    fn write(&mut self, piece: &[u8]) -> Result<usize, Failed>
        ensures within { IfOk result (λ n. n ≤ length piece.now) }
        ensures some { IfOk result (λ n. 0 < length piece.now → 0 < n) }
        ensures open { is_some self.new.file ≡ is_some self.old.file }
        ensures none_open { IsNone self.old.file → 0 < length piece.now → IsErr result }
        ensures empty { length piece.now ≡ 0 → IsOk result }
        ensures no_fault { OnOk result (self.new.faults ≡ self.old.faults) }
        ensures cause { OnErr result (HasCause self.old.faults self.new.faults) }
        ensures never_falls { self.old.faults ≤ self.new.faults }
    {
        if piece.is_empty() {
            return Ok(0);
        }
        let Some(file) = &mut self.file else {
            return Err(self.fault());
        };
        match write_some(file, piece) {
            Some(count) => Ok(count),
            None => Err(self.fault()),
        }
    }
}

impl<R: HostFiles + Drop> Keep for DiskKeep<R> {
    /// Creates the file of this name, given as it is, or empties the one that is there. It fails
    /// with each error of the host, and then no file is open.
    fn create(&mut self, name: &str) -> Result<(), Failed>
        ensures open { is_some self.new.file ≡ is_ok result }
        ensures no_fault { OnOk result (self.new.faults ≡ self.old.faults) }
        ensures cause { OnErr result (HasCause self.old.faults self.new.faults) }
        ensures never_falls { self.old.faults ≤ self.new.faults }
    {
        self.file = None;
        match fs::create(&self.rt, name) {
            Ok(file) => {
                self.file = Some(file);
                Ok(())
            }
            Err(_) => Err(self.fault()),
        }
    }
}
