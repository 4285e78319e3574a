ghost use Rattle.std.specs.Prelude.{◌≡◌, ◌≤◌, None, Ok, IfOk, OnOk, OnErr, IsNone, is_some, is_ok, length};
ghost use Rattle.iop_base.specs.Counts.{risen, HasCause};

use crate::ports::{Failed, Files};
use std::fs;
use std::io::Read;
use std::rt::Files as HostFiles;

/// The files of the host.
///
/// They tell nothing of themselves: what a file holds is the host's.
#[derive(Drop)]
pub struct DiskFiles<R: HostFiles + Drop> {
    rt: R,
    file: Option<R::File>,
    faults: u64,
}

impl<R: HostFiles + Drop> DiskFiles<R> {
    /// The files that the runtime reaches. None is open.
    pub fn new(rt: R) -> Self
        ensures faults { result.faults ≡ 0 }
        ensures none_open { IsNone result.file }
    {
        DiskFiles {
            rt,
            file: None,
            faults: 0,
        }
    }

    /// Counts an error of the host.
    fn fault(&mut self) -> Failed
        ensures counted { self.new ≡ record self.old { faults = risen self.old.faults } }
        ensures never_falls { self.old.faults ≤ self.new.faults }
    {
        self.faults = self.faults.saturating_add(1);
        Failed
    }
}

impl<R: HostFiles + Drop> Files for DiskFiles<R> {
    ghost told = { λ _. None };

    ghost faults = { λ files. files.faults };

    /// Opens the file of this name, given as it is, for reading. It fails with each error of the
    /// host, and then no file is open.
    fn open_file(&mut self, name: &str) -> Result<(), Failed>
        ensures open { is_some self.new.file ≡ is_ok result }
        ensures no_fault { OnOk result (self.new.faults ≡ self.old.faults) }
        ensures cause { OnErr result (HasCause self.old.faults self.new.faults) }
        ensures never_falls { self.old.faults ≤ self.new.faults }
    {
        self.file = None;
        match fs::open(&self.rt, name) {
            Ok(file) => {
                self.file = Some(file);
                Ok(())
            }
            Err(_) => Err(self.fault()),
        }
    }

    /// Reads the next bytes of the open file into the front of `buf` and answers how many: 0 where
    /// no file is open. It fails with each error of the host.
    fn read(&mut self, buf: &mut [u8]) -> Result<usize, Failed>
        ensures within { IfOk result (λ n. n ≤ length buf.old) }
        ensures none_open { IsNone self.old.file → result ≡ Ok 0 }
        ensures no_fault { OnOk result (self.new.faults ≡ self.old.faults) }
        ensures cause { OnErr result (HasCause self.old.faults self.new.faults) }
        ensures never_falls { self.old.faults ≤ self.new.faults }
    {
        let Some(file) = &mut self.file else {
            return Ok(0);
        };
        match file.read(buf) {
            Ok(count) => Ok(count),
            Err(_) => Err(self.fault()),
        }
    }
}
