ghost use Rattle.std.specs.Prelude.{◌≡◌, ◌≤◌, ◌++◌, Some, IfOk, OnOk, OnErr, IsErr, is_err, length, take, drop};
ghost use Rattle.iop_ports.specs.Calls.{is_listed};
ghost use Rattle.iop_ports.specs.Shelf.{read_count};
ghost use Rattle.iop_ports.specs.MemFiles.{no_files, with_file, opening_fails, after_open, after_failed_opening, after_read, told_of};

use crate::calls::Calls;
use crate::ports::{Failed, Files};
use crate::shelf::Shelf;
use std::alloc::{AllocError, Global};
use std::marker::Model;

/// Files in memory, of whose calls those with a listed number fail.
///
/// Each opening and each read is a call. They tell everything of themselves.
#[derive(Drop)]
pub struct MemFiles {
    shelf: Shelf,
    calls: Calls,
    strays: u64,
    faults_before: u64,
}

impl Model for MemFiles {
    ghost use Rattle.iop_ports.specs.MemFiles.{MemFiles};

    ghost Value = { MemFiles };

    ghost view = { λ f. record {
      shelf = f.shelf;
      calls = f.calls;
      strays = f.strays;
      faults_before = f.faults_before;
    } };
}

impl MemFiles {
    /// No files. `fail` lists the numbers of the calls that fail, from 1 on.
    pub fn new(alloc: Global, fail: Vec<u64>) -> Self
        ensures { result ≡ no_files fail.items }
    {
        MemFiles {
            shelf: Shelf::new(alloc),
            calls: Calls::new(fail),
            strays: 0,
            faults_before: 0,
        }
    }

    /// Adds a file, or replaces the one of the same name, and closes the open file. Where no memory
    /// is left the files are unchanged.
    pub fn add(&mut self, name: &str, bytes: Vec<u8>) -> Result<(), AllocError>
        ensures added { OnOk result (self.new ≡ with_file name.now bytes.items self.old) }
        ensures unchanged { OnErr result (self.new ≡ self.old) }
    {
        self.shelf.add(name, bytes)
    }

    /// How many calls were made; it stands still at 2^64 - 1.
    pub fn calls(&self) -> u64
        ensures { result ≡ self.now.calls.made }
    {
        self.calls.made()
    }

    /// How many calls failed; it stands still at 2^64 - 1.
    pub fn faults(&self) -> u64
        ensures { result ≡ self.now.calls.faults }
    {
        self.calls.faults()
    }

    /// How many openings named a file that is not there; it stands still at 2^64 - 1.
    pub fn strays(&self) -> u64
        ensures { result ≡ self.now.strays }
    {
        self.strays
    }

    /// Counts the fault of an opening, which leaves no file open.
    fn fail_opening(&mut self) -> Result<(), Failed>
        ensures fails { IsErr result }
        ensures exact { self.new ≡ after_failed_opening self.old }
        ensures never_falls { self.old.calls.faults ≤ self.new.calls.faults }
    {
        self.shelf.close();
        self.calls.fail();
        Err(Failed)
    }
}

impl Files for MemFiles {
    ghost told = { λ files. Some (told_of files) };

    ghost faults = { λ files. files.calls.faults };

    /// Opens the file of this name. It fails where the call's number is listed or no file has the
    /// name.
    fn open_file(&mut self, name: &str) -> Result<(), Failed>
        ensures fails { is_err result ≡ opening_fails name.now self.old }
        ensures exact { self.new ≡ after_open name.now self.old }
        ensures never_falls { self.old.calls.faults ≤ self.new.calls.faults }
    {
        self.faults_before = self.calls.faults();
        let is_listed = self.calls.begin();
        if !self.shelf.open(name) {
            self.strays = self.strays.saturating_add(1);
            return self.fail_opening();
        }
        if is_listed {
            return self.fail_opening();
        }
        Ok(())
    }

    /// Reads the next bytes of the open file into the front of `buf`. It fails where the call's
    /// number is listed.
    fn read(&mut self, buf: &mut [u8]) -> Result<usize, Failed>
        ensures fails { is_err result ≡ is_listed self.old.calls }
        ensures exact { self.new ≡ after_read (length buf.old) self.old }
        ensures count { IfOk result (λ n. n ≡ read_count (length buf.old) self.old.shelf) }
        ensures filled { IfOk result (λ n. buf.new ≡ take n self.old.shelf.left ++ drop n buf.old) }
        ensures untouched { OnErr result (buf.new ≡ buf.old) }
        ensures never_falls { self.old.calls.faults ≤ self.new.calls.faults }
    {
        if self.calls.begin() {
            self.calls.fail();
            return Err(Failed);
        }
        Ok(self.shelf.read(buf))
    }
}
