ghost use Rattle.std.specs.Prelude.{◌≡◌, ◌++◌, Some, IfOk, IsOk, IsOkAnd, OnOk, OnErr, length, take, drop};
ghost use Rattle.iop_ports.specs.Shelf.{empty_shelf, after_add, after_open, after_read, read_count};
ghost use Rattle.iop_ports.specs.SureFiles.{told_of};

use crate::ports::{Failed, Files};
use crate::shelf::Shelf;
use std::alloc::{AllocError, Global};
use std::marker::Model;

/// Files in memory that never fail: a name that was not added is an empty file.
///
/// They do not tell the name last asked for, and tell everything else of themselves.
#[derive(Drop)]
pub struct SureFiles {
    shelf: Shelf,
}

impl Model for SureFiles {
    ghost use Rattle.iop_ports.specs.Shelf.{Shelf};

    ghost Value = { Shelf };

    ghost view = { λ f. f.shelf };
}

impl SureFiles {
    /// No files.
    pub fn new(alloc: Global) -> Self
        ensures { result ≡ empty_shelf }
    {
        SureFiles {
            shelf: Shelf::new(alloc),
        }
    }

    /// Adds a file, or replaces the one of the same name, and closes the open file. Where no memory
    /// is left the files are unchanged.
    pub fn add(&mut self, name: &str, bytes: Vec<u8>) -> Result<(), AllocError>
        ensures added { OnOk result (self.new ≡ after_add name.now bytes.items self.old) }
        ensures unchanged { OnErr result (self.new ≡ self.old) }
    {
        self.shelf.add(name, bytes)
    }
}

impl Files for SureFiles {
    ghost told = { λ files. Some (told_of files) };

    ghost faults = { λ _. 0 };

    /// Opens the file of this name.
    fn open_file(&mut self, name: &str) -> Result<(), Failed>
        ensures succeeds { IsOk result }
        ensures exact { self.new ≡ after_open name.now self.old }
    {
        self.shelf.open(name);
        Ok(())
    }

    /// Reads the next bytes of the open file into the front of `buf`.
    fn read(&mut self, buf: &mut [u8]) -> Result<usize, Failed>
        ensures count { IsOkAnd result (λ n. n ≡ read_count (length buf.old) self.old) }
        ensures filled { IfOk result (λ n. buf.new ≡ take n self.old.left ++ drop n buf.old) }
        ensures exact { self.new ≡ after_read (read_count (length buf.old) self.old) self.old }
    {
        Ok(self.shelf.read(buf))
    }
}
