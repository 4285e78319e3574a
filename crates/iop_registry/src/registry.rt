ghost use Rattle.std.specs.Prelude.{◌≡◌, ◌<◌, if◌then◌else◌, IfOk, IfSome, [], length, position};
ghost use Rattle.iop_registry.specs.Entries.{is_library, has_table, lies_in, table_of, library_of, register, release, drop_range, IsTable, IsRegistry};
ghost use Rattle.iop_registry.specs.KernelLibraries.{kernel_table, kernel_library, kernel_libraries};
ghost use Rattle.iop_registry.specs.Restoring.{has_place, may_follow, with_last};

use iop_base::{Code, KERNEL_LIBRARIES};
use std::alloc::{AllocError, Global};
use std::marker::Model;

/// The most libraries that can be registered. It is this project's own profile.
pub const MOST_LIBRARIES: usize = 263;

/// The physical place of the export table of the kernel's first library.
pub const KERNEL_TABLES_AT: u32 = 0x1000;

/// The bytes from the export table of one of the kernel's libraries to that of the next.
pub const KERNEL_TABLE_LEN: u32 = 0x200;

/// How many of the kernel's libraries have their export tables from `KERNEL_TABLES_AT` on.
pub const FIRST_LIBRARIES: u32 = 8;

/// The physical place of the export table of the kernel's first library behind these.
pub const LATER_TABLES_AT: u32 = 0x200;

/// Tells the physical place of the export table of a library of the kernel, by its number.
fn kernel_table(number: u32) -> u32
    requires { number < length KERNEL_LIBRARIES }
    ensures { result ≡ kernel_table number }
{
    if number < FIRST_LIBRARIES {
        KERNEL_TABLES_AT + number * KERNEL_TABLE_LEN
    } else {
        LATER_TABLES_AT + (number - FIRST_LIBRARIES) * KERNEL_TABLE_LEN
    }
}

/// A registered library.
#[derive(Clone, Copy, Debug, PartialEq, Eq, Drop)]
pub struct Entry {
    /// Its name, filled up with zeros.
    pub name: [u8; 8],
    /// Its major version.
    pub major: u8,
    /// The physical place of its export table, a multiple of 4 below 2^29.
    pub table: u32,
}

impl Entry {
    /// Makes the entry of a library of the kernel, by its number and its name.
    fn of_kernel(number: u32, name: [u8; 8]) -> Self
        requires { number < length KERNEL_LIBRARIES }
        ensures { result ≡ kernel_library (number, name) }
    {
        Entry {
            name,
            major: 1,
            table: kernel_table(number),
        }
    }

    /// Tells whether it is the library of this name and major version.
    fn is_library(&self, name: &[u8; 8], major: u8) -> bool
        ensures { result ≡ is_library name.now major self.now }
    {
        self.name == *name && self.major == major
    }

    /// Tells whether its table lies in the range of `len` bytes from `from` on.
    fn lies_in(&self, from: u32, len: u32) -> bool
        ensures { result ≡ lies_in from len self.now }
    {
        from <= self.table && self.table - from < len
    }

    /// Tells whether its table is a multiple of 4 below 2^29.
    fn has_place(&self) -> bool
        ensures { result ≡ has_place self.now }
    {
        self.table < 0x2000_0000 && self.table % 4 == 0
    }
}

/// Finds the index of the first entry with this table.
fn index_of_table(entries: &[Entry], table: u32) -> Option<usize>
    ensures { result ≡ position (has_table table) entries.now }
{
    entries.iter().position(|entry| entry.table == table)
}

/// The registered libraries, in order of their registration: for each name and major version, the
/// place of the library's export table.
///
/// No two have the same name and major version, and at most `MOST_LIBRARIES` can stand. Several may
/// have the same table. A name has eight bytes; tables are physical places, multiples of 4 below
/// 2^29.
#[derive(Drop)]
pub struct Registry {
    entries: Vec<Entry>,
}

impl Model for Registry {
    ghost use Rattle.std.specs.Prelude.{List, ◌≤◌, vec_capacity};
    ghost use Rattle.iop_registry.specs.declared.registry.Entry.{Entry};
    ghost use Rattle.iop_registry.specs.declared.registry.TheConstants.{MOST_LIBRARIES};

    ghost Value = { List Entry };

    ghost use Rattle.iop_registry.specs.Entries.{IsRegistry};

    ghost view = { λ r. r.entries.items };

    ghost invariant = { λ r. IsRegistry r.entries.items
        × (MOST_LIBRARIES ≤ vec_capacity r.entries) };
}

impl Registry {
    /// Makes a registry of the libraries of the kernel, in their order. It takes all the
    /// memory that the registry will need; `AllocError` where the host has less.
    pub fn new(alloc: Global) -> Result<Self, AllocError>
        ensures libraries { IfOk result (λ registry. registry ≡ kernel_libraries) }
        ensures sound { IfOk result IsRegistry }
    {
        let mut entries = Vec::with_capacity(alloc, MOST_LIBRARIES)?;
        entries.extend_from_slice(&[
            Entry::of_kernel(0, KERNEL_LIBRARIES[0]),
            Entry::of_kernel(1, KERNEL_LIBRARIES[1]),
            Entry::of_kernel(2, KERNEL_LIBRARIES[2]),
            Entry::of_kernel(3, KERNEL_LIBRARIES[3]),
            Entry::of_kernel(4, KERNEL_LIBRARIES[4]),
            Entry::of_kernel(5, KERNEL_LIBRARIES[5]),
            Entry::of_kernel(6, KERNEL_LIBRARIES[6]),
            Entry::of_kernel(7, KERNEL_LIBRARIES[7]),
            Entry::of_kernel(8, KERNEL_LIBRARIES[8]),
            Entry::of_kernel(9, KERNEL_LIBRARIES[9]),
            Entry::of_kernel(10, KERNEL_LIBRARIES[10]),
        ])?;
        Ok(Registry { entries })
    }

    /// Makes a registry of no library. It takes all the memory that the registry will need;
    /// `AllocError` where the host has less.
    pub fn empty(alloc: Global) -> Result<Self, AllocError>
        ensures { IfOk result (λ registry. registry ≡ []) }
    {
        Ok(Registry {
            entries: Vec::with_capacity(alloc, MOST_LIBRARIES)?,
        })
    }

    /// Lends the libraries in order of their registration.
    pub fn entries(&self) -> &[Entry]
        ensures entries { result.now ≡ self.now }
        ensures sound { IsRegistry self.now }
    {
        &self.entries
    }

    /// Tells whether a library may stand behind all others.
    fn may_follow(&self, entry: Entry) -> bool
        ensures { result ≡ may_follow self.now entry }
    {
        entry.has_place()
            && self.entries.len() < MOST_LIBRARIES
            && self.find(entry.name, entry.major).is_none()
    }

    /// Puts a library back behind the others. False, and no change, exactly where `MOST_LIBRARIES`
    /// stand, one of its name and major version does, or its table is not a multiple of 4 below
    /// 2^29.
    pub fn put_back(&mut self, entry: Entry) -> bool
        ensures may { result ≡ may_follow self.old entry }
        ensures put { self.new ≡ if result then with_last self.old entry else self.old }
        ensures sound { IsRegistry self.new }
    {
        let may = self.may_follow(entry);
        if may {
            self.entries.push_reserved(entry);
        }
        may
    }

    /// Registers a library behind the others, by its name, its major version and the place of its
    /// export table, a multiple of 4 below 2^29.
    ///
    /// `LIBRARY_FOUND` exactly where one of this name and major version stands, else `NO_MEMORY`
    /// exactly where `MOST_LIBRARIES` stand; nothing changes then. Else `OK`.
    pub fn register(&mut self, name: [u8; 8], major: u8, table: u32) -> Code
        requires { IsTable table }
        ensures code { result ≡ (register self.old name major table).0 }
        ensures entries { self.new ≡ (register self.old name major table).1 }
        ensures was_sound { IsRegistry self.old }
        ensures sound { IsRegistry self.new }
    {
        if self.find(name, major).is_some() {
            return Code::LIBRARY_FOUND;
        }
        if self.entries.len() >= MOST_LIBRARIES {
            return Code::NO_MEMORY;
        }
        self.entries.push_reserved(Entry { name, major, table });
        Code::OK
    }

    /// Takes out the first library with this table, and no other. `LIBRARY_NOT_FOUND` exactly where
    /// none has it; nothing changes then. Else `OK`.
    pub fn release(&mut self, table: u32) -> Code
        ensures code { result ≡ (release self.old table).0 }
        ensures entries { self.new ≡ (release self.old table).1 }
        ensures was_sound { IsRegistry self.old }
        ensures sound { IsRegistry self.new }
    {
        match index_of_table(&self.entries, table) {
            Some(index) => {
                self.entries.remove(index);
                Code::OK
            }
            None => Code::LIBRARY_NOT_FOUND,
        }
    }

    /// Finds the table of the library of this name and major version. None exactly where none
    /// stands.
    pub fn find(&self, name: [u8; 8], major: u8) -> Option<u32>
        ensures table { result ≡ table_of self.now name major }
        ensures place { IfSome result IsTable }
        ensures sound { IsRegistry self.now }
    {
        let entry = self
            .entries
            .iter()
            .find(|entry| entry.is_library(&name, major))?;
        Some(entry.table)
    }

    /// Finds the name and the major version of the first library with this table. None exactly
    /// where none has it.
    pub fn by_table(&self, table: u32) -> Option<([u8; 8], u8)>
        ensures library { result ≡ library_of self.now table }
        ensures sound { IsRegistry self.now }
    {
        let entry = self.entries.iter().find(|entry| entry.table == table)?;
        Some((entry.name, entry.major))
    }

    /// Takes out every library whose table lies in the range of `len` bytes from `from` on. The
    /// range may pass 2^32.
    pub fn drop_range(&mut self, from: u32, len: u32)
        ensures entries { self.new ≡ drop_range self.old from len }
        ensures was_sound { IsRegistry self.old }
        ensures sound { IsRegistry self.new }
    {
        self.entries.retain(|entry| !entry.lies_in(from, len));
    }
}
