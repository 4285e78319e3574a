ghost use Rattle.std.specs.Prelude.{◌≡◌, ◌++◌, IfOk, OnOk, OnErr, take, drop, length, string_bytes};
ghost use Rattle.std.specs.List.{position};
ghost use Rattle.std.specs.Str.{bytes_eq};
ghost use Rattle.iop_ports.specs.Shelf.{with_file, empty_shelf, after_add, is_there, after_open, after_close, read_count, after_read};

use std::alloc::{AllocError, Global};
use std::marker::Model;

/// A file with its name.
#[derive(Drop)]
struct NamedFile {
    name: String,
    bytes: Vec<u8>,
}

impl Model for NamedFile {
    ghost use Rattle.std.specs.Prelude.{ℕ, List, string_bytes};

    ghost Value = { List ℕ × List ℕ };

    ghost view = { λ f. (string_bytes f.name, f.bytes.items) };
}

impl NamedFile {
    fn new(alloc: Global, name: &str, bytes: Vec<u8>) -> Result<Self, AllocError>
        ensures { IfOk result (λ file. file ≡ (name.now, bytes.items)) }
    {
        Ok(NamedFile {
            name: String::from_str(alloc, name)?,
            bytes,
        })
    }

    fn has_name(&self, name: &str) -> bool
        ensures { result ≡ bytes_eq self.now.0 name.now }
    {
        self.name.as_str() == name
    }

    fn bytes(&self) -> &[u8]
        ensures { result.now ≡ self.now.1 }
    {
        &self.bytes
    }

    fn replace(&mut self, bytes: Vec<u8>)
        ensures { self.new ≡ (self.old.0, bytes.items) }
    {
        self.bytes = bytes;
    }
}

/// The index of the first file with this name.
fn index_of(files: &[NamedFile], name: &str) -> Option<usize>
    ensures { result ≡ position (λ file. bytes_eq file.0 name.now) files.now }
{
    files.iter().position(|file| file.has_name(name))
}

/// Replaces the bytes of the file with this name, or adds a file. On an error the files are
/// unchanged.
fn add_file(files: &mut Vec<NamedFile>, name: &str, bytes: Vec<u8>) -> Result<(), AllocError>
    ensures added { OnOk result (files.new.items ≡ with_file files.old.items name.now bytes.items) }
    ensures unchanged { OnErr result (files.new.items ≡ files.old.items) }
{
    match index_of(files, name) {
        Some(index) => files[index].replace(bytes),
        None => {
            let file = NamedFile::new(*files.allocator(), name, bytes)?;
            files.push(file)?;
        }
    }
    Ok(())
}

/// Where the open file is read next.
#[derive(Clone, Copy)]
struct Place {
    file: usize,
    position: usize,
}

/// Named files, one of which can be open.
#[derive(Drop)]
pub struct Shelf {
    files: Vec<NamedFile>,
    /// The index of the file last asked for.
    asked: Option<usize>,
    /// None where no file is open.
    place: Option<Place>,
}

impl Model for Shelf {
    ghost use Rattle.iop_ports.specs.Shelf.{Shelf};

    ghost Value = { Shelf };

    ghost use Rattle.iop_ports.specs.Places.{name_at, left_at, AreInside};

    ghost view = { λ s. record {
      files = s.files.items;
      asked = name_at s.files.items s.asked;
      left = left_at s.files.items s.place;
    } };

    ghost invariant = { λ s. AreInside s.files.items s.asked s.place };
}

impl Shelf {
    /// No files.
    pub fn new(alloc: Global) -> Self
        ensures { result ≡ empty_shelf }
    {
        Shelf {
            files: Vec::new(alloc),
            asked: None,
            place: None,
        }
    }

    /// Adds a file or replaces the one of the same name, and closes the open file. On an error the
    /// shelf is unchanged.
    pub fn add(&mut self, name: &str, bytes: Vec<u8>) -> Result<(), AllocError>
        ensures added { OnOk result (self.new ≡ after_add name.now bytes.items self.old) }
        ensures unchanged { OnErr result (self.new ≡ self.old) }
    {
        add_file(&mut self.files, name, bytes)?;
        self.place = None;
        Ok(())
    }

    /// Opens the file of this name, if it is there, and answers whether it is.
    pub fn open(&mut self, name: &str) -> bool
        ensures found { result ≡ is_there name.now self.old }
        ensures opened { self.new ≡ after_open name.now self.old }
    {
        let index = index_of(&self.files, name);
        self.asked = index;
        match index {
            Some(file) => {
                self.place = Some(Place { file, position: 0 });
                true
            }
            None => {
                self.place = None;
                false
            }
        }
    }

    /// Closes the open file.
    pub fn close(&mut self)
        ensures { self.new ≡ after_close self.old }
    {
        self.place = None;
    }

    /// Reads the next bytes of the open file into the front of `buf` and answers how many: 0 where
    /// no file is open.
    pub fn read(&mut self, buf: &mut [u8]) -> usize
        ensures count { result ≡ read_count (length buf.old) self.old }
        ensures bytes { buf.new ≡ take result self.old.left ++ drop result buf.old }
        ensures after { self.new ≡ after_read result self.old }
    {
        let Some(place) = self.place else {
            return 0;
        };
        let file = &self.files[place.file];
        let left = &file.bytes()[place.position..];
        let count = left.len().min(buf.len());
        buf[..count].copy_from_slice(&left[..count]);
        self.place = Some(Place {
            file: place.file,
            position: place.position + count,
        });
        count
    }
}
