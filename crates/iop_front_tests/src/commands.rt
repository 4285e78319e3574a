//! How the tests run commands: rows, each with what is wanted of it.

use crate::sources::{PLAIN, exports, file_of, hello};
use iop_front::{Status, iop_main};
use iop_ports::{MemFiles, MemKeep, MemSink};
use std::alloc::Global;
use std::process::Abort;
use std::test::Fail;

/// What a file holds.
#[derive(Clone, Copy)]
pub enum Content {
    /// The module of this source.
    Module(&'static str),
    /// The module that prints `hi`: `hello` with these words.
    Hello(&'static str, u16, &'static str),
    /// The module that registers `shouts`: `exports` with this word.
    Exports(&'static str),
    /// The plain module's file, with so many bytes.
    Cut(usize),
    /// The plain module's file with another byte in a place.
    Patched(usize, u8),
    /// These bytes.
    Text(&'static str),
    /// So many zeros.
    Zeros(usize),
}

/// The numbers of the calls that fail, of the files and of the writes to the console and the trace:
/// 0 where none does. And the room on the console.
#[derive(Clone, Copy)]
pub struct Faults {
    pub files: u64,
    pub console: u64,
    pub trace: u64,
    pub room: u32,
}

/// No call fails.
pub const NO_FAULTS: Faults = Faults {
    files: 0,
    console: 0,
    trace: 0,
    room: 100,
};

/// A command, and what is wanted of it.
#[derive(Clone, Copy)]
pub struct Run {
    /// Its words, with a blank between each two.
    pub words: &'static str,
    /// The files that are there, each by its name.
    pub files: &'static [(&'static str, Content)],
    /// What it answers.
    pub status: Status,
    /// What it writes to the console.
    pub text: &'static str,
    /// What it writes to the trace, if that is looked at.
    pub trace: Option<&'static str>,
}

/// How often a command called the files, and how often in vain since a file was not there, and how
/// often it wrote to the console and to the trace.
#[derive(Clone, Copy, Debug, PartialEq, Eq)]
pub struct Calls {
    pub files: u64,
    pub strays: u64,
    pub console: u64,
    pub trace: u64,
}

/// Makes a file.
pub fn made(alloc: Global, content: Content) -> Result<Vec<u8>, Fail> {
    match content {
        Content::Module(source) => file_of(alloc, source),
        Content::Hello(version, index, last) => {
            let source = hello(alloc, version, index, last)?;
            file_of(alloc, &source)
        }
        Content::Exports(last) => {
            let source = exports(alloc, last)?;
            file_of(alloc, &source)
        }
        Content::Cut(len) => {
            let mut file = file_of(alloc, PLAIN)?;
            file.truncate(len);
            Ok(file)
        }
        Content::Patched(place, byte) => {
            let mut file = file_of(alloc, PLAIN)?;
            if let Some(found) = file.get_mut(place) {
                *found = byte;
            }
            Ok(file)
        }
        Content::Text(text) => Ok(text.as_bytes().to_vec(alloc)?),
        Content::Zeros(len) => Ok(vec![in alloc; 0; len]?),
    }
}

/// Makes the words of a command.
pub fn words_of(alloc: Global, text: &str) -> Result<Vec<String>, Fail> {
    let mut words = Vec::new(alloc);
    for word in text.split_whitespace() {
        words.push(String::from_str(alloc, word)?)?;
    }
    Ok(words)
}

/// Makes files of which a call fails.
fn files_of(
    alloc: Global,
    fault: u64,
    added: &[(&'static str, Content)],
) -> Result<MemFiles, Fail> {
    let mut files = MemFiles::new(alloc, vec![in alloc; fault]?);
    for (name, content) in added {
        files.add(name, made(alloc, *content)?)?;
    }
    Ok(files)
}

/// Makes a sink of which a write fails.
fn sink_of(alloc: Global, room: u32, fault: u64) -> Result<MemSink, Fail> {
    Ok(MemSink::new(alloc, room, vec![in alloc; fault]?)?)
}

/// Runs words over the files of a row, with these faults, and compares what is wanted of it. Tells
/// how often the ports were called.
pub fn answers(
    rt: &impl Abort,
    alloc: Global,
    words: &[String],
    faults: Faults,
    run: Run,
) -> Result<Calls, Fail> {
    let mut files = files_of(alloc, faults.files, run.files)?;
    let mut console = sink_of(alloc, faults.room, faults.console)?;
    let mut trace = sink_of(alloc, 100_000, faults.trace)?;
    let mut keep = MemKeep::new(alloc, 0, Vec::new(alloc))?;
    let code = iop_main(
        alloc,
        words,
        &mut files,
        &mut keep,
        &mut console,
        &mut trace,
    );
    if let Some(wanted) = run.trace {
        assert_eq!(rt; trace.bytes(), wanted.as_bytes());
    }
    assert_eq!(rt; code, run.status.code());
    assert_eq!(rt; console.bytes(), run.text.as_bytes());
    assert_eq!(rt; keep.calls(), 0);
    Ok(Calls {
        files: files.calls(),
        strays: files.strays(),
        console: console.calls(),
        trace: trace.calls(),
    })
}

/// Runs a row with these faults, as `answers` does.
pub fn calls_of(rt: &impl Abort, alloc: Global, faults: Faults, run: Run) -> Result<Calls, Fail> {
    let words = words_of(alloc, run.words)?;
    answers(rt, alloc, &words, faults, run)
}

/// Runs rows without faults, one after the other.
pub fn answer_all(rt: &impl Abort, alloc: Global, runs: &[Run]) -> Result<(), Fail> {
    for run in runs {
        let _ = calls_of(rt, alloc, NO_FAULTS, *run)?;
    }
    Ok(())
}
