//! The program `iop`: the command over the files and the streams of the host.
#![tactic(auto)]

use iop_front::{Status, iop_main};
use iop_ports::{DiskFiles, DiskKeep, StreamSink};
use std::alloc::AllocError;
use std::env;
use std::env::FillError;
use std::io::ErrorKind;
use std::process::ExitCode;
use std::rt::Env;

/// The arguments of an environment from the second on: the first is the program's name, which may
/// be any bytes.
#[derive(Drop)]
struct BehindName<'a, E>(&'a E);

impl<E: Env> Env for BehindName<'_, E> {
    fn arg(&self, i: usize, buf: &mut [u8]) -> Result<usize, FillError> {
        let next = i.checked_add(1).ok_or(FillError::NotPresent)?;
        self.0.arg(next, buf)
    }

    fn var(&self, name: &str, buf: &mut [u8]) -> Result<usize, FillError> {
        self.0.var(name, buf)
    }

    fn var_at(&self, i: usize, buf: &mut [u8]) -> Result<usize, FillError> {
        self.0.var_at(i, buf)
    }
}

/// The words of the command line, without the program's name. Where one is not UTF-8 there are
/// none: such a line is no command.
#[cold]
fn words(rt: &(impl Env + AllocGlobal)) -> Result<Vec<String>, AllocError> {
    let alloc = rt.alloc();
    match env::args(&(BehindName(rt), alloc)) {
        Ok(args) => {
            let mut words = Vec::new(alloc);
            for word in args {
                words.push(word)?;
            }
            Ok(words)
        }
        Err(error) if error.kind() == ErrorKind::OutOfMemory => Err(AllocError),
        Err(_) => Ok(Vec::new(alloc)),
    }
}

fn main(rt: HostRuntime) -> ExitCode {
    let Ok(words) = words(&rt) else {
        return ExitCode::from(Status::NoMemory.code());
    };
    let alloc = rt.alloc();
    let mut console = StreamSink::new(rt.stdout());
    let mut trace = StreamSink::new(rt.stderr());
    let mut files = DiskFiles::new(rt);
    let mut keep = DiskKeep::new(rt);
    ExitCode::from(iop_main(
        alloc,
        &words,
        &mut files,
        &mut keep,
        &mut console,
        &mut trace,
    ))
}
