//! Runs that stop by their budget, and go on from their snapshots.

use crate::commands::{Content, made, words_of};
use iop_front::{Status, iop_main};
use iop_ports::{MemFiles, MemKeep, MemSink};
use std::alloc::Global;
use std::process::Abort;
use std::test::Fail;

/// How many bytes a keep has room for: more than a snapshot of a machine of 2 MiB.
const ROOM: u32 = 0x21_0000;

/// The module that prints `hi`.
const HELLO: Content = Content::Hello("1 99", 14, "addu $v0, $0, $0");

/// What its run by five instructions writes to the trace.
const FIRST_LINES: &str = "0 load 1 ok 00010000 00000040\n0 run 1\n5 end budget\n";

/// What a command answers and writes.
#[derive(Drop)]
struct Answer {
    code: u8,
    console: MemSink,
    trace: MemSink,
    keep: MemKeep,
}

/// Runs a command over one file and a keep, a call of which fails.
fn run(alloc: Global, words: &str, name: &str, file: Vec<u8>, fault: u64) -> Result<Answer, Fail> {
    let words = words_of(alloc, words)?;
    let mut files = MemFiles::new(alloc, Vec::new(alloc));
    files.add(name, file)?;
    let mut keep = MemKeep::new(alloc, ROOM, vec![in alloc; fault]?)?;
    let mut console = MemSink::new(alloc, 100, Vec::new(alloc))?;
    let mut trace = MemSink::new(alloc, 200, Vec::new(alloc))?;
    let code = iop_main(
        alloc,
        &words,
        &mut files,
        &mut keep,
        &mut console,
        &mut trace,
    );
    Ok(Answer {
        code,
        console,
        trace,
        keep,
    })
}

/// Runs the module by five instructions, and saves what is left of it.
fn saved(alloc: Global, fault: u64) -> Result<Answer, Fail> {
    run(
        alloc,
        "--budget 5 --save s t.irx",
        "t.irx",
        made(alloc, HELLO)?,
        fault,
    )
}

/// Goes on from a file.
fn goes_on(alloc: Global, file: Vec<u8>) -> Result<Answer, Fail> {
    run(alloc, "--restore s", "s", file, 0)
}

/// Compares an answer with what is wanted of it.
fn answers(rt: &impl Abort, answer: &Answer, status: Status, text: &str, lines: &str) {
    assert_eq!(rt; answer.trace.bytes(), lines.as_bytes());
    assert_eq!(rt; answer.console.bytes(), text.as_bytes());
    assert_eq!(rt; answer.code, status.code());
}

#[test]
fn a_run_goes_on_from_its_snapshot(rt: HostRuntime) -> Result<(), Fail> {
    let alloc = rt.alloc();
    let first = saved(alloc, 0)?;
    answers(&rt, &first, Status::Budget, "", FIRST_LINES);
    assert_eq!(rt; first.keep.name(), Some("s"));
    assert_eq!(rt; first.keep.creates(), 1);
    let next = goes_on(alloc, first.keep.bytes().to_vec(alloc)?)?;
    let lines = "11 result 1 0 resident\n12 end quiet\n";
    answers(&rt, &next, Status::Quiet, "hi\n", lines);
    assert_eq!(rt; next.keep.creates(), 0);
    Ok(())
}

#[test]
fn what_is_no_snapshot_is_refused(rt: HostRuntime) -> Result<(), Fail> {
    let alloc = rt.alloc();
    let mut file = saved(alloc, 0)?.keep.bytes().to_vec(alloc)?;
    file.push(0)?;
    let line = "iop: bad snapshot s\n";
    answers(&rt, &goes_on(alloc, file)?, Status::BadSnapshot, "", line);
    let none = goes_on(alloc, Vec::new(alloc))?;
    answers(&rt, &none, Status::BadSnapshot, "", line);
    Ok(())
}

#[test]
fn a_run_that_ended_is_not_saved(rt: HostRuntime) -> Result<(), Fail> {
    let alloc = rt.alloc();
    let whole = run(alloc, "--save s t.irx", "t.irx", made(alloc, HELLO)?, 0)?;
    let lines = "0 load 1 ok 00010000 00000040\n0 run 1\n11 result 1 0 resident\n12 end quiet\n";
    answers(&rt, &whole, Status::Quiet, "hi\n", lines);
    assert_eq!(rt; whole.keep.creates(), 0);
    Ok(())
}

#[test]
fn a_snapshot_is_not_written(rt: HostRuntime) -> Result<(), Fail> {
    // The first call creates the file, and the second writes to it.
    for fault in 1..=2 {
        let cut = saved(rt.alloc(), fault)?;
        answers(&rt, &cut, Status::SinkFault, "", FIRST_LINES);
        assert_eq!(rt; cut.keep.creates(), 1);
        assert_eq!(rt; cut.keep.bytes().len(), 0);
    }
    Ok(())
}
