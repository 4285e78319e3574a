//! Commands whose files or sinks fail, and such whose cannot.

ghost use Rattle.std.specs.Prelude.{◌≡◌, ◌≢◌};
ghost use Rattle.iop_base.specs.Counts.{HasCause};

use crate::commands::{Calls, Content, Faults, NO_FAULTS, Run, calls_of, made, words_of};
use crate::sources::{PLAIN, PRINTS_THREE};
use iop_front::{Status, iop_main};
use iop_ports::{CountSink, MemKeep, SureFiles, TrickleSink};
use std::alloc::Global;
use std::process::Abort;
use std::test::Fail;

/// What the plain module's command writes to the trace.
const PLAIN_TRACE: &str =
    "0 load 1 ok 00010000 00000008\n0 run 1\n2 result 1 0 resident\n3 end quiet\n";

/// The plain module's command.
const PLAIN_RUN: Run = Run {
    words: "t.irx",
    files: &[("t.irx", Content::Module(PLAIN))],
    status: Status::Quiet,
    text: "",
    trace: Some(PLAIN_TRACE),
};

/// The same where its file cannot be read.
const UNREADABLE: Run = Run {
    status: Status::CannotRead,
    trace: Some("iop: cannot read t.irx\n"),
    ..PLAIN_RUN
};

/// The same where its file is not there.
const MISSING: Run = Run {
    files: &[],
    ..UNREADABLE
};

/// The plain module where no call of the files fails, where each does, and where its file is not
/// there: the number of the call that fails, how many calls there are, and how many strays.
const READING: [(u64, Run, u64, u64); 5] = [
    (0, PLAIN_RUN, 3, 0),
    (1, UNREADABLE, 1, 0),
    (2, UNREADABLE, 2, 0),
    (3, UNREADABLE, 3, 0),
    (0, MISSING, 1, 1),
];

#[test]
fn each_call_of_files_fails(rt: HostRuntime) -> Result<(), Fail> {
    for (number, run, calls, stray) in READING {
        let faults = Faults {
            files: number,
            ..NO_FAULTS
        };
        let Calls { files, strays, .. } = calls_of(&rt, rt.alloc(), faults, run)?;
        assert_eq!(rt; (files, strays), (calls, stray));
    }
    Ok(())
}

/// What the plain module's trace has where the write of this number fails: the lines before it.
const LINES_BEFORE: [(u64, &str); 4] = [
    (1, ""),
    (2, "0 load 1 ok 00010000 00000008\n"),
    (3, "0 load 1 ok 00010000 00000008\n0 run 1\n"),
    (
        4,
        "0 load 1 ok 00010000 00000008\n0 run 1\n2 result 1 0 resident\n",
    ),
];

#[test]
fn each_line_fails(rt: HostRuntime) -> Result<(), Fail> {
    for (number, lines) in LINES_BEFORE {
        let faults = Faults {
            trace: number,
            ..NO_FAULTS
        };
        let run = Run {
            status: Status::SinkFault,
            trace: Some(lines),
            ..PLAIN_RUN
        };
        let _ = calls_of(&rt, rt.alloc(), faults, run)?;
    }
    Ok(())
}

/// Runs the plain module over a trace that takes one byte at a time, and of which the write behind
/// so many bytes fails.
fn fails_behind(
    rt: &impl Abort,
    alloc: Global,
    words: &[String],
    files: &mut SureFiles,
    count: usize,
) -> Result<(), Fail> {
    let number = (count as u64).saturating_add(1);
    let mut console = CountSink::new();
    let mut trace = TrickleSink::new(alloc, 100, vec![in alloc; number]?)?;
    let mut keep = MemKeep::new(alloc, 0, Vec::new(alloc))?;
    let code = iop_main(alloc, words, files, &mut keep, &mut console, &mut trace);
    let status = if count < PLAIN_TRACE.len() {
        Status::SinkFault
    } else {
        Status::Quiet
    };
    assert_eq!(rt; code, status.code());
    assert_eq!(rt; Some(trace.bytes()), PLAIN_TRACE.as_bytes().get(..count));
    Ok(())
}

/// The write of each byte fails in its run, and in the last run none does.
#[test]
fn each_byte_fails(rt: HostRuntime) -> Result<(), Fail> {
    let alloc = rt.alloc();
    let words = words_of(alloc, "t.irx")?;
    let mut files = SureFiles::new(alloc);
    files.add("t.irx", made(alloc, Content::Module(PLAIN))?)?;
    for count in 0..=PLAIN_TRACE.len() {
        fails_behind(&rt, alloc, &words, &mut files, count)?;
    }
    Ok(())
}

/// The module that prints `hi`, of which a write fails.
const PRINTING_HI: Run = Run {
    words: "t.irx",
    files: &[("t.irx", Content::Hello("1 1", 14, "nop"))],
    status: Status::SinkFault,
    text: "",
    trace: Some("0 load 1 ok 00010000 00000040\n0 run 1\n"),
};

/// Writes that fail, and a console without room. A refusal of which the line fails has its status
/// all the same.
const FAILING: [(Faults, Run); 6] = [
    (
        NO_FAULTS,
        Run {
            words: "-x",
            files: &[],
            status: Status::BadWords,
            text: "",
            trace: Some("iop: bad words\n"),
        },
    ),
    (
        Faults {
            trace: 1,
            ..NO_FAULTS
        },
        Run {
            words: "-x",
            files: &[],
            status: Status::BadWords,
            text: "",
            trace: Some(""),
        },
    ),
    (
        Faults {
            console: 1,
            ..NO_FAULTS
        },
        PRINTING_HI,
    ),
    (
        Faults {
            trace: 3,
            ..NO_FAULTS
        },
        Run {
            text: "hi\n",
            ..PRINTING_HI
        },
    ),
    (
        Faults {
            room: 2,
            ..NO_FAULTS
        },
        Run {
            text: "hi",
            ..PRINTING_HI
        },
    ),
    (
        Faults {
            trace: 6,
            ..NO_FAULTS
        },
        Run {
            words: "--dump 10000:11 t.irx",
            files: &[("t.irx", Content::Module(PLAIN))],
            status: Status::SinkFault,
            text: "",
            trace: Some(
                "0 load 1 ok 00010000 00000008
0 run 1
2 result 1 0 resident
3 end quiet
00010000: 0800e003211000000000000000000000
",
            ),
        },
    ),
];

#[test]
fn writes_that_fail(rt: HostRuntime) -> Result<(), Fail> {
    for (faults, run) in FAILING {
        let _ = calls_of(&rt, rt.alloc(), faults, run)?;
    }
    Ok(())
}

/// A module that prints three texts, one of them empty, where no write fails and where the second
/// to the console does. How often the console and the trace are written to.
const PRINTING: [(Faults, Run, u64, u64); 2] = [
    (
        NO_FAULTS,
        Run {
            words: "t.irx",
            files: &[("t.irx", Content::Module(PRINTS_THREE))],
            status: Status::Quiet,
            text: "one\ntwo\n",
            trace: Some(
                "0 load 1 ok 00010000 00000068\n0 run 1\n27 result 1 0 resident\n28 end quiet\n",
            ),
        },
        2,
        4,
    ),
    (
        Faults {
            console: 2,
            ..NO_FAULTS
        },
        Run {
            words: "t.irx",
            files: &[("t.irx", Content::Module(PRINTS_THREE))],
            status: Status::SinkFault,
            text: "one\n",
            trace: Some("0 load 1 ok 00010000 00000068\n0 run 1\n"),
        },
        2,
        2,
    ),
];

#[test]
fn each_text_and_line_is_written_at_once(rt: HostRuntime) -> Result<(), Fail> {
    for (faults, run, texts, lines) in PRINTING {
        let Calls { console, trace, .. } = calls_of(&rt, rt.alloc(), faults, run)?;
        assert_eq!(rt; (console, trace), (texts, lines));
    }
    Ok(())
}

/// Runs a command over files and sinks that cannot fail. That it answers a fault only where the
/// keep fails follows from the clauses of `iop_main`.
fn answers_no_fault(
    alloc: Global,
    words: &[String],
    files: &mut SureFiles,
    keep: &mut MemKeep,
    console: &mut CountSink,
    trace: &mut CountSink,
) -> u8
    ensures readable { result ≢ 22 }
    ensures writable { result ≡ 24
        → HasCause keep.old.sink.calls.faults keep.new.sink.calls.faults }
{
    iop_main(alloc, words, files, keep, console, trace)
}

#[test]
fn sure_ports(rt: HostRuntime) -> Result<(), Fail> {
    let alloc = rt.alloc();
    let mut files = SureFiles::new(alloc);
    files.add("t.irx", made(alloc, Content::Module(PLAIN))?)?;
    let mut console = CountSink::new();
    let mut trace = CountSink::new();
    let words = words_of(alloc, "t.irx")?;
    let mut keep = MemKeep::new(alloc, 0, Vec::new(alloc))?;
    let code = answers_no_fault(
        alloc,
        &words,
        &mut files,
        &mut keep,
        &mut console,
        &mut trace,
    );
    assert_eq!(rt; code, Status::Quiet.code());
    assert_eq!(rt; console.count, 0);
    assert_eq!(rt; trace.count, 72);
    Ok(())
}
