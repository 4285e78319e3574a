//! Commands with options.

use crate::commands::{Calls, Content, NO_FAULTS, Run, answer_all, calls_of};
use crate::sources::PLAIN;
use iop_front::Status;
use std::test::Fail;

/// What is dumped: a stub that is bound, of another version, with no function, with a number that
/// has no service; and the words of a module.
const DUMPS: [Run; 5] = [
    Run {
        words: "--dump 10014:8 t.irx",
        files: &[("t.irx", Content::Hello("1 1", 14, "addu $v0, $0, $0"))],
        status: Status::Quiet,
        text: "hi\n",
        trace: Some(
            "0 load 1 ok 00010000 00000040
0 run 1
11 result 1 0 resident
12 end quiet
00010014: 381100080e000024
",
        ),
    },
    Run {
        words: "--dump 10014:8 t.irx",
        files: &[("t.irx", Content::Hello("2 1", 14, "addu $v0, $0, $0"))],
        status: Status::Quiet,
        text: "",
        trace: Some("0 load 1 -200\n0 end quiet\n00010014: 0800e0030e000024\n"),
    },
    Run {
        words: "--dump 10014:8 t.irx",
        files: &[("t.irx", Content::Hello("1 1", 64, "addu $v0, $0, $0"))],
        status: Status::Quiet,
        text: "",
        trace: Some(
            "0 load 1 ok 00010000 00000040
0 run 1
8 result 1 0 resident
9 end quiet
00010014: 0800e00340000024
",
        ),
    },
    Run {
        words: "--dump=80010014:8 t.irx",
        files: &[("t.irx", Content::Hello("1 1", 63, "addu $v0, $0, $0"))],
        status: Status::Quiet,
        text: "",
        trace: Some(
            "0 load 1 ok 00010000 00000040
0 run 1
6 service sysmem 63
11 result 1 0 resident
12 end quiet
80010014: fc1100083f000024
",
        ),
    },
    Run {
        words: "m.irx --dump 2000:1b --script=script",
        files: &[
            ("script", Content::Text("script 1\nargs 1 a bc\n")),
            ("m.irx", Content::Module(PLAIN)),
        ],
        status: Status::Quiet,
        text: "",
        trace: Some(
            "0 load 1 ok 00010000 00000008
0 run 1
2 result 1 0 resident
3 end quiet
00002000: 10200000162000001820000000000000
00002010: 6d2e697278006100626300
",
        ),
    },
];

#[test]
fn dumps(rt: HostRuntime) -> Result<(), Fail> {
    answer_all(&rt, rt.alloc(), &DUMPS)
}

/// The module that prints `hi`, under budgets.
const BUDGETS: [Run; 3] = [
    Run {
        words: "--budget 0 t.irx",
        files: &[("t.irx", Content::Hello("1 1", 14, "addu $v0, $0, $0"))],
        status: Status::Budget,
        text: "",
        trace: Some("0 load 1 ok 00010000 00000040\n0 run 1\n0 end budget\n"),
    },
    Run {
        words: "--budget 5 t.irx",
        files: &[("t.irx", Content::Hello("1 1", 14, "addu $v0, $0, $0"))],
        status: Status::Budget,
        text: "",
        trace: Some("0 load 1 ok 00010000 00000040\n0 run 1\n5 end budget\n"),
    },
    Run {
        words: "--budget=12 t.irx",
        files: &[("t.irx", Content::Hello("1 1", 14, "addu $v0, $0, $0"))],
        status: Status::Quiet,
        text: "hi\n",
        trace: Some(
            "0 load 1 ok 00010000 00000040\n0 run 1\n11 result 1 0 resident\n12 end quiet\n",
        ),
    },
];

#[test]
fn budgets(rt: HostRuntime) -> Result<(), Fail> {
    answer_all(&rt, rt.alloc(), &BUDGETS)
}

/// Commands that call no file.
const WITHOUT_FILES: [Run; 7] = [
    Run {
        words: "--generate 1",
        files: &[],
        status: Status::Quiet,
        text: "workers 1 sum 1000\n",
        trace: None,
    },
    Run {
        words: "--generate 250",
        files: &[],
        status: Status::Quiet,
        text: "workers 250 sum 31375000\n",
        trace: None,
    },
    Run {
        words: "",
        files: &[],
        status: Status::BadWords,
        text: "",
        trace: Some("iop: bad words\n"),
    },
    Run {
        words: "-x",
        files: &[],
        status: Status::BadWords,
        text: "",
        trace: Some("iop: bad words\n"),
    },
    Run {
        words: "--generate 0",
        files: &[],
        status: Status::BadWords,
        text: "",
        trace: Some("iop: bad words\n"),
    },
    Run {
        words: "--ram 4 a.irx",
        files: &[],
        status: Status::BadWords,
        text: "",
        trace: Some("iop: bad words\n"),
    },
    Run {
        words: "--generate 1 a.irx",
        files: &[],
        status: Status::BadWords,
        text: "",
        trace: Some("iop: bad words\n"),
    },
];

#[test]
fn commands_that_call_no_file(rt: HostRuntime) -> Result<(), Fail> {
    for run in WITHOUT_FILES {
        let Calls { files, .. } = calls_of(&rt, rt.alloc(), NO_FAULTS, run)?;
        assert_eq!(rt; files, 0);
    }
    Ok(())
}
