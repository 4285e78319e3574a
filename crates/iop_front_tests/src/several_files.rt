//! Commands that name several files.

use crate::commands::{Calls, Content, NO_FAULTS, Run, answer_all, answers, calls_of};
use crate::sources::{
    FREES_ITSELF, IMPORTS_MISSING, IMPORTS_SHOUT, PLAIN, PUTS_IN_A_FUNCTION, TAKES_ITSELF_AGAIN,
};
use iop_front::Status;
use std::test::Fail;

/// The plain module behind one that returns, is refused, or is removed.
const IN_ORDER: [Run; 5] = [
    Run {
        words: "a.irx b.irx",
        files: &[
            ("a.irx", Content::Module(PLAIN)),
            ("b.irx", Content::Module(PLAIN)),
        ],
        status: Status::Quiet,
        text: "",
        trace: Some(
            "0 load 1 ok 00010000 00000008
0 run 1
2 result 1 0 resident
2 load 2 ok 00010100 00000008
5 result 2 0 resident
6 end quiet
",
        ),
    },
    Run {
        words: "a.irx b.irx",
        files: &[
            ("a.irx", Content::Text("")),
            ("b.irx", Content::Module(PLAIN)),
        ],
        status: Status::Quiet,
        text: "",
        trace: Some(
            "0 load 1 -201
0 load 2 ok 00010000 00000008
0 run 1
2 result 2 0 resident
3 end quiet
",
        ),
    },
    Run {
        words: "a.irx b.irx",
        files: &[
            ("a.irx", Content::Hello("1 1", 14, "addiu $v0, $0, 1")),
            ("b.irx", Content::Module(PLAIN)),
        ],
        status: Status::Quiet,
        text: "hi\n",
        trace: Some(
            "0 load 1 ok 00010000 00000040
0 run 1
11 result 1 1 removed
11 stub 00010014
11 load 2 ok 00010000 00000008
14 result 2 0 resident
15 end quiet
",
        ),
    },
    Run {
        words: "a.irx b.irx",
        files: &[
            ("a.irx", Content::Module(FREES_ITSELF)),
            ("b.irx", Content::Module(PLAIN)),
        ],
        status: Status::Quiet,
        text: "",
        trace: Some(
            "0 load 1 ok 00010000 0000003c
0 run 1
11 result 1 1 removed
11 load 2 ok 00010000 00000008
14 result 2 0 resident
15 end quiet
",
        ),
    },
    Run {
        words: "a.irx b.irx",
        files: &[
            ("a.irx", Content::Module(TAKES_ITSELF_AGAIN)),
            ("b.irx", Content::Module(PLAIN)),
        ],
        status: Status::Quiet,
        text: "",
        trace: Some(
            "0 load 1 ok 00010000 0000004c
0 run 1
18 result 1 1 removed
18 load 2 ok 00010200 00000008
21 result 2 0 resident
22 end quiet
",
        ),
    },
];

#[test]
fn modules_in_order(rt: HostRuntime) -> Result<(), Fail> {
    answer_all(&rt, rt.alloc(), &IN_ORDER)
}

/// A module that links to the library of the one before it, or to what that one put into a table.
const LINKED: [Run; 4] = [
    Run {
        words: "a.irx b.irx",
        files: &[
            ("a.irx", Content::Exports("addu $v0, $0, $0")),
            ("b.irx", Content::Module(IMPORTS_SHOUT)),
        ],
        status: Status::Quiet,
        text: "hi\n",
        trace: Some(
            "0 load 1 ok 00010000 0000008c
0 run 1
11 result 1 0 resident
11 load 2 ok 00010100 00000038
27 result 2 0 resident
28 end quiet
",
        ),
    },
    Run {
        words: "a.irx b.irx",
        files: &[
            ("a.irx", Content::Exports("addiu $v0, $0, 1")),
            ("b.irx", Content::Module(IMPORTS_SHOUT)),
        ],
        status: Status::Quiet,
        text: "",
        trace: Some(
            "0 load 1 ok 00010000 0000008c
0 run 1
11 result 1 1 removed
11 stub 00010014
11 stub 00010038
11 load 2 -200
12 end quiet
",
        ),
    },
    Run {
        words: "a.irx b.irx",
        files: &[
            ("a.irx", Content::Module(IMPORTS_MISSING)),
            ("b.irx", Content::Module(IMPORTS_SHOUT)),
        ],
        status: Status::Quiet,
        text: "",
        trace: Some("0 load 1 -200\n0 load 2 -200\n0 end quiet\n"),
    },
    Run {
        words: "a.irx b.irx",
        files: &[
            ("a.irx", Content::Module(PUTS_IN_A_FUNCTION)),
            ("b.irx", Content::Hello("1 1", 14, "addu $v0, $0, $0")),
        ],
        status: Status::Quiet,
        text: "ho\n",
        trace: Some(
            "0 load 1 ok 00010000 0000002c
0 run 1
5 result 1 0 resident
5 load 2 ok 00010100 00000040
19 result 2 0 resident
20 end quiet
",
        ),
    },
];

#[test]
fn libraries_of_modules(rt: HostRuntime) -> Result<(), Fail> {
    answer_all(&rt, rt.alloc(), &LINKED)
}

/// The second of three files decides: it is not there, or too long. How often the files are called,
/// and how often in vain.
const DECIDED: [(Run, u64, u64); 2] = [
    (
        Run {
            words: "a.irx b.irx c.irx",
            files: &[
                ("a.irx", Content::Module(PLAIN)),
                ("c.irx", Content::Module(PLAIN)),
            ],
            status: Status::CannotRead,
            text: "",
            trace: Some("iop: cannot read b.irx\n"),
        },
        4,
        1,
    ),
    (
        Run {
            words: "a.irx b.irx c.irx",
            files: &[
                ("a.irx", Content::Module(PLAIN)),
                ("b.irx", Content::Zeros(4_194_305)),
                ("c.irx", Content::Module(PLAIN)),
            ],
            status: Status::TooLong,
            text: "",
            trace: Some("iop: b.irx is over 4194304 bytes\n"),
        },
        5,
        0,
    ),
];

#[test]
fn no_file_is_opened_behind_one_that_decides(rt: HostRuntime) -> Result<(), Fail> {
    for (run, calls, vain) in DECIDED {
        let Calls { files, strays, .. } = calls_of(&rt, rt.alloc(), NO_FAULTS, run)?;
        assert_eq!(rt; (files, strays), (calls, vain));
    }
    Ok(())
}

/// Commands of 65 and of 64 words.
const MANY_WORDS: [(usize, Run); 2] = [
    (
        65,
        Run {
            words: "",
            files: &[],
            status: Status::BadWords,
            text: "",
            trace: Some("iop: bad words\n"),
        },
    ),
    (
        64,
        Run {
            words: "",
            files: &[],
            status: Status::CannotRead,
            text: "",
            trace: Some("iop: cannot read a.irx\n"),
        },
    ),
];

#[test]
fn words_are_64_at_most(rt: HostRuntime) -> Result<(), Fail> {
    for (count, run) in MANY_WORDS {
        let mut words = Vec::new(rt.alloc());
        for _ in 0..count {
            words.push(String::from_str(rt.alloc(), "a.irx")?)?;
        }
        let _ = answers(&rt, rt.alloc(), &words, NO_FAULTS, run)?;
    }
    Ok(())
}
