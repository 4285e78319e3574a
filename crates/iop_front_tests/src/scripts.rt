//! Commands with a script.

use crate::commands::{Content, Run, answer_all};
use crate::sources::{HANDLES_LINE_5, PLAIN};
use iop_front::Status;
use std::test::Fail;

/// A module that handles line 5, which it enables at tick 14. Scripts raise the line later; before;
/// and before, and release it before, too. One raises a line that there is not.
const LINES: [Run; 4] = [
    Run {
        words: "--script script a.irx",
        files: &[
            ("script", Content::Text("script 1\nat 100 line 5\n")),
            ("a.irx", Content::Module(HANDLES_LINE_5)),
        ],
        status: Status::Quiet,
        text: "",
        trace: Some(
            "0 load 1 ok 00010000 00000058
0 run 1
19 result 1 0 resident
100 line 5
103 end quiet
",
        ),
    },
    Run {
        words: "--script script a.irx",
        files: &[
            ("script", Content::Text("script 2\nat 5 line 5\n")),
            ("a.irx", Content::Module(HANDLES_LINE_5)),
        ],
        status: Status::Quiet,
        text: "",
        trace: Some(
            "0 load 1 ok 00010000 00000058
0 run 1
15 line 5
22 result 1 0 resident
23 end quiet
",
        ),
    },
    Run {
        words: "--script script a.irx",
        files: &[
            (
                "script",
                Content::Text("script 2\nat 5 line 5\nat 9 release 5\n"),
            ),
            ("a.irx", Content::Module(HANDLES_LINE_5)),
        ],
        status: Status::Quiet,
        text: "",
        trace: Some(
            "0 load 1 ok 00010000 00000058
0 run 1
19 result 1 0 resident
20 end quiet
",
        ),
    },
    Run {
        words: "--script script a.irx",
        files: &[
            ("script", Content::Text("script 1\nat 100 line 64\n")),
            ("a.irx", Content::Module(HANDLES_LINE_5)),
        ],
        status: Status::BadScript,
        text: "",
        trace: Some("iop: script line 2\n"),
    },
];

#[test]
fn lines_of_a_script(rt: HostRuntime) -> Result<(), Fail> {
    answer_all(&rt, rt.alloc(), &LINES)
}

/// Words for a module by its name, and by its number, which decides.
const WORDS: [Run; 2] = [
    Run {
        words: "m.irx --dump 2000:1b --script=script",
        files: &[
            ("script", Content::Text("script 2\nfor m.irx a bc\n")),
            ("m.irx", Content::Module(PLAIN)),
        ],
        status: Status::Quiet,
        text: "",
        trace: Some(
            "0 load 1 ok 00010000 00000008
0 run 1
2 result 1 0 resident
3 end quiet
00002000: 10200000162000001820000000000000
00002010: 6d2e697278006100626300
",
        ),
    },
    Run {
        words: "m.irx --dump 2000:14 --script=script",
        files: &[
            (
                "script",
                Content::Text("script 2\nfor m.irx a bc\nargs 1 d\n"),
            ),
            ("m.irx", Content::Module(PLAIN)),
        ],
        status: Status::Quiet,
        text: "",
        trace: Some(
            "0 load 1 ok 00010000 00000008
0 run 1
2 result 1 0 resident
3 end quiet
00002000: 0c20000012200000000000006d2e6972
00002010: 78006400
",
        ),
    },
];

#[test]
fn words_of_a_script(rt: HostRuntime) -> Result<(), Fail> {
    answer_all(&rt, rt.alloc(), &WORDS)
}
