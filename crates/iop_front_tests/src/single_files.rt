//! Commands that name one file.

use crate::commands::{Content, Run, answer_all};
use crate::sources::{
    OVERFLOWS, PLAIN, RESERVED_WORD, RETURNS_65538, RETURNS_MINUS_ONE, STORES_OVER_ITS_STUB,
    UNKNOWN_SERVICE, UNPAIRED,
};
use iop_front::Status;
use std::test::Fail;

/// Modules without imports, which return or fault.
const WITHOUT_IMPORTS: [Run; 6] = [
    Run {
        words: "t.irx",
        files: &[("t.irx", Content::Module(PLAIN))],
        status: Status::Quiet,
        text: "",
        trace: Some("0 load 1 ok 00010000 00000008\n0 run 1\n2 result 1 0 resident\n3 end quiet\n"),
    },
    Run {
        words: "t.irx",
        files: &[("t.irx", Content::Module(RETURNS_65538))],
        status: Status::Quiet,
        text: "",
        trace: Some(
            "0 load 1 ok 00010000 00000010\n0 run 1\n4 result 1 65538 removable\n5 end quiet\n",
        ),
    },
    Run {
        words: "t.irx",
        files: &[("t.irx", Content::Module(RETURNS_MINUS_ONE))],
        status: Status::Quiet,
        text: "",
        trace: Some("0 load 1 ok 00010000 0000000c\n0 run 1\n3 result 1 -1 removed\n4 end quiet\n"),
    },
    Run {
        words: "t.irx",
        files: &[("t.irx", Content::Module(OVERFLOWS))],
        status: Status::GuestFault,
        text: "",
        trace: Some("0 load 1 ok 00010000 0000000c\n0 run 1\n2 end fault overflow 00010008\n"),
    },
    Run {
        words: "t.irx",
        files: &[("t.irx", Content::Module(RESERVED_WORD))],
        status: Status::GuestFault,
        text: "",
        trace: Some("0 load 1 ok 00010000 00000004\n0 run 1\n0 end fault reserved 00010000\n"),
    },
    Run {
        words: "t.irx",
        files: &[("t.irx", Content::Module(UNKNOWN_SERVICE))],
        status: Status::GuestFault,
        text: "",
        trace: Some("0 load 1 ok 00010000 00000004\n0 run 1\n0 end fault service 00010000\n"),
    },
];

#[test]
fn modules_without_imports(rt: HostRuntime) -> Result<(), Fail> {
    answer_all(&rt, rt.alloc(), &WITHOUT_IMPORTS)
}

/// Modules that call `Kprintf` by its stub, or store over it.
const WITH_IMPORTS: [Run; 3] = [
    Run {
        words: "t.irx",
        files: &[("t.irx", Content::Hello("1 99", 14, "addu $v0, $0, $0"))],
        status: Status::Quiet,
        text: "hi\n",
        trace: Some(
            "0 load 1 ok 00010000 00000040\n0 run 1\n11 result 1 0 resident\n12 end quiet\n",
        ),
    },
    Run {
        words: "t.irx",
        files: &[("t.irx", Content::Hello("1 1", 14, "addiu $v0, $0, 1"))],
        status: Status::Quiet,
        text: "hi\n",
        trace: Some(
            "0 load 1 ok 00010000 00000040
0 run 1
11 result 1 1 removed
11 stub 00010014
12 end quiet
",
        ),
    },
    Run {
        words: "t.irx",
        files: &[("t.irx", Content::Module(STORES_OVER_ITS_STUB))],
        status: Status::Quiet,
        text: "",
        trace: Some(
            "0 load 1 ok 00010000 00000048
0 run 1
4 stub 00010014
11 result 1 0 resident
12 end quiet
",
        ),
    },
];

#[test]
fn modules_that_import(rt: HostRuntime) -> Result<(), Fail> {
    answer_all(&rt, rt.alloc(), &WITH_IMPORTS)
}

/// What stands in the trace where the one module is no IRX file.
const REFUSED: &str = "0 load 1 -201\n0 end quiet\n";

/// Files that are refused.
const REFUSED_FILES: [Run; 5] = [
    Run {
        words: "t.irx",
        files: &[("t.irx", Content::Cut(151))],
        status: Status::Quiet,
        text: "",
        trace: Some(REFUSED),
    },
    Run {
        words: "t.irx",
        files: &[("t.irx", Content::Patched(18, 9))],
        status: Status::Quiet,
        text: "",
        trace: Some(REFUSED),
    },
    Run {
        words: "t.irx",
        files: &[("t.irx", Content::Module(UNPAIRED))],
        status: Status::Quiet,
        text: "",
        trace: Some(REFUSED),
    },
    Run {
        words: "t.irx",
        files: &[("t.irx", Content::Text(""))],
        status: Status::Quiet,
        text: "",
        trace: Some(REFUSED),
    },
    Run {
        words: "t.irx",
        files: &[("t.irx", Content::Zeros(4_194_305))],
        status: Status::TooLong,
        text: "",
        trace: Some("iop: t.irx is over 4194304 bytes\n"),
    },
];

#[test]
fn refused_files(rt: HostRuntime) -> Result<(), Fail> {
    answer_all(&rt, rt.alloc(), &REFUSED_FILES)
}
