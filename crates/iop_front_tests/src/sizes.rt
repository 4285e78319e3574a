//! Commands with memory of both sizes.

use crate::commands::{Content, Run, answer_all};
use iop_front::Status;
use std::test::Fail;

/// A module that returns the word behind the first 2 MiB of memory.
const LOADS_BEHIND_2_MIB: &str = "
    .name t
    lui $t0, 0x20
    lw $v0, 0($t0)
    jr $ra
    nop
";

/// A module that creates a thread with a stack of 512 bytes, and returns the size of memory.
const CREATES_A_THREAD: &str = "
    .name t
    .import sysmem 1 1
    .fn QueryMemSize 6
    .endi
    .import thbase 1 1
    .fn CreateThread 4
    .endi
    .entry main
main:
    addu $s0, $ra, $0
    lui $a0, %hi(thread)
    jal CreateThread
    addiu $a0, $a0, %lo(thread)
    jal QueryMemSize
    nop
    jr $s0
    nop
    .data
thread:
    .word 0x2000000, 0, main, 512, 20
";

/// The word behind the first 2 MiB, which 8 MiB alone have; and the size and the first stack, which
/// ends with memory.
const SIZES: [Run; 4] = [
    Run {
        words: "--ram 2 t.irx",
        files: &[("t.irx", Content::Module(LOADS_BEHIND_2_MIB))],
        status: Status::GuestFault,
        text: "",
        trace: Some("0 load 1 ok 00010000 00000010\n0 run 1\n1 end fault address 00010004\n"),
    },
    Run {
        words: "--ram 8 t.irx",
        files: &[("t.irx", Content::Module(LOADS_BEHIND_2_MIB))],
        status: Status::Quiet,
        text: "",
        trace: Some("0 load 1 ok 00010000 00000010\n0 run 1\n4 result 1 0 resident\n5 end quiet\n"),
    },
    Run {
        words: "--dump 1ffdf8:10 t.irx",
        files: &[("t.irx", Content::Module(CREATES_A_THREAD))],
        status: Status::Quiet,
        text: "",
        trace: Some(
            "0 load 1 ok 00010000 0000007c
0 run 1
18 result 1 2097152 resident
19 end quiet
001ffdf8: 0000000000000000ffffffffffffffff
",
        ),
    },
    Run {
        words: "--dump 7ffdf8:10 t.irx --ram=8",
        files: &[("t.irx", Content::Module(CREATES_A_THREAD))],
        status: Status::Quiet,
        text: "",
        trace: Some(
            "0 load 1 ok 00010000 0000007c
0 run 1
18 result 1 8388608 resident
19 end quiet
007ffdf8: 0000000000000000ffffffffffffffff
",
        ),
    },
];

#[test]
fn sizes_of_memory(rt: HostRuntime) -> Result<(), Fail> {
    answer_all(&rt, rt.alloc(), &SIZES)
}
