//! The three modules of `examples/vertical_blank`, where a write to the console fails.

use crate::commands::{Content, Faults, NO_FAULTS, Run, calls_of};
use iop_front::Status;
use std::test::Fail;

/// A module that makes a semaphore, and registers the library `vbcount`, whose function 4 answers
/// its id.
const MAKES_SEMAPHORE: &str = "
    .name vb
    .entry main
    .import loadcore 1 1
    .fn register_library 6
    .endi
    .import thsemap 1 1
    .fn create_sema 4
    .endi
vbcount:
    .export vbcount 1 1
    .word nothing, nothing, nothing, nothing, blanks
    .ende
nothing:
    jr $ra
    addu $v0, $0, $0
blanks:
    lui $v0, %hi(blank)
    lw $v0, %lo(blank)($v0)
    jr $ra
    nop
main:
    addu $s0, $ra, $0
    lui $a0, %hi(words)
    jal create_sema
    addiu $a0, $a0, %lo(words)
    lui $t0, %hi(blank)
    sw $v0, %lo(blank)($t0)
    lui $a0, %hi(vbcount)
    jal register_library
    addiu $a0, $a0, %lo(vbcount)
    jr $s0
    addu $v0, $0, $0
    .data
words:
    .word 0, 0, 0, 200
blank:
    .word 0
";

/// A module whose handler of interrupt line 0 signals the semaphore of `vbcount`.
const SIGNALS: &str = "
    .name prod
    .entry main
    .import intrman 1 1
    .fn register 4
    .fn enable_line 6
    .endi
    .import thsemap 1 1
    .fn signal_in_handler 7
    .endi
    .import vbcount 1 1
    .fn blanks 4
    .endi
main:
    addu $s0, $ra, $0
    jal blanks
    nop
    addu $a3, $v0, $0
    addu $a0, $0, $0
    lui $a2, %hi(blank)
    jal register
    addiu $a2, $a2, %lo(blank)
    jal enable_line
    addu $a0, $0, $0
    jr $s0
    addu $v0, $0, $0
blank:
    addu $s0, $ra, $0
    jal signal_in_handler
    nop
    jr $s0
    addiu $v0, $0, 1
";

/// A module whose thread waits for that semaphore 200 times, and prints a line each time.
const WAITS: &str = r#"
    .name cons
    .entry main
    .import thbase 1 1
    .fn create 4
    .fn start 6
    .endi
    .import thsemap 1 1
    .fn wait 8
    .endi
    .import vbcount 1 1
    .fn blanks 4
    .endi
    .import stdio 1 1
    .fn print 4
    .endi
main:
    addu $s0, $ra, $0
    jal blanks
    nop
    addu $s1, $v0, $0
    lui $a0, %hi(counter)
    jal create
    addiu $a0, $a0, %lo(counter)
    addu $a0, $v0, $0
    jal start
    addu $a1, $s1, $0
    jr $s0
    addu $v0, $0, $0
counts:
    addu $s0, $ra, $0
    addu $s1, $a0, $0
    addu $s2, $0, $0
    addiu $s3, $0, 200
more:
    jal wait
    addu $a0, $s1, $0
    addiu $s2, $s2, 1
    lui $a0, %hi(tick)
    addiu $a0, $a0, %lo(tick)
    jal print
    addu $a1, $s2, $0
    bne $s2, $s3, more
    nop
    lui $a0, %hi(done)
    jal print
    addiu $a0, $a0, %lo(done)
    jr $s0
    nop
    .data
counter:
    .word 0, 0, counts, 512, 20
tick:
    .asciz "tick %d\n"
done:
    .asciz "done 200\n"
"#;

/// The script raises line 0 four times, that of the example 200 times: the run ends before the
/// fourth.
const SCRIPT: &str = "script 1
at 614400 line 0
at 1228800 line 0
at 1843200 line 0
at 2457600 line 0
";

/// The command, whose third write to the console fails.
const THIRD_FAILS: Run = Run {
    words: "--script script vb.irx prod.irx cons.irx",
    files: &[
        ("script", Content::Text(SCRIPT)),
        ("vb.irx", Content::Module(MAKES_SEMAPHORE)),
        ("prod.irx", Content::Module(SIGNALS)),
        ("cons.irx", Content::Module(WAITS)),
    ],
    status: Status::SinkFault,
    text: "tick 1\ntick 2\n",
    trace: Some(
        "0 load 1 ok 00010000 000000cc
0 run 1
21 result 1 0 resident
21 load 2 ok 00010100 000000b8
50 result 2 0 resident
50 load 3 ok 00010200 0000013c
79 result 3 0 resident
80 run 2
614400 line 0
614411 run 2
1228800 line 0
1228811 run 2
1843200 line 0
1843211 run 2
",
    ),
};

#[test]
fn third_text_fails(rt: HostRuntime) -> Result<(), Fail> {
    let faults = Faults {
        console: 3,
        ..NO_FAULTS
    };
    let _ = calls_of(&rt, rt.alloc(), faults, THIRD_FAILS)?;
    Ok(())
}
