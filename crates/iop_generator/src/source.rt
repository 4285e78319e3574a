//! The source of the module.

ghost use Rattle.std.specs.Prelude.{◌≡◌, ◌++◌, IfOk, codes, string_bytes};
ghost use Rattle.iop_generator.specs.Sources.{number_line, source};

use std::alloc::{AllocError, Global};

/// The lines before the one that has the number of workers.
const LINES_BEFORE: &str = "\
.name gen
.version 1 1
.entry main
.import thbase 1 1
.fn CreateThread 4
.fn StartThread 6
.endi
.import thsemap 1 1
.fn CreateSema 4
.fn SignalSema 6
.fn WaitSema 8
.endi
.import stdio 1 1
.fn printf 4
.endi
main:
addiu $sp,$sp,-64
sw $ra,60($sp)
lui $a0,%hi(semp)
jal CreateSema
addiu $a0,$a0,%lo(semp)
lui $s1,%hi(sem)
sw $v0,%lo(sem)($s1)
addu $s0,$0,$0
more:
lui $a0,%hi(thp)
jal CreateThread
addiu $a0,$a0,%lo(thp)
addu $a0,$v0,$0
addiu $s0,$s0,1
jal StartThread
addu $a1,$s0,$0
";

/// The lines behind the one that has the number of workers.
const LINES_BEHIND: &str = "\
bne $s0,$t0,more
nop
addu $s2,$0,$0
wait:
lw $a0,%lo(sem)($s1)
addiu $s2,$s2,1
jal WaitSema
nop
bne $s2,$s0,wait
nop
lui $a2,%hi(total)
lw $a2,%lo(total)($a2)
lui $a0,%hi(words)
addu $a1,$s0,$0
jal printf
addiu $a0,$a0,%lo(words)
lw $ra,60($sp)
addu $v0,$0,$0
jr $ra
addiu $sp,$sp,64
work:
lui $t1,%hi(total)
addiu $t3,$0,1000
loop:
lw $t0,%lo(total)($t1)
addiu $t3,$t3,-1
addu $t0,$t0,$a0
bne $t3,$0,loop
sw $t0,%lo(total)($t1)
lui $a0,%hi(sem)
lw $a0,%lo(sem)($a0)
nop
j SignalSema
nop
.data
semp:
.word 0,0,0,250
thp:
.word 0x02000000,0,work,512,20
total:
.word 0
sem:
.word 0
words:
.asciz \"workers %d sum %d\\n\"
";

/// Writes the line that has the number of workers.
fn number_line(alloc: Global, workers: u32) -> Result<String, AllocError>
    ensures { IfOk result (λ line. string_bytes line ≡ number_line workers ++ codes "\n") }
{
    format!(in alloc; "addiu $t0,$0,{workers}\n")
}

/// Writes the source of the module for so many workers.
pub(crate) fn source(alloc: Global, workers: u32) -> Result<String, AllocError>
    ensures { IfOk result (λ text. string_bytes text ≡ source workers) }
{
    let line = number_line(alloc, workers)?;
    let mut text = String::from_str(alloc, LINES_BEFORE)?;
    text.push_str(line.as_str())?;
    text.push_str(LINES_BEHIND)?;
    Ok(text)
}
