//! Modules for the tests, as source, and their files.

use iop_asm::assemble;
use irx_build::build;
use std::alloc::{AllocError, Global};
use std::test::Fail;

/// Makes the IRX file of a module's source.
pub fn file_of(alloc: Global, source: &str) -> Result<Vec<u8>, Fail> {
    Ok(build(alloc, &assemble(alloc, source)?)?)
}

/// The smallest module.
pub const PLAIN: &str = "
    .name t
    jr $ra
    addu $v0, $0, $0
";

/// A module that returns 65538.
pub const RETURNS_65538: &str = "
    .name t
    lui $v0, 1
    ori $v0, $v0, 2
    jr $ra
    nop
";

/// A module that returns -1.
pub const RETURNS_MINUS_ONE: &str = "
    .name t
    addiu $v0, $0, -1
    jr $ra
    nop
";

/// A module that adds 1 to the greatest signed number.
pub const OVERFLOWS: &str = "
    .name t
    lui $v0, 0x7FFF
    ori $v0, $v0, 0xFFFF
    addi $v0, $v0, 1
";

/// A module that begins with a word that is no instruction.
pub const RESERVED_WORD: &str = "
    .name t
    .word 0xFFFFFFFF
";

/// A module that calls a library which the kernel does not have.
pub const UNKNOWN_SERVICE: &str = "
    .name t
    syscall 0xFFF00
";

/// A module whose high halves have no low half behind them.
pub const UNPAIRED: &str = "
    .name t
start:
    lui $v0, %hi(start)
    lui $v0, %hi(start)
";

/// A module that stores `jr $ra` over its stub's first word and then calls the stub.
pub const STORES_OVER_ITS_STUB: &str = "
    .name over
    .import sysmem 1 1
    .fn Kprintf 14
    .endi
    .entry main
main:
    addu $s0, $ra, $0
    lui $a1, %hi(Kprintf)
    lui $t0, 0x3E0
    ori $t0, $t0, 8
    sw $t0, %lo(Kprintf)($a1)
    jal Kprintf
    nop
    jr $s0
    addu $v0, $0, $0
";

/// A module that imports from a library which is there and from one which is not.
pub const IMPORTS_MISSING: &str = "
    .name t
    .import sysmem 1 1
    .fn Kprintf 14
    .endi
    .import nolib 1 1
    .fn missing 4
    .endi
    .entry main
main:
    jr $ra
    addu $v0, $0, $0
";

/// A module that gives its own block back, at 0x10000, and then returns 1.
pub const FREES_ITSELF: &str = "
    .name frees
    .import sysmem 1 1
    .fn FreeSysMemory 5
    .endi
    .entry main
main:
    addu $s0, $ra, $0
    lui $a0, 1
    jal FreeSysMemory
    nop
    jr $s0
    addiu $v0, $0, 1
";

/// A module that gives its own block back, at 0x10000, takes one of 512 bytes there, and then
/// returns 1.
pub const TAKES_ITSELF_AGAIN: &str = "
    .name takes
    .import sysmem 1 1
    .fn AllocSysMemory 4
    .fn FreeSysMemory 5
    .endi
    .entry main
main:
    addu $s0, $ra, $0
    jal FreeSysMemory
    lui $a0, 1
    addu $a0, $0, $0
    jal AllocSysMemory
    addiu $a1, $0, 512
    jr $s0
    addiu $v0, $0, 1
";

/// A module that calls the first function of the library `shouts`.
pub const IMPORTS_SHOUT: &str = "
    .name user
    .import shouts 1 1
    .fn shout 0
    .endi
    .entry main
main:
    addu $s0, $ra, $0
    jal shout
    nop
    jr $s0
    addu $v0, $0, $0
";

/// A module that puts a function of its own, which prints `ho`, in the place of `Kprintf` in the
/// export table of `sysmem`, by its address in KSEG0.
pub const PUTS_IN_A_FUNCTION: &str = r#"
    .name puts
    .entry main
main:
    lui $t0, 0x8001
    ori $t0, $t0, 0x14
    sw $t0, 0x124C($0)
    jr $ra
    addu $v0, $0, $0
print:
    lui $a0, %hi(text)
    addiu $a0, $a0, %lo(text)
    syscall 270
    jr $ra
    nop
    .data
text:
    .asciz "ho\n"
"#;

/// A module that has a handler for interrupt line 5, and enables the line.
pub const HANDLES_LINE_5: &str = "
    .name t
    .import intrman 1 1
    .fn RegisterIntrHandler 4
    .fn EnableIntr 6
    .endi
    .entry main
main:
    addu $s0, $ra, $0
    addiu $a0, $0, 5
    lui $a2, %hi(handler)
    jal RegisterIntrHandler
    addiu $a2, $a2, %lo(handler)
    jal EnableIntr
    addiu $a0, $0, 5
    jr $s0
    addu $v0, $0, $0
handler:
    jr $ra
    addiu $v0, $0, 1
";

/// A module that prints `one`, nothing, and `two`.
pub const PRINTS_THREE: &str = r#"
    .name t
    .import sysmem 1 1
    .fn Kprintf 14
    .endi
    .entry main
main:
    addu $s0, $ra, $0
    lui $a0, %hi(one)
    jal Kprintf
    addiu $a0, $a0, %lo(one)
    lui $a0, %hi(none)
    jal Kprintf
    addiu $a0, $a0, %lo(none)
    lui $a0, %hi(two)
    jal Kprintf
    addiu $a0, $a0, %lo(two)
    jr $s0
    addu $v0, $0, $0
    .data
one:
    .asciz "one\n"
none:
    .asciz ""
two:
    .asciz "two\n"
"#;

/// Makes the source of a module that registers the library `shouts`, whose function prints `hi`,
/// and whose last instruction is `last`.
pub fn exports(alloc: Global, last: &str) -> Result<String, AllocError> {
    format!(in alloc;
        r#"
    .name lib
    .import loadcore 1 1
    .fn RegisterLibraryEntries 6
    .endi
    .import sysmem 1 1
    .fn Kprintf 14
    .endi
table:
    .export shouts 1 1
    .word shout
    .ende
    .entry main
shout:
    lui $a0, %hi(text)
    j Kprintf
    addiu $a0, $a0, %lo(text)
main:
    addu $s0, $ra, $0
    lui $a0, %hi(table)
    jal RegisterLibraryEntries
    addiu $a0, $a0, %lo(table)
    jr $s0
    {last}
    .data
text:
    .asciz "hi\n"
"#
    )
}

/// Makes the source of a module that prints `hi` by function `index` of this version of `sysmem`,
/// and whose last instruction is `last`.
pub fn hello(alloc: Global, version: &str, index: u16, last: &str) -> Result<String, AllocError> {
    format!(in alloc;
        r#"
    .name hello
    .import sysmem {version}
    .fn Kprintf {index}
    .endi
    .entry main
main:
    addu $s0, $ra, $0
    lui $a0, %hi(text)
    jal Kprintf
    addiu $a0, $a0, %lo(text)
    jr $s0
    {last}
    .data
text:
    .asciz "hi\n"
"#
    )
}
