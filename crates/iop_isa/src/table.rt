//! The table of the instructions.

/// An operand of an instruction: the field of the word that holds it, and how it is written.
#[derive(Clone, Copy, Debug, PartialEq, Eq)]
pub enum Operand {
    /// The register `rd`.
    Rd,
    /// The register `rs`.
    Rs,
    /// The register `rt`.
    Rt,
    /// The amount to shift by.
    Sa,
    /// The code of a `syscall` or a `break`.
    Code,
    /// The immediate, as a signed number.
    Signed,
    /// The immediate, as its bits.
    Bits,
    /// The immediate, as the address to which it branches.
    Label,
    /// The target of a jump, as its address.
    Target,
    /// The register `rs`, to which the operand before it is added.
    Base,
}

/// Hands the rows of the table to the macro `$expand`, behind what it is given.
///
/// The rows stand by their format. A row has a code, and then the instruction's name, its variant,
/// and for each field of the variant the operand that it is. The code is the function under opcode
/// 0, which has the formats `registers` and `code`; it is `rt` under opcode 1, whose format is
/// `regimm`; and else it is the opcode.
#[macro_export]
macro_rules! table {
    ($expand:ident!($($given:tt)*)) => {
        $expand! {
            ($($given)*)
            registers {
                0x00 (b"sll" Sll { rd: Rd, rt: Rt, sa: Sa })
                0x02 (b"srl" Srl { rd: Rd, rt: Rt, sa: Sa })
                0x03 (b"sra" Sra { rd: Rd, rt: Rt, sa: Sa })
                0x04 (b"sllv" Sllv { rd: Rd, rt: Rt, rs: Rs })
                0x06 (b"srlv" Srlv { rd: Rd, rt: Rt, rs: Rs })
                0x07 (b"srav" Srav { rd: Rd, rt: Rt, rs: Rs })
                0x08 (b"jr" Jr { rs: Rs })
                0x09 (b"jalr" Jalr { rd: Rd, rs: Rs })
                0x10 (b"mfhi" Mfhi { rd: Rd })
                0x11 (b"mthi" Mthi { rs: Rs })
                0x12 (b"mflo" Mflo { rd: Rd })
                0x13 (b"mtlo" Mtlo { rs: Rs })
                0x18 (b"mult" Mult { rs: Rs, rt: Rt })
                0x19 (b"multu" Multu { rs: Rs, rt: Rt })
                0x1A (b"div" Div { rs: Rs, rt: Rt })
                0x1B (b"divu" Divu { rs: Rs, rt: Rt })
                0x20 (b"add" Add { rd: Rd, rs: Rs, rt: Rt })
                0x21 (b"addu" Addu { rd: Rd, rs: Rs, rt: Rt })
                0x22 (b"sub" Sub { rd: Rd, rs: Rs, rt: Rt })
                0x23 (b"subu" Subu { rd: Rd, rs: Rs, rt: Rt })
                0x24 (b"and" And { rd: Rd, rs: Rs, rt: Rt })
                0x25 (b"or" Or { rd: Rd, rs: Rs, rt: Rt })
                0x26 (b"xor" Xor { rd: Rd, rs: Rs, rt: Rt })
                0x27 (b"nor" Nor { rd: Rd, rs: Rs, rt: Rt })
                0x2A (b"slt" Slt { rd: Rd, rs: Rs, rt: Rt })
                0x2B (b"sltu" Sltu { rd: Rd, rs: Rs, rt: Rt })
            }
            code {
                0x0C (b"syscall" Syscall { n: Code })
                0x0D (b"break" Break { n: Code })
            }
            regimm {
                0x00 (b"bltz" Bltz { rs: Rs, imm: Label })
                0x01 (b"bgez" Bgez { rs: Rs, imm: Label })
                0x10 (b"bltzal" Bltzal { rs: Rs, imm: Label })
                0x11 (b"bgezal" Bgezal { rs: Rs, imm: Label })
            }
            jump {
                0x02 (b"j" J { target: Target })
                0x03 (b"jal" Jal { target: Target })
            }
            immediate {
                0x04 (b"beq" Beq { rs: Rs, rt: Rt, imm: Label })
                0x05 (b"bne" Bne { rs: Rs, rt: Rt, imm: Label })
                0x06 (b"blez" Blez { rs: Rs, imm: Label })
                0x07 (b"bgtz" Bgtz { rs: Rs, imm: Label })
                0x08 (b"addi" Addi { rt: Rt, rs: Rs, imm: Signed })
                0x09 (b"addiu" Addiu { rt: Rt, rs: Rs, imm: Signed })
                0x0A (b"slti" Slti { rt: Rt, rs: Rs, imm: Signed })
                0x0B (b"sltiu" Sltiu { rt: Rt, rs: Rs, imm: Signed })
                0x0C (b"andi" Andi { rt: Rt, rs: Rs, imm: Bits })
                0x0D (b"ori" Ori { rt: Rt, rs: Rs, imm: Bits })
                0x0E (b"xori" Xori { rt: Rt, rs: Rs, imm: Bits })
                0x0F (b"lui" Lui { rt: Rt, imm: Bits })
                0x20 (b"lb" Lb { rt: Rt, imm: Signed, rs: Base })
                0x21 (b"lh" Lh { rt: Rt, imm: Signed, rs: Base })
                0x22 (b"lwl" Lwl { rt: Rt, imm: Signed, rs: Base })
                0x23 (b"lw" Lw { rt: Rt, imm: Signed, rs: Base })
                0x24 (b"lbu" Lbu { rt: Rt, imm: Signed, rs: Base })
                0x25 (b"lhu" Lhu { rt: Rt, imm: Signed, rs: Base })
                0x26 (b"lwr" Lwr { rt: Rt, imm: Signed, rs: Base })
                0x28 (b"sb" Sb { rt: Rt, imm: Signed, rs: Base })
                0x29 (b"sh" Sh { rt: Rt, imm: Signed, rs: Base })
                0x2A (b"swl" Swl { rt: Rt, imm: Signed, rs: Base })
                0x2B (b"sw" Sw { rt: Rt, imm: Signed, rs: Base })
                0x2E (b"swr" Swr { rt: Rt, imm: Signed, rs: Base })
            }
        }
    };
}

/// Selects the row of a word, and writes what the macro `$found` makes of it: `$none` for a word of
/// no row. It is called as `table!(select_row!(word, found!(given), none))`.
///
/// Each row calls `$found!($given (name Variant { field: operand, … }))`. The call is all of that
/// row's arm of a `match`, a tail expression wherever `table!` is one: so a function that executes
/// an arm has nothing left to do behind it.
#[macro_export]
macro_rules! select_row {
    (
        ($word:ident, $found:ident! $given:tt, $none:expr)
        registers { $($registers:literal $registers_row:tt)* }
        code { $($code:literal $code_row:tt)* }
        regimm { $($regimm:literal $regimm_row:tt)* }
        jump { $($jump:literal $jump_row:tt)* }
        immediate { $($immediate:literal $immediate_row:tt)* }
    ) => {
        match $crate::field($word, 26, 6) {
            0 => match $crate::field($word, 0, 6) {
                $($registers => $found!($given $registers_row),)*
                $($code => $found!($given $code_row),)*
                _ => $none,
            },
            1 => match $crate::field($word, 16, 5) {
                $($regimm => $found!($given $regimm_row),)*
                _ => $none,
            },
            $($jump => $found!($given $jump_row),)*
            $($immediate => $found!($given $immediate_row),)*
            _ => $none,
        }
    };
}
