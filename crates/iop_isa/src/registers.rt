//! Registers by name.

ghost use Rattle.std.specs.Prelude.{◌≡◌, ◌<◌, IfSome, decimal, position};
ghost use Rattle.std.specs.Str.{bytes_eq};
ghost use Rattle.iop_base.specs.Strings.{before_zero};
ghost use Rattle.iop_isa.specs.Registers.{conventional, numbered, register_named};

use crate::operands::Reg;
use iop_base::before_zero;

/// The conventional names of the registers by their numbers, each of four bytes and filled up with
/// zeros (MIPS o32 ABI).
pub const REGISTER_NAMES: [[u8; 4]; 32] = [
    *b"zero", *b"at\0\0", *b"v0\0\0", *b"v1\0\0", *b"a0\0\0", *b"a1\0\0", *b"a2\0\0", *b"a3\0\0",
    *b"t0\0\0", *b"t1\0\0", *b"t2\0\0", *b"t3\0\0", *b"t4\0\0", *b"t5\0\0", *b"t6\0\0", *b"t7\0\0",
    *b"s0\0\0", *b"s1\0\0", *b"s2\0\0", *b"s3\0\0", *b"s4\0\0", *b"s5\0\0", *b"s6\0\0", *b"s7\0\0",
    *b"t8\0\0", *b"t9\0\0", *b"k0\0\0", *b"k1\0\0", *b"gp\0\0", *b"sp\0\0", *b"fp\0\0", *b"ra\0\0",
];

impl Reg {
    /// Finds the register of a name that stands without its `$`: a conventional name, or the number
    /// in decimal with no leading zeros. `None` exactly where no register has it.
    #[tactic(auto, unfolding(crate::specs::Registers::register_named))]
    pub fn named(name: &[u8]) -> Option<Self>
        ensures { result ≡ register_named name.now }
    {
        let number = match find_conventional(name) {
            Some(number) => number as u8,
            None => find_decimal(name)?,
        };
        Some(Reg::new(number))
    }
}

/// Finds the number of the register of a conventional name.
fn find_conventional(name: &[u8]) -> Option<usize>
    ensures found { result ≡ conventional name.now }
    ensures below { IfSome result (λ number. number < 32) }
{
    find_name(&REGISTER_NAMES, name)
}

/// Finds the first of the names, which are filled up with zeros.
fn find_name(names: &[[u8; 4]; 32], name: &[u8]) -> Option<usize>
    ensures { result ≡ position (λ known. bytes_eq (before_zero known) name.now) names.now }
{
    names.iter().position(|known| before_zero(known) == name)
}

/// Finds the number of a register that a text is in decimal.
fn find_decimal(text: &[u8]) -> Option<u8>
    ensures found { result ≡ numbered text.now }
    ensures below { IfSome result (λ number. number < 32) }
{
    (0..32u8).find(|number| is_decimal(*number, text))
}

/// Whether a text is a number below 100 in decimal, with no leading zeros.
#[tactic(auto, using(std::proofs::lemmas::Fmt::decimal_digit, crate::proofs::Decimal::decimal_two))]
fn is_decimal(number: u8, text: &[u8]) -> bool
    requires { number < 100 }
    ensures { result ≡ bytes_eq (decimal number) text.now }
{
    if number < 10 {
        [b'0' + number].as_slice() == text
    } else {
        [b'0' + number / 10, b'0' + number % 10].as_slice() == text
    }
}
