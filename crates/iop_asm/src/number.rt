ghost use Rattle.std.specs.Prelude.{◌≡◌, ◌≤◌};
ghost use Rattle.iop_asm.specs.Operands.{complement, lies_within};
ghost use Rattle.iop_asm.specs.Texts.{digits_number, number_of};

/// A number as it is written: its sign and its magnitude.
#[derive(Clone, Copy, Debug, PartialEq, Eq)]
pub(crate) struct Number {
    /// Whether a minus stands before it.
    pub negative: bool,
    /// Its magnitude. A greater one than 2^64 - 1 counts as that.
    pub magnitude: u64,
}

impl Number {
    /// Tells whether it is at least minus `low` and at most `high`.
    pub fn lies_within(self, low: u64, high: u64) -> bool
        ensures { result ≡ lies_within low high self }
    {
        self.magnitude <= if self.negative { low } else { high }
    }

    /// Gives its two's complement of so many bits, where it is negative, else the number itself.
    pub fn complement(self, bits: u32) -> u64
        requires { bits ≤ 32 }
        ensures { result ≡ complement bits self }
    {
        if self.negative {
            (1_u64 << bits).saturating_sub(self.magnitude) % (1_u64 << bits)
        } else {
            self.magnitude
        }
    }
}

/// Reads the number of a word: `0x` and hexadecimal digits, or decimal digits with or without a
/// minus. None where the word is no number.
#[tactic(auto, unfolding(crate::specs::Texts::number_of))]
pub(crate) fn number_of(word: &[u8]) -> Option<Number>
    ensures { result ≡ number_of word.now }
{
    let (negative, base, digits) = if let Some(digits) = word.strip_prefix(b"0x") {
        (false, 16, digits)
    } else if let Some(digits) = word.strip_prefix(b"-") {
        (true, 10, digits)
    } else {
        (false, 10, word)
    };
    let magnitude = digits_number(base, digits)?;
    Some(Number {
        negative,
        magnitude,
    })
}

/// Reads the number of digits to a base; a greater one than 2^64 - 1 counts as that. None where
/// there is no digit, or a byte is none.
fn digits_number(base: u32, digits: &[u8]) -> Option<u64>
    requires some { 2 ≤ base }
    requires few { base ≤ 36 }
    ensures { result ≡ digits_number base digits.now }
{
    if digits.is_empty() {
        return None;
    }
    let mut number: u64 = 0;
    for byte in digits {
        let digit = char::from(*byte).to_digit(base)?;
        number = number
            .saturating_mul(u64::from(base))
            .saturating_add(u64::from(digit));
    }
    Some(number)
}
