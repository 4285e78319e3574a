ghost use Rattle.std.specs.Prelude.{◌≡◌};
ghost use Rattle.iop_printf.specs.Conversions.{letter_of};

use crate::notation::Notation;

/// What a conversion prints.
#[derive(Clone, Copy, Debug, PartialEq, Eq)]
pub(crate) enum Letter {
    /// The argument as a number.
    Number(Notation),
    /// The argument's low byte.
    Character,
    /// The string at the argument.
    Text,
    /// `%`, without an argument.
    Percent,
}

impl Letter {
    /// The letter of a byte. None of a byte that is no letter of a conversion.
    #[tactic(auto, unfolding(crate::specs::Conversions::letter_of))]
    pub(crate) fn of(byte: u8) -> Option<Letter>
        ensures { result ≡ letter_of byte }
    {
        let letter = match byte {
            b'd' | b'i' => Letter::Number(Notation::Signed),
            b'u' => Letter::Number(Notation::Unsigned),
            b'o' => Letter::Number(Notation::Octal),
            b'x' => Letter::Number(Notation::LowerHex),
            b'X' => Letter::Number(Notation::UpperHex),
            b'p' => Letter::Number(Notation::Pointer),
            b'c' => Letter::Character,
            b's' => Letter::Text,
            b'%' => Letter::Percent,
            _ => return None,
        };
        Some(letter)
    }
}
