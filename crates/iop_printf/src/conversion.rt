ghost use Rattle.std.specs.Prelude.{◌≡◌, ◌≤◌};
ghost use Rattle.iop_printf.specs.Texts.{conversion_arguments};

use crate::letter::Letter;

/// A conversion of a format.
#[derive(Clone, Copy, Debug, PartialEq, Eq)]
pub(crate) struct Conversion {
    /// Whether its text is padded on the right.
    pub left: bool,
    /// Whether a number is filled with zeros.
    pub zeros: bool,
    /// The least length of its text, in bytes.
    pub width: u32,
    /// The least number of digits, or the greatest length of a string.
    pub precision: Option<u32>,
    /// What it prints. None where no letter ends it.
    pub letter: Option<Letter>,
    /// How many bytes it has behind its `%`.
    pub len: usize,
}

impl Conversion {
    /// How many arguments it takes.
    pub(crate) fn arguments(&self) -> u32
        ensures { result ≡ conversion_arguments self.now }
    {
        match self.letter {
            None | Some(Letter::Percent) => 0,
            Some(_) => 1,
        }
    }
}
