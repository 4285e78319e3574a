ghost use Rattle.std.specs.Prelude.{◌≡◌, ◌<◌};

use std::marker::Model;

/// The most threads that can stand at a time. It is this project's own profile.
pub const MOST_THREADS: usize = 255;

/// The place of a thread's record: 0 to 254.
#[derive(Clone, Copy, Debug, PartialEq, Eq)]
pub struct Slot {
    n: u8,
}

impl Model for Slot {
    ghost use Rattle.std.specs.Prelude.{ℕ, ◌<◌};
    ghost use Rattle.iop_ready.specs.declared.slot.TheConstants.{MOST_THREADS};

    ghost Value = { ℕ };

    ghost view = { λ s. s.n };

    ghost invariant = { λ s. s.n < MOST_THREADS };

    ghost inverse = { λ n. record { n = n } };
}

impl Slot {
    /// Makes the slot of a place below `MOST_THREADS`.
    pub fn new(n: u8) -> Self
        requires { n < MOST_THREADS }
        ensures { result ≡ n }
    {
        Slot { n }
    }

    /// Reads the place: below `MOST_THREADS`.
    pub fn number(self) -> u8
        ensures same { result ≡ self }
        ensures below { result < MOST_THREADS }
    {
        self.n
    }
}
