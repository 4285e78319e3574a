ghost use Rattle.std.specs.Prelude.{◌≡◌};
ghost use Rattle.iop_ready.specs.Priorities.{IsPriority, priority_of};

use std::marker::Model;

/// The worst priority (ps2sdk: thread.h). 1 is the best.
pub const LOWEST_PRIORITY: u32 = 126;

/// The priority of a thread: 1, the best, to `LOWEST_PRIORITY`.
#[derive(Clone, Copy, Debug, PartialEq, Eq)]
pub struct Priority {
    n: u8,
}

impl Model for Priority {
    ghost use Rattle.std.specs.Prelude.{ℕ};
    ghost use Rattle.iop_ready.specs.Priorities.{IsPriority};

    ghost Value = { ℕ };

    ghost view = { λ p. p.n };

    ghost invariant = { λ p. IsPriority p.n };

    ghost inverse = { λ n. record { n = n } };
}

impl Priority {
    /// Makes the priority of a number from 1 to `LOWEST_PRIORITY`.
    pub fn new(n: u8) -> Self
        requires { IsPriority n }
        ensures { result ≡ n }
    {
        Priority { n }
    }

    /// Makes the priority that a guest's word stands for. None exactly where the word is not from 1
    /// to `LOWEST_PRIORITY`.
    pub fn of(word: u32) -> Option<Self>
        ensures { result ≡ priority_of word }
    {
        match word {
            1..=LOWEST_PRIORITY => Some(Priority { n: word as u8 }),
            _ => None,
        }
    }

    /// Reads the number: 1 to `LOWEST_PRIORITY`.
    pub fn number(self) -> u8
        ensures same { result ≡ self }
        ensures inside { IsPriority result }
    {
        self.n
    }
}
