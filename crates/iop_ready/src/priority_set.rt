ghost use Rattle.std.specs.Prelude.{◌≡◌, ℕ, true, false, MatchOption};
ghost use Rattle.iop_base.specs.Bits.{has, ChangesOnly, IsLeast};
ghost use Rattle.iop_ready.specs.Priorities.{ArePriorities};

use crate::priority::Priority;
use std::marker::Model;

/// A set of priorities.
#[derive(Clone, Copy)]
pub(crate) struct PrioritySet {
    /// Bit n is 1 where priority n is in the set.
    bits: u128,
}

impl Model for PrioritySet {
    ghost use Rattle.std.specs.Prelude.{ℕ};
    ghost use Rattle.iop_ready.specs.Priorities.{ArePriorities};

    ghost Value = { ℕ };

    ghost view = { λ s. s.bits };

    ghost invariant = { λ s. ArePriorities s.bits };

    ghost inverse = { λ bits. record { bits = bits } };
}

impl PrioritySet {
    /// Makes the set of no priority.
    pub(crate) fn new() -> Self
        ensures { (n : ℕ) → has result n ≡ false }
    {
        PrioritySet { bits: 0 }
    }

    /// Puts a priority into the set.
    pub(crate) fn insert(&mut self, priority: Priority)
        ensures { ChangesOnly self.old self.new priority true }
    {
        self.bits |= 1 << priority.number();
    }

    /// Takes a priority out of the set.
    pub(crate) fn remove(&mut self, priority: Priority)
        ensures { ChangesOnly self.old self.new priority false }
    {
        self.bits &= !(1 << priority.number());
    }

    /// Finds the best priority of the set. None where it has none.
    pub(crate) fn best(self) -> Option<Priority>
        ensures { MatchOption result ((n : ℕ) → has self n ≡ false) (IsLeast self) }
    {
        if self.bits == 0 {
            return None;
        }
        Some(Priority::new(self.bits.trailing_zeros() as u8))
    }

    /// Gives the word in which bit n is 1 where priority n is in the set.
    pub(crate) fn bits(self) -> u128
        ensures same { result ≡ self }
        ensures priorities { ArePriorities result }
    {
        self.bits
    }
}
