ghost use Rattle.std.specs.Prelude.{◌≡◌, ℕ, ◌<◌, ◌&&◌, true, false, IfSome, MatchOption};
ghost use Rattle.iop_base.specs.Bits.{has, ChangesOnly, IsLeast};
ghost use Rattle.iop_intr.specs.declared.irqs.TheConstants.{IRQ_LINES};

use std::marker::Model;

/// A set of interrupt lines.
#[derive(Clone, Copy, Debug)]
pub(crate) struct LineSet {
    /// Bit n is 1 where line n is in the set.
    bits: u64,
}

impl Model for LineSet {
    ghost use Rattle.std.specs.Prelude.{ℕ};

    ghost Value = { ℕ };

    ghost view = { λ s. s.bits };

    ghost inverse = { λ bits. record { bits = bits } };
}

impl LineSet {
    /// Makes the set of no line.
    pub(crate) fn new() -> Self
        ensures { (n : ℕ) → has result n ≡ false }
    {
        LineSet { bits: 0 }
    }

    /// Tells whether a line is in the set.
    pub(crate) fn has(self, line: u32) -> bool
        requires { line < IRQ_LINES }
        ensures { result ≡ has self line }
    {
        self.bits >> line & 1 == 1
    }

    /// Puts a line into the set.
    pub(crate) fn insert(&mut self, line: u32)
        requires { line < IRQ_LINES }
        ensures { ChangesOnly self.old self.new line true }
    {
        self.bits |= 1 << line;
    }

    /// Takes a line out of the set, if it is there.
    pub(crate) fn remove(&mut self, line: u32)
        requires { line < IRQ_LINES }
        ensures { ChangesOnly self.old self.new line false }
    {
        self.bits &= !(1 << line);
    }

    /// Puts a line into the set, or takes it out.
    pub(crate) fn put(&mut self, line: u32, is_in: bool)
        requires { line < IRQ_LINES }
        ensures { ChangesOnly self.old self.new line is_in }
    {
        if is_in {
            self.insert(line);
        } else {
            self.remove(line);
        }
    }

    /// Makes the set of the lines that are in both.
    pub(crate) fn intersection(self, other: Self) -> Self
        ensures { (n : ℕ) → has result n ≡ (has self n && has other n) }
    {
        LineSet {
            bits: self.bits & other.bits,
        }
    }

    /// Finds the lowest line of the set. None where it has none.
    pub(crate) fn first(self) -> Option<u8>
        ensures lowest { MatchOption result ((n : ℕ) → has self n ≡ false) (IsLeast self) }
        ensures below { IfSome result (λ n. n < IRQ_LINES) }
    {
        if self.bits == 0 {
            return None;
        }
        Some(self.bits.trailing_zeros() as u8)
    }
}
