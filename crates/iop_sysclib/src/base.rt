//! The bases of numbers.

ghost use Rattle.std.specs.Prelude.{◌≡◌, ◌≤◌, if◌then◌else◌, Some, None};
ghost use Rattle.iop_sysclib.specs.Numerals.{is_base, base_of, told_base};

use crate::numerals::has_hex_prefix;
use std::marker::Model;

/// The least base of digits.
pub(crate) const LEAST_BASE: u32 = 2;

/// The greatest base of digits.
pub(crate) const GREATEST_BASE: u32 = 36;

/// The base of digits: from 2 to 36.
#[derive(Clone, Copy)]
pub(crate) struct Base {
    number: u32,
}

impl Model for Base {
    ghost use Rattle.std.specs.Prelude.{ℕ, ◌≤◌};
    ghost use Rattle.iop_sysclib.specs.declared.base.TheConstants.{LEAST_BASE, GREATEST_BASE};

    ghost Value = { ℕ };

    ghost view = { λ base. base.number };

    ghost invariant = { λ base. (LEAST_BASE ≤ base.number) × (base.number ≤ GREATEST_BASE) };

    ghost inverse = { λ number. record { number = number } };
}

impl Base {
    /// Makes the base of a number from 2 to 36.
    pub(crate) fn new(number: u32) -> Self
        requires least { LEAST_BASE ≤ number }
        requires greatest { number ≤ GREATEST_BASE }
        ensures { result ≡ number }
    {
        Base { number }
    }

    /// Tells the base of an unsigned number; base 0 stands for the one that its front tells. None
    /// exactly where numbers do not have the base.
    pub(crate) fn told(base: u32, unsigned: &[u8]) -> Option<Self>
        ensures { result ≡ (if is_base base then Some (base_of base unsigned.now) else None) }
    {
        if base == 0 {
            return Some(Base::told_in_front(unsigned));
        }
        if LEAST_BASE <= base && base <= GREATEST_BASE {
            Some(Base::new(base))
        } else {
            None
        }
    }

    /// Finds the base that the front of an unsigned number tells.
    fn told_in_front(unsigned: &[u8]) -> Self
        ensures { result ≡ told_base unsigned.now }
    {
        if has_hex_prefix(unsigned) {
            return Base::new(16);
        }
        match unsigned.first() {
            Some(b'0') => Base::new(8),
            _ => Base::new(10),
        }
    }

    /// Reads the number: from 2 to 36.
    pub(crate) fn number(self) -> u32
        ensures same { result ≡ self }
        ensures least { LEAST_BASE ≤ result }
        ensures greatest { result ≤ GREATEST_BASE }
    {
        self.number
    }
}
