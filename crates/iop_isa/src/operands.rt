//! The operands of instructions.

ghost use Rattle.std.specs.Prelude.{◌≡◌, ◌<◌, ◌^◌};

use std::marker::Model;

/// The number of a register: below 32.
#[derive(Clone, Copy, Debug, PartialEq, Eq)]
pub struct Reg {
    n: u8,
}

impl Model for Reg {
    ghost use Rattle.std.specs.Prelude.{ℕ, ◌<◌};

    ghost Value = { ℕ };

    ghost view = { λ r. r.n };

    ghost invariant = { λ r. r.n < 32 };

    ghost inverse = { λ n. record { n = n } };
}

impl Reg {
    /// Makes the register of a number below 32.
    pub fn new(n: u8) -> Self
        requires { n < 32 }
        ensures { result ≡ n }
    {
        Reg { n }
    }

    /// Reads the number: below 32.
    pub fn number(self) -> u8
        ensures same { result ≡ self }
        ensures below { result < 32 }
    {
        self.n
    }
}

/// An amount to shift by: below 32.
#[derive(Clone, Copy, Debug, PartialEq, Eq)]
pub struct Shift5 {
    n: u8,
}

impl Model for Shift5 {
    ghost use Rattle.std.specs.Prelude.{ℕ, ◌<◌};

    ghost Value = { ℕ };

    ghost view = { λ s. s.n };

    ghost invariant = { λ s. s.n < 32 };

    ghost inverse = { λ n. record { n = n } };
}

impl Shift5 {
    /// Makes the amount of a number below 32.
    pub fn new(n: u8) -> Self
        requires { n < 32 }
        ensures { result ≡ n }
    {
        Shift5 { n }
    }

    /// Reads the number: below 32.
    pub fn number(self) -> u8
        ensures same { result ≡ self }
        ensures below { result < 32 }
    {
        self.n
    }
}

/// The code of a `syscall` or a `break`: below 2^20.
#[derive(Clone, Copy, Debug, PartialEq, Eq)]
pub struct Code20 {
    n: u32,
}

impl Model for Code20 {
    ghost use Rattle.std.specs.Prelude.{ℕ, ◌<◌, ◌^◌};

    ghost Value = { ℕ };

    ghost view = { λ c. c.n };

    ghost invariant = { λ c. c.n < 2 ^ 20 };

    ghost inverse = { λ n. record { n = n } };
}

impl Code20 {
    /// Makes the code of a number below 2^20.
    pub fn new(n: u32) -> Self
        requires { n < 2 ^ 20 }
        ensures { result ≡ n }
    {
        Code20 { n }
    }

    /// Reads the number: below 2^20.
    pub fn number(self) -> u32
        ensures same { result ≡ self }
        ensures below { result < 2 ^ 20 }
    {
        self.n
    }
}

/// The target of a `j` or a `jal`, counted in instructions: below 2^26.
#[derive(Clone, Copy, Debug, PartialEq, Eq)]
pub struct Target26 {
    n: u32,
}

impl Model for Target26 {
    ghost use Rattle.std.specs.Prelude.{ℕ, ◌<◌, ◌^◌};

    ghost Value = { ℕ };

    ghost view = { λ t. t.n };

    ghost invariant = { λ t. t.n < 2 ^ 26 };

    ghost inverse = { λ n. record { n = n } };
}

impl Target26 {
    /// Makes the target of a number below 2^26.
    pub fn new(n: u32) -> Self
        requires { n < 2 ^ 26 }
        ensures { result ≡ n }
    {
        Target26 { n }
    }

    /// Reads the number: below 2^26.
    pub fn number(self) -> u32
        ensures same { result ≡ self }
        ensures below { result < 2 ^ 26 }
    {
        self.n
    }
}
