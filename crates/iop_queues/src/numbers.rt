ghost use Rattle.std.specs.Prelude.{◌≡◌, ◌^◌, ◌<◌, [], ◌∷◌, ◌++◌, IfOk, MatchOption, length};
ghost use Rattle.std.specs.List.{range_with_len};

use std::alloc::{AllocError, Global};
use std::marker::Model;

/// Those of the numbers below `BOUND` that are free, such as the numbers of queues. Each of the
/// others has one holder, who gives it back. No call but `new` takes memory.
#[derive(Drop)]
pub struct Numbers<const BOUND: usize> {
    /// The one that is taken next comes last.
    free: Vec<u32>,
}

impl<const BOUND: usize> Model for Numbers<BOUND> {
    ghost use Rattle.std.specs.Prelude.{ℕ, ◌≤◌, List, vec_capacity};

    ghost Value = { List ℕ };

    ghost view = { λ numbers. numbers.free.items };

    ghost invariant = { λ numbers. BOUND ≤ vec_capacity numbers.free };
}

impl<const BOUND: usize> Numbers<BOUND> {
    /// Makes all of the numbers, which are free. It takes all the memory that the calls will need;
    /// `AllocError` where the host has less.
    pub fn new(alloc: Global) -> Result<Self, AllocError>
        requires { BOUND < 2 ^ 32 }
        ensures { IfOk result (λ made. made ≡ range_with_len 0 BOUND) }
    {
        let free = (0..BOUND as u32).collect(alloc)?;
        Ok(Numbers { free })
    }

    /// Takes the number that is free and comes last. None exactly where none is free.
    pub fn take(&mut self) -> Option<u32>
        ensures { MatchOption result
            ((self.old ≡ []) × (self.new ≡ []))
            (λ number. self.old ≡ self.new ++ number ∷ []) }
    {
        self.free.pop()
    }

    /// Gives a number back.
    pub fn give_back(&mut self, number: u32)
        requires { length self.old < BOUND }
        ensures { self.new ≡ self.old ++ number ∷ [] }
    {
        self.free.push_reserved(number);
    }
}
