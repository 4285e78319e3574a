ghost use Rattle.std.specs.Prelude.{◌≡◌, ◌≤◌};
ghost use Rattle.iop_base.specs.Counts.{risen};
ghost use Rattle.iop_ports.specs.Calls.{no_calls, is_listed};

use std::marker::Model;

/// Counts calls, of which those with a listed number fail.
#[derive(Drop)]
pub struct Calls {
    fail: Vec<u64>,
    made: u64,
    faults: u64,
}

impl Model for Calls {
    ghost use Rattle.iop_ports.specs.Calls.{Calls};

    ghost Value = { Calls };

    ghost view = { λ c. record { fail = c.fail.items; made = c.made; faults = c.faults } };
}

impl Calls {
    /// None yet. `fail` lists the numbers of the calls that fail, from 1 on.
    pub fn new(fail: Vec<u64>) -> Self
        ensures { result ≡ no_calls fail.items }
    {
        Calls {
            fail,
            made: 0,
            faults: 0,
        }
    }

    /// How many calls were made; it stands still at 2^64 - 1.
    pub fn made(&self) -> u64
        ensures { result ≡ self.now.made }
    {
        self.made
    }

    /// How many of them failed; it stands still at 2^64 - 1.
    pub fn faults(&self) -> u64
        ensures { result ≡ self.now.faults }
    {
        self.faults
    }

    /// Counts a call and answers whether its number is listed.
    pub fn begin(&mut self) -> bool
        ensures listed { result ≡ is_listed self.old }
        ensures counted { self.new ≡ record self.old { made = risen self.old.made } }
    {
        self.made = self.made.saturating_add(1);
        self.fail.contains(&self.made)
    }

    /// Counts the failure of the call that was begun last.
    pub fn fail(&mut self)
        ensures counted { self.new ≡ record self.old { faults = risen self.old.faults } }
        ensures never_falls { self.old.faults ≤ self.new.faults }
    {
        self.faults = self.faults.saturating_add(1);
    }
}
