ghost use Rattle.std.specs.Prelude.{◌≡◌};
ghost use Rattle.iop_base.specs.Keeping.{kept_of};

/// What becomes of a module after it has returned.
#[derive(Clone, Copy, Debug, PartialEq, Eq)]
pub enum Kept {
    /// It stays. Its result's low two bits are 0.
    Resident,
    /// It is removed. Its result's low two bits are 1 or 3.
    Removed,
    /// It stays until it is unloaded. Its result's low two bits are 2.
    Removable,
}

impl Kept {
    /// What becomes of a module that returned this value, by its low two bits (ps2sdk's module
    /// results).
    pub fn of_value(value: u32) -> Kept
        ensures { result ≡ kept_of value }
    {
        match value % 4 {
            0 => Kept::Resident,
            2 => Kept::Removable,
            _ => Kept::Removed,
        }
    }
}
